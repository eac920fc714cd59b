//! The plan of the bench.
ghost use Rattle.std.specs.Prelude.{◌≡◌, ◌≤◌, ◌∷◌, [], length, map, IfOk};
ghost use Rattle.rc_base.specs.Limits.{most_in_bench};
ghost use Rattle.rc_play_spec.specs.Plan.{random, rollout};
ghost use Rattle.rc_play_spec.specs.Limits.{IsWithinLimits};
ghost use Rattle.rc_play_spec.specs.PlanStands.{counted_from};
ghost use Rattle.rc_rules.specs.Plan.{deal_seen, plan_seen, strategy_seen};
ghost use Rattle.rc_trick.specs.Bench.{bench_plan};

use rc_deck::Memory;
use rc_rules::{Deal, Plan, Strategy};
use std::alloc::{AllocError, Global};

/// The plan of `bench number`, with 1 to 1,000: so many matches, by seats that pick by chance and seats that roll out.
///
/// # Errors
///
/// No memory is left.
pub fn bench_plan(alloc: Global, number: u16) -> Result<Plan, Memory>
    requires some { 1 ≤ number }
    requires few { number ≤ most_in_bench }
    ensures plan { IfOk result (λ plan. plan_seen plan ≡ bench_plan number) }
    ensures within { IfOk result (λ plan. IsWithinLimits (plan_seen plan)) }
    ensures seats { IfOk result (λ plan. length (plan_seen plan).strategies ≡ 4) }
{
    let matches = match deals(alloc, number) {
        Ok(matches) => matches,
        Err(_) => return Err(Memory),
    };
    match strategies(alloc) {
        Ok(strategies) => Ok(Plan {
            strategies,
            matches,
            turns: 64,
        }),
        Err(_) => Err(Memory),
    }
}

/// The strategies of the four seats.
fn strategies(alloc: Global) -> Result<Vec<Strategy>, AllocError>
    ensures { IfOk result (λ all. map strategy_seen all.items ≡ random 1 ∷ rollout 4 2 ∷ random 3 ∷ rollout 4 4 ∷ []) }
{
    let mut all = Vec::new(alloc);
    all.push(Strategy::Random { key: 1 })?;
    all.push(Strategy::Rollout { rounds: 4, key: 2 })?;
    all.push(Strategy::Random { key: 3 })?;
    all.push(Strategy::Rollout { rounds: 4, key: 4 })?;
    Ok(all)
}

/// So many matches, from this deal and the seats' seed 1,000 on.
fn deals(alloc: Global, number: u16) -> Result<Vec<Deal>, AllocError>
    ensures { IfOk result (λ all. map deal_seen all.items
        ≡ counted_from (record { deal = number; seats = 1000 }) number) }
{
    let mut all = Vec::new(alloc);
    for m in 0..number {
        all.push(Deal {
            deal: u64::from(number) + u64::from(m),
            seats: 1000 + u64::from(m),
        })?;
    }
    Ok(all)
}
