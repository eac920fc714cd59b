//! Matches by several workers, who claim them.
ghost use Rattle.std.specs.Prelude.{◌≡◌, ◌≤◌, ◌<◌, ℕ, length, map, slice_index_or, All, IfOk, []};
ghost use Rattle.std.specs.List.Sorted.{IsPermutation, IsNonDecreasingBy};
ghost use Rattle.rc_base.specs.Limits.{most_matches, most_workers};
ghost use Rattle.rc_rules.specs.Plan.{plan_seen, IsPlanFor};
ghost use Rattle.rc_code.specs.Seen.{code_seen};
ghost use Rattle.rc_code.specs.Stands.{StandsFor};
ghost use Rattle.rc_series.specs.Series.{IsNotedAs, looks_of, matches_of, played_seen};
ghost use Rattle.rc_series.specs.Turns.{IsTurn, number_of};
ghost use Rattle.rc_series.specs.declared.turn.Worker.{Worker};
ghost use Rattle.rc_series.specs.Gathered.{RiseTogether};

use crate::gathering::{Gathered, gather};
use crate::turn::{Turn, Worker, take_turn};
use rc_claims::{Claims, Pass};
use rc_code::Code;
use rc_deck::Memory;
use rc_match::Played;
use rc_outside::Gate;
use rc_redraw::Chooser;
use rc_rules::{About, Plan};
use std::alloc::Global;
use std::sync::Arc;
use std::thread;
use std::thread::Threads;

/// Plays every match of a plan on code that stands for the sheet, with one worker for each chooser; where a thread
/// can't be made, its work is done all the same. The records are those of the matches, in order, with what their
/// choices bind, where that is to be noted. The choosers come back in their order, each by its name, and their counts
/// rise together by what the matches ask: each decision that asks for totals is one look, and each look hits, or is
/// followed by a keep.
pub fn play_claimed<C: Chooser + Send + Drop, R: Threads + Sync, G: Gate>(
    rt: &R,
    alloc: Global,
    about: &Arc<About>,
    plan: &Arc<Plan>,
    code: &Arc<Code>,
    noted: bool,
    choosers: Vec<C>,
    gate: &G,
) -> Result<(Vec<Played>, Vec<C>), Memory>
    requires matches { (1 ≤ length plan.now.value.matches.items)
        × (length plan.now.value.matches.items ≤ most_matches) }
    requires seats { IsPlanFor about.now.value plan.now.value }
    requires choosers { (1 ≤ length choosers.items) × (length choosers.items ≤ most_workers) }
    requires served { All (λ chooser. C.serves chooser about.now.value) choosers.items }
    requires code { StandsFor about.now.value.sheet (code_seen code.now.value) }

    // The records are those that the definitions give for the plan's matches, in order.
    ensures records { IfOk result (λ r. map played_seen r.0.items
        ≡ matches_of about.now.value (plan_seen plan.now.value)) }
    ensures count { IfOk result (λ r. length r.0.items ≡ length plan.now.value.matches.items) }
    ensures each { IfOk result (λ r. All
        (λ p. length p.record.scores.items ≡ about.now.value.sheet.players) r.0.items) }

    // What choices bind is noted as the definitions tell it, or nothing is, where that isn't asked for.
    ensures noted { IfOk result (λ r. All (IsNotedAs noted about.now.value (plan_seen plan.now.value)) r.0.items) }

    // Together the choosers make a look for each rollout decision of these matches, and each look hits, or is followed
    // by a keep.
    ensures rise { IfOk result (λ r. RiseTogether (length (looks_of about.now.value (plan_seen plan.now.value)))
        (map C.counts choosers.items) (map C.counts r.1.items)) }

    // The choosers come back in their order.
    ensures order { IfOk result (λ r. map C.name r.1.items ≡ map C.name choosers.items) }
{
    let count = plan.matches.len() as u32;
    let (claims, passes) = match Claims::new(alloc, count, choosers.len() as u8) {
        Ok(made) => made,
        Err(_) => return Err(Memory),
    };
    let workers = match workers_of(alloc, passes, choosers) {
        Ok(workers) => workers,
        Err(Memory) => return Err(Memory),
    };
    let turns = match turns_of(rt, alloc, about, plan, code, noted, &claims, workers, gate) {
        Ok(turns) => turns,
        Err(Memory) => return Err(Memory),
    };
    let Gathered {
        pass,
        records,
        choosers,
    } = match gather(alloc, &claims, turns) {
        Ok(gathered) => gathered,
        Err(Memory) => return Err(Memory),
    };
    // the passes together show that each match was claimed once
    let _drawn = claims.close(pass);
    Ok((in_order(records), choosers))
}

// The records in the order of their matches.
fn in_order(records: Vec<Played>) -> Vec<Played>
    ensures same { IsPermutation records.items result.items }
    ensures up { IsNonDecreasingBy number_of result.items }
{
    let mut records = records;
    records.sort_unstable_by_key(|played| played.record.number);
    records
}

// A worker for each chooser.
fn workers_of<C: Chooser + Drop>(
    alloc: Global,
    passes: Vec<Pass>,
    choosers: Vec<C>,
) -> Result<Vec<Worker<C>>, Memory>
    requires each { length passes.items ≡ length choosers.items }
    ensures passes { IfOk result (λ workers. map (λ w. w.pass) workers.items ≡ passes.items) }
    ensures choosers { IfOk result (λ workers. map (λ w. w.chooser) workers.items ≡ choosers.items) }
{
    let mut workers = Vec::new(alloc);
    let mut passes = passes;
    let mut choosers = choosers;
    while !choosers.is_empty() {
        let worker = Worker {
            pass: passes.remove(0),
            chooser: choosers.remove(0),
        };
        match workers.push(worker) {
            Ok(()) => {}
            Err(_) => return Err(Memory),
        }
    }
    Ok(workers)
}

// The turns of all workers, each in a thread of its own where one can be made.
fn turns_of<C: Chooser + Send + Drop, R: Threads + Sync, G: Gate>(
    rt: &R,
    alloc: Global,
    about: &Arc<About>,
    plan: &Arc<Plan>,
    code: &Arc<Code>,
    noted: bool,
    claims: &Claims,
    workers: Vec<Worker<C>>,
    gate: &G,
) -> Result<Vec<Result<Turn<C>, Memory>>, Memory>
    requires count { claims.now.count ≡ length plan.now.value.matches.items }
    requires seats { IsPlanFor about.now.value plan.now.value }
    requires own { All (λ w. (w.pass.table ≡ claims.now.table) × (w.pass.numbers ≡ [])) workers.items }
    requires served { All (λ w. C.serves w.chooser about.now.value) workers.items }
    requires code { StandsFor about.now.value.sheet (code_seen code.now.value) }
    ensures each { IfOk result (λ turns. (i : ℕ) (worker : Worker C) (lack : _) → i < length workers.items
        → IfOk (slice_index_or turns.items i lack)
        (IsTurn C.name C.counts noted about.now.value (plan_seen plan.now.value)
        (slice_index_or workers.items i worker))) }
    ensures all { IfOk result (λ turns. length turns.items ≡ length workers.items) }
{
    match thread::map_vec(
        rt,
        workers,
        &|worker: Worker<C>| -> Result<Turn<C>, Memory>
            requires count { claims.now.count ≡ length plan.now.value.matches.items }
            requires seats { IsPlanFor about.now.value plan.now.value }
            requires own { (worker.pass.table ≡ claims.now.table) × (worker.pass.numbers ≡ []) }
            requires served { C.serves worker.chooser about.now.value }
            requires code { StandsFor about.now.value.sheet (code_seen code.now.value) }
            ensures { IfOk result (IsTurn C.name C.counts noted about.entry.now.value
                (plan_seen plan.entry.now.value) worker) }
        { take_turn(alloc, about, plan, code, noted, claims, gate, worker) },
    ) {
        Ok(turns) => Ok(turns),
        Err(_) => Err(Memory),
    }
}
