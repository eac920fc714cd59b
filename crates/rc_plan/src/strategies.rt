//! The strategies of the seats.
ghost use Rattle.std.specs.Prelude.{◌∷◌, [], map};
ghost use Rattle.rc_form.specs.Form.{tree_of, trees_of, packed};
ghost use Rattle.rc_play_spec.specs.Faults as place;
ghost use Rattle.rc_play_spec.specs.PlanStands.{InTurn};
ghost use Rattle.rc_rules.specs.Plan.{strategy_seen};
ghost use Rattle.rc_plan.specs.Reads.{Reads, IsNumberBetween, IsStrategy, AreSeats, IsKey, IsRollout};

use crate::fail::PlanFail;
use crate::forms::{parts_behind, read_any, read_number, start_of};
use rc_base::limits::MOST_ROUNDS;
use rc_form::Form;
use rc_rules::Strategy;
use std::alloc::Global;

/// The strategies of `(seats STRATEGY ..)`.
pub fn read_seats(alloc: Global, form: &Form) -> Result<Vec<Strategy>, PlanFail>
    ensures { Reads result (λ strategies. AreSeats (map strategy_seen strategies.items) (tree_of form.now))
        (place.seats (tree_of form.now)) }
{
    let Some(parts) = parts_behind(form, b"seats") else {
        return Err(PlanFail::shape(start_of(form)));
    };
    if parts.is_empty() {
        return Err(PlanFail::shape(start_of(form)));
    }
    read_strategies(alloc, parts)
}

fn read_strategies(alloc: Global, parts: &[Form]) -> Result<Vec<Strategy>, PlanFail>
    ensures { Reads result (λ strategies. InTurn IsStrategy (map strategy_seen strategies.items)
        (packed (trees_of parts.now)))
        (place.each place.strategy (packed (trees_of parts.now))) }
{
    let mut strategies = Vec::new(alloc);
    for part in parts {
        let strategy = read_strategy(alloc, part)?;
        if strategies.push(strategy).is_err() {
            return Err(PlanFail::Memory);
        }
    }
    Ok(strategies)
}

/// `(script n ..)`, `(random k)` or `(rollout R k)`.
fn read_strategy(alloc: Global, form: &Form) -> Result<Strategy, PlanFail>
    ensures { Reads result (λ strategy. IsStrategy (strategy_seen strategy) (tree_of form.now))
        (place.strategy (tree_of form.now)) }
{
    if let Some(parts) = parts_behind(form, b"script") {
        let numbers = read_script(alloc, parts)?;
        return Ok(Strategy::Script(numbers));
    }
    if let Some(parts) = parts_behind(form, b"random") {
        let key = read_key(parts, start_of(form))?;
        return Ok(Strategy::Random { key });
    }
    if let Some(parts) = parts_behind(form, b"rollout") {
        let (rounds, key) = read_rollout(parts, start_of(form))?;
        return Ok(Strategy::Rollout { rounds, key });
    }
    Err(PlanFail::shape(start_of(form)))
}

/// The numbers of a script.
fn read_script(alloc: Global, parts: &[Form]) -> Result<Vec<u16>, PlanFail>
    ensures { Reads result (λ numbers. InTurn (IsNumberBetween 0 65535) numbers.items (packed (trees_of parts.now)))
        (place.each place.script_number (packed (trees_of parts.now))) }
{
    let mut numbers = Vec::new(alloc);
    for part in parts {
        let number = read_number(part, 0, u64::from(u16::MAX))?;
        if numbers.push(number as u16).is_err() {
            return Err(PlanFail::Memory);
        }
    }
    Ok(numbers)
}

/// The one part of a list that begins here, as a number.
pub fn read_key(parts: &[Form], from: u32) -> Result<u64, PlanFail>
    ensures { Reads result (λ key. IsKey key (packed (trees_of parts.now)))
        (place.row (place.any_number ∷ []) from (packed (trees_of parts.now))) }
{
    let [key] = parts else {
        return Err(PlanFail::shape(from));
    };
    read_any(key)
}

/// The number of rounds and the key of a rollout.
fn read_rollout(parts: &[Form], from: u32) -> Result<(u16, u64), PlanFail>
    ensures { Reads result (λ said. IsRollout said.0 said.1 (packed (trees_of parts.now)))
        (place.row (place.rounds ∷ place.any_number ∷ []) from (packed (trees_of parts.now))) }
{
    let [rounds, key] = parts else {
        return Err(PlanFail::shape(from));
    };
    let rounds = read_number(rounds, 1, MOST_ROUNDS)?;
    let key = read_any(key)?;
    Ok((rounds as u16, key))
}
