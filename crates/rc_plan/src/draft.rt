//! What the parts of a plan say, and whether they say it together.
ghost use Rattle.std.specs.Prelude.{◌≡◌, ◌≤◌, [], IfOk, map, true};
ghost use Rattle.rc_play_spec.specs.PlanStands.{counted_from};
ghost use Rattle.rc_form.specs.Form.{tree_of};
ghost use Rattle.rc_base.specs.Limits.{most_turns};
ghost use Rattle.rc_play_spec.specs.Faults as place;
ghost use Rattle.rc_play_spec.specs.PlanFault.{first};
ghost use Rattle.rc_rules.specs.Plan.{plan_seen, deal_seen};
ghost use Rattle.rc_plan.specs.Reads.{Reads};
ghost use Rattle.rc_plan.specs.Draft.{IsDraft, IsLimit, deals_said, count_faults, are_few, draft_faults, plan_drafted};

use crate::fail::PlanFail;
use crate::forms::{parts_behind, read_any, start_of};
use crate::matches::{Matches, read_matches};
use crate::strategies::read_seats;
use rc_base::limits::{LARGEST_SEED, MOST_MATCHES, MOST_TURNS, MOST_TURNS_IN_ALL};
use rc_deck::Memory;
use rc_form::Form;
use rc_play_spec::{PlanFault, PlanKind};
use rc_rules::{Deal, Plan, Strategy};
use std::alloc::Global;

/// What the parts of a plan say, with the offsets of the plan, its seats and its turn limit.
#[derive(Drop)]
pub struct Draft {
    strategies: Vec<Strategy>,
    matches: Matches,
    turns: u64,
    at: u32,
    seats_at: u32,
    turns_at: u32,
}

/// What the parts of a form say that is to be a plan.
pub fn read_draft(alloc: Global, form: &Form) -> Result<Draft, PlanFail>
    ensures { Reads result (λ draft. IsDraft draft (tree_of form.now)) (place.first_round (tree_of form.now)) }
{
    let Some(parts) = parts_behind(form, b"plan") else {
        return Err(PlanFail::shape(start_of(form)));
    };
    let [seats, matches, turns] = parts else {
        return Err(PlanFail::shape(start_of(form)));
    };
    let strategies = read_seats(alloc, seats)?;
    let matches = read_matches(alloc, matches)?;
    let (turns, turns_at) = read_turns(turns)?;
    Ok(Draft {
        strategies,
        matches,
        turns,
        at: start_of(form),
        seats_at: start_of(seats),
        turns_at,
    })
}

/// The turn limit of `(turns T)`, and its offset.
fn read_turns(form: &Form) -> Result<(u64, u32), PlanFail>
    ensures { Reads result (λ said. IsLimit said.0 said.1 (tree_of form.now)) (place.turns (tree_of form.now)) }
{
    let Some(parts) = parts_behind(form, b"turns") else {
        return Err(PlanFail::shape(start_of(form)));
    };
    let [limit] = parts else {
        return Err(PlanFail::shape(start_of(form)));
    };
    let turns = read_any(limit)?;
    Ok((turns, start_of(limit)))
}

impl Draft {
    /// The first fault of what the parts say together, for so many players.
    pub fn fault(&self, players: u8) -> Option<PlanFault>
        ensures { result ≡ first (draft_faults players self.now) }
    {
        if self.strategies.len() != usize::from(players) {
            return Some(PlanFault {
                kind: PlanKind::Seats,
                at: self.seats_at,
            });
        }
        if let Some(fault) = self.matches.fault() {
            return Some(fault);
        }
        if self.turns < 1 || self.turns > MOST_TURNS {
            return Some(PlanFault {
                kind: PlanKind::Turns,
                at: self.turns_at,
            });
        }
        if !self.matches.are_few(self.turns) {
            return Some(PlanFault {
                kind: PlanKind::TooLarge,
                at: self.at,
            });
        }
        None
    }

    /// The plan.
    pub fn plan(self, alloc: Global) -> Result<Plan, Memory>
        requires counted { count_faults self.matches ≡ [] }
        requires limit { self.turns ≤ most_turns }
        ensures { IfOk result (λ plan. plan_seen plan ≡ plan_drafted self) }
    {
        let matches = self.matches.deals(alloc)?;
        Ok(Plan {
            strategies: self.strategies,
            matches,
            turns: self.turns as u32,
        })
    }
}

impl Matches {
    /// The fault of a count of matches.
    fn fault(&self) -> Option<PlanFault>
        ensures { result ≡ first (count_faults self.now) }
    {
        match self {
            Matches::From { first, count, at } if !is_countable(first, *count) => Some(PlanFault {
                kind: PlanKind::Matches,
                at: *at,
            }),
            _ => None,
        }
    }

    /// Whether there aren't too many, of so many turns each.
    fn are_few(&self, turns: u64) -> bool
        requires some { 1 ≤ turns }
        requires most { turns ≤ most_turns }
        ensures { result ≡ are_few self.now turns }
    {
        match self {
            Matches::Listed(deals) => {
                let listed = deals.len() as u64;
                listed <= MOST_MATCHES && listed * turns <= MOST_TURNS_IN_ALL
            }
            Matches::From { count, .. } => {
                *count <= MOST_TURNS_IN_ALL && *count * turns <= MOST_TURNS_IN_ALL
            }
        }
    }

    /// Each match.
    fn deals(self, alloc: Global) -> Result<Vec<Deal>, Memory>
        requires { count_faults self ≡ [] }
        ensures { IfOk result (λ deals. map deal_seen deals.items ≡ deals_said self) }
    {
        match self {
            Matches::Listed(deals) => Ok(deals),
            Matches::From { first, count, .. } => count_from(alloc, first, count),
        }
    }
}

/// Whether so many matches can be counted from this one on.
fn is_countable(first: &Deal, count: u64) -> bool
    ensures { result ≡ place.is_countable first.now.deal first.now.seats count }
{
    1 <= count
        && count <= MOST_MATCHES
        && first.deal.saturating_add(count - 1) <= LARGEST_SEED
        && first.seats.saturating_add(count - 1) <= LARGEST_SEED
}

/// So many matches from this one on.
fn count_from(alloc: Global, first: Deal, count: u64) -> Result<Vec<Deal>, Memory>
    requires { place.is_countable first.deal first.seats count ≡ true }
    ensures { IfOk result (λ deals. map deal_seen deals.items ≡ counted_from (deal_seen first) count) }
{
    let mut deals = Vec::new(alloc);
    for m in 0..count {
        let deal = Deal {
            deal: first.deal + m,
            seats: first.seats + m,
        };
        if deals.push(deal).is_err() {
            return Err(Memory);
        }
    }
    Ok(deals)
}
