//! The matches of a plan.
ghost use Rattle.std.specs.Prelude.{◌≡◌, ◌≤◌, ◌∷◌, [], map, length, true, false, Some};
ghost use Rattle.rc_play_spec.specs.PlanFault.{first};
ghost use Rattle.rc_base.specs.Tree.{cons, nil};
ghost use Rattle.rc_form.specs.Form.{tree_of, trees_of, packed};
ghost use Rattle.rc_play_spec.specs.Faults as place;
ghost use Rattle.rc_play_spec.specs.PlanStands.{InTurn};
ghost use Rattle.rc_rules.specs.Plan.{deal_seen};
ghost use Rattle.rc_plan.specs.Reads.{Reads, IfPlanFault, IsDeal, IsPair, IsCount};
ghost use Rattle.rc_plan.specs.Matches.{IsMatch, AreMatchParts, AreMatches};

use crate::fail::PlanFail;
use crate::forms::{parts_behind, read_any, start_of};
use rc_form::Form;
use rc_rules::Deal;
use std::alloc::Global;

/// What a plan says of its matches.
#[derive(Drop)]
pub enum Matches {
    /// Each match.
    Listed(Vec<Deal>),
    /// So many matches from this one on, by the list at this offset.
    From { first: Deal, count: u64, at: u32 },
}

/// What a list among the matches says.
#[derive(Drop)]
pub enum Match {
    One(Deal),
    From { first: Deal, count: u64 },
}

/// What `(matches M)` says.
pub fn read_matches(alloc: Global, form: &Form) -> Result<Matches, PlanFail>
    ensures { Reads result (λ matches. AreMatches matches (tree_of form.now)) (place.matches (tree_of form.now)) }
{
    let Some(parts) = parts_behind(form, b"matches") else {
        return Err(PlanFail::shape(start_of(form)));
    };
    match parts {
        [] => Err(PlanFail::shape(start_of(form))),
        [only] => read_only(alloc, only),
        _ => read_several(alloc, parts),
    }
}

/// The only part.
fn read_only(alloc: Global, only: &Form) -> Result<Matches, PlanFail>
    ensures { Reads result (λ matches. AreMatchParts matches (cons (tree_of only.now) nil))
        (place.match true (tree_of only.now)) }
{
    match read_match(true, only)? {
        Match::One(deal) => {
            let mut deals = Vec::new(alloc);
            if deals.push(deal).is_err() {
                return Err(PlanFail::Memory);
            }
            Ok(Matches::Listed(deals))
        }
        Match::From { first, count } => Ok(Matches::From {
            first,
            count,
            at: start_of(only),
        }),
    }
}

/// Two parts or more.
fn read_several(alloc: Global, parts: &[Form]) -> Result<Matches, PlanFail>
    requires { 2 ≤ length parts.now }
    ensures { Reads result (λ matches. AreMatchParts matches (packed (trees_of parts.now)))
        (place.match_list 0 (packed (trees_of parts.now))) }
{
    // Where at most one of them is a list, another is an atom.
    if lists_among(parts) <= 1 {
        return Err(fault_among(parts));
    }
    let deals = read_deals(alloc, parts)?;
    Ok(Matches::Listed(deals))
}

/// How many of the parts are lists.
fn lists_among(parts: &[Form]) -> usize
    ensures { result ≡ place.lists_among (packed (trees_of parts.now)) }
{
    let mut lists = 0;
    for part in parts {
        if let Form::List { .. } = part {
            lists += 1;
        }
    }
    lists
}

/// The first fault of several parts of which at most one is a list.
fn fault_among(parts: &[Form]) -> PlanFail
    requires several { 2 ≤ length parts.now }
    requires lists { place.lists_among (packed (trees_of parts.now)) ≤ 1 }
    ensures { IfPlanFault result (λ fault. first (place.each (place.match true) (packed (trees_of parts.now)))
        ≡ Some fault) }
{
    for part in parts {
        if let Err(fail) = read_match(true, part) {
            return fail;
        }
    }
    unreachable!()
}

/// Each part as a match.
fn read_deals(alloc: Global, parts: &[Form]) -> Result<Vec<Deal>, PlanFail>
    ensures { Reads result (λ deals. InTurn IsDeal (map deal_seen deals.items) (packed (trees_of parts.now)))
        (place.each (place.match false) (packed (trees_of parts.now))) }
{
    let mut deals = Vec::new(alloc);
    for part in parts {
        match read_match(false, part)? {
            Match::One(deal) => {
                if deals.push(deal).is_err() {
                    return Err(PlanFail::Memory);
                }
            }
            Match::From { .. } => unreachable!(),
        }
    }
    Ok(deals)
}

/// `(deal seat)`, or where it stands alone among lists `(from deal seat count)`.
fn read_match(alone: bool, form: &Form) -> Result<Match, PlanFail>
    ensures { Reads result (λ said. IsMatch alone said (tree_of form.now)) (place.match alone (tree_of form.now)) }
{
    if let Some(parts) = parts_behind(form, b"from") {
        if !alone {
            return Err(PlanFail::shape(start_of(form)));
        }
        let (first, count) = read_count(parts, start_of(form))?;
        return Ok(Match::From { first, count });
    }
    match form {
        Form::Atom { span, .. } => Err(PlanFail::shape(span.from)),
        Form::List { items, span } => {
            let deal = read_deal(items.as_slice(), span.from)?;
            Ok(Match::One(deal))
        }
    }
}

/// The two numbers of a match.
fn read_deal(parts: &[Form], from: u32) -> Result<Deal, PlanFail>
    ensures { Reads result (λ deal. IsPair (deal_seen deal) (packed (trees_of parts.now)))
        (place.row (place.any_number ∷ place.any_number ∷ []) from (packed (trees_of parts.now))) }
{
    let [deal, seats] = parts else {
        return Err(PlanFail::shape(from));
    };
    let deal = read_any(deal)?;
    let seats = read_any(seats)?;
    Ok(Deal { deal, seats })
}

/// The first match behind `from`, and how many there are.
fn read_count(parts: &[Form], from: u32) -> Result<(Deal, u64), PlanFail>
    ensures { Reads result (λ said. IsCount (deal_seen said.0) said.1 (packed (trees_of parts.now)))
        (place.row (place.any_number ∷ place.any_number ∷ place.any_number ∷ []) from (packed (trees_of parts.now))) }
{
    let [deal, seats, count] = parts else {
        return Err(PlanFail::shape(from));
    };
    let deal = read_any(deal)?;
    let seats = read_any(seats)?;
    let count = read_any(count)?;
    Ok((Deal { deal, seats }, count))
}
