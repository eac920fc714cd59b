//! Which strategy leads after so many matches, and how often that changes; and which are best in a match.
ghost use Rattle.std.specs.Prelude.{◌≡◌, ◌≤◌, ◌<◌, ◌+◌, ℕ, length, map, count_by, sum_by, slice_index, All, IfOk};
ghost use Rattle.rc_base.specs.Limits.{most_matches};
ghost use Rattle.rc_play_spec.specs.House as house;
ghost use Rattle.rc_rules.specs.Plan.{plan_seen};
ghost use Rattle.rc_rules.specs.Record.{record_seen};
ghost use Rattle.rc_measure.specs.Leads as leads;

use rc_deck::Memory;
use rc_rules::{MatchRecord, Plan};
use rc_text::{ahead, points_in, points_of};
use std::alloc::Global;

/// How often another strategy leads after one match more.
pub fn leads_in(alloc: Global, plan: &Plan, matches: &[MatchRecord]) -> Result<u64, Memory>
    requires strategies { length plan.now.strategies.items ≤ 8 }
    requires matches { length matches.now ≤ most_matches }
    requires each { All (λ r. length r.scores.items ≡ length plan.now.strategies.items) matches.now }
    ensures leads { IfOk result (λ n. n ≡ leads.leads_in (plan_seen plan.now) (map record_seen matches.now)) }
    ensures few { IfOk result (λ n. n ≤ most_matches) }
{
    let mut points = points_of(alloc, plan, &matches[..0])?;
    let mut changes = 0;
    let mut last = 0;
    for (i, played) in matches.iter().enumerate() {
        points = next_points(alloc, &points, plan, played)?;
        let next = leader(&points);
        if 0 < i && next != last {
            changes += 1;
        }
        last = next;
    }
    Ok(changes)
}

// Each strategy's points after one match more.
fn next_points(
    alloc: Global,
    points: &[u32],
    plan: &Plan,
    played: &MatchRecord,
) -> Result<Vec<u32>, Memory>
    requires strategies { length plan.now.strategies.items ≤ 8 }
    requires each { length played.now.scores.items ≡ length plan.now.strategies.items }
    requires all { length points.now ≡ length plan.now.strategies.items }
    requires small { (k : ℕ) → slice_index points.now k ≤ 8353800 }
    ensures points { IfOk result (λ next. (k : ℕ) → k < length plan.now.strategies.items → slice_index next.items k
        ≡ slice_index points.now k + house.points_in (plan_seen plan.now) k (record_seen played.now)) }
    ensures len { IfOk result (λ next. length next.items ≡ length plan.now.strategies.items) }
    ensures small { IfOk result (λ next. (most : ℕ) → ((k : ℕ) → slice_index points.now k ≤ most)
        → (k : ℕ) → slice_index next.items k ≤ most + 2040) }
{
    let mut next = Vec::new(alloc);
    for (k, before) in points.iter().enumerate() {
        next.push(*before + points_in(plan, played, k))?;
    }
    Ok(next)
}

// The first strategy that none is ahead of.
fn leader(points: &[u32]) -> usize
    requires few { length points.now ≤ 8 }
    ensures { result ≡ leads.leader points.now }
{
    for (k, most) in points.iter().enumerate() {
        if ahead(points, *most) == 0 {
            return k;
        }
    }
    points.len()
}

/// In how many matches no strategy has more points than this one.
pub fn best_in(plan: &Plan, matches: &[MatchRecord], strategy: usize) -> u64
    requires strategies { length plan.now.strategies.items ≤ 8 }
    requires each { All (λ r. length r.scores.items ≡ length plan.now.strategies.items) matches.now }
    ensures count { result ≡ count_by (leads.is_best_in (plan_seen plan.now) strategy) (map record_seen matches.now) }
    ensures few { result ≤ length matches.now }
{
    let mut count = 0;
    for played in matches {
        if is_best_in(plan, played, strategy) {
            count += 1;
        }
    }
    count
}

// Whether no strategy has more points in a match.
fn is_best_in(plan: &Plan, played: &MatchRecord, strategy: usize) -> bool
    requires strategies { length plan.now.strategies.items ≤ 8 }
    requires each { length played.now.scores.items ≡ length plan.now.strategies.items }
    ensures { result ≡ leads.is_best_in (plan_seen plan.now) strategy (record_seen played.now) }
{
    let most = points_in(plan, played, strategy);
    for other in 0..plan.strategies.len() {
        if points_in(plan, played, other) > most {
            return false;
        }
    }
    true
}
