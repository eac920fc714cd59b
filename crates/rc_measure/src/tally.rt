//! Choices, counted by their sites, their seats or the strategies that made them.
ghost use Rattle.std.specs.Prelude.{◌≡◌, ◌≤◌, ◌<◌, ◌+◌, ◌-◌, ℕ, length, map, slice_index_or, All};
ghost use Rattle.rc_base.specs.Limits.{most_matches};
ghost use Rattle.rc_play_spec.specs.Plan as plans;
ghost use Rattle.rc_rules.specs.Plan.{plan_seen};
ghost use Rattle.rc_rules.specs.Record.{pick_seen, record_seen};
ghost use Rattle.rc_measure.specs.Tally.{tally_where};
ghost use Rattle.rc_measure.specs.Groups as groups;
ghost use Rattle.rc_measure.specs.Groups.{HasAtMost, most_choices, most_picks};
ghost use Rattle.rc_measure.specs.Seen.{tally_seen};

use rc_base::limits::MOST_SITES;
use rc_rules::{MatchRecord, Pick, Plan};

/// How many choices, how many of these with a menu of one item, and how many items in all menus.
#[derive(Clone, Copy)]
pub struct Tally {
    pub choices: u64,
    pub forced: u64,
    pub menu: u64,
}

/// What the number of a choice's group is: its site, its seat, or the strategy that the seat had in the match. By
/// nothing, all choices are in group 0.
#[derive(Clone, Copy)]
pub enum GroupBy {
    Nothing,
    Site,
    Seat,
    Strategy,
}

/// How many groups are counted: as many as there may be sites, and more than there are seats.
pub const GROUPS: usize = MOST_SITES as usize;

/// The tally of each group over all matches, in one pass over the choices. Choices of further groups aren't counted.
pub fn tallies_by(plan: &Plan, matches: &[MatchRecord], by: GroupBy) -> [Tally; GROUPS]
    requires strategies { length plan.now.strategies.items ≤ 8 }
    requires matches { length matches.now ≤ most_matches }
    requires few { All (λ r. length r.picks.items ≤ most_picks) matches.now }
    ensures tallies { (group : ℕ) (other : Tally) → group < 64 → tally_seen (slice_index_or result group other)
        ≡ tally_where (groups.in_group (plan_seen plan.now) by group) (map record_seen matches.now) }
    ensures small { All (HasAtMost most_choices) result }
{
    let mut tallies = [Tally {
        choices: 0,
        forced: 0,
        menu: 0,
    }; GROUPS];
    for played in matches {
        count_match(&mut tallies, plan, played, by);
    }
    tallies
}

// Counts the choices of one match.
fn count_match(tallies: &mut [Tally; GROUPS], plan: &Plan, played: &MatchRecord, by: GroupBy)
    requires strategies { length plan.now.strategies.items ≤ 8 }
    requires few { length played.now.picks.items ≤ most_picks }
    requires small { All (HasAtMost (most_choices - most_picks)) tallies.old }
    ensures tallies { tallies.new
        ≡ groups.counted (plan_seen plan.now) by played.now.number played.now.picks.items tallies.old }
    ensures small { (n : ℕ) → All (HasAtMost n) tallies.old
        → All (HasAtMost (n + length played.now.picks.items)) tallies.new }
{
    for pick in &played.picks {
        count(tallies, group_of(plan, played.number, *pick, by), *pick);
    }
}

// One choice more in its group.
fn count(tallies: &mut [Tally; GROUPS], group: usize, pick: Pick)
    requires small { All (HasAtMost (most_choices - 1)) tallies.old }
    ensures tallies { tallies.new ≡ groups.with_pick_in tallies.old group pick }
    ensures small { (n : ℕ) → All (HasAtMost n) tallies.old → All (HasAtMost (n + 1)) tallies.new }
{
    if group < GROUPS {
        tallies[group] = with_pick(tallies[group], pick);
    }
}

// One choice more.
fn with_pick(tally: Tally, pick: Pick) -> Tally
    requires small { HasAtMost (most_choices - 1) tally }
    ensures { result ≡ groups.with_pick tally pick }
{
    Tally {
        choices: tally.choices + 1,
        forced: tally.forced + u64::from(pick.size == 1),
        menu: tally.menu + u64::from(pick.size),
    }
}

// The group of a choice.
fn group_of(plan: &Plan, number: u32, pick: Pick, by: GroupBy) -> usize
    requires strategies { length plan.now.strategies.items ≤ 8 }
    ensures { result ≡ groups.group_of (plan_seen plan.now) by number (pick_seen pick) }
{
    match by {
        GroupBy::Nothing => 0,
        GroupBy::Site => usize::from(pick.site),
        GroupBy::Seat => usize::from(pick.seat),
        GroupBy::Strategy => strategy_held(plan, number, pick.seat),
    }
}

// The strategy that a seat has in a match.
fn strategy_held(plan: &Plan, number: u32, seat: u8) -> usize
    requires strategies { length plan.now.strategies.items ≤ 8 }
    ensures { result ≡ plans.strategy_held (plan_seen plan.now) number seat }
{
    let place = usize::from(seat) + number as usize;
    let count = plan.strategies.len();
    if count == 0 { place } else { place % count }
}
