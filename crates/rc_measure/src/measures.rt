//! What is measured of the matches of a plan.
ghost use Rattle.std.specs.Prelude.{◌≡◌, ◌≤◌, ◌<◌, ◌^◌, ◌*◌, length, map, count_by, All, IfOk, OnOk};
ghost use Rattle.std.specs.Prelude.{[], ◌∷◌, ◌++◌, pos};
ghost use Rattle.rc_base.specs.Numbers.{below};
ghost use Rattle.rc_base.specs.Limits.{most_matches};
ghost use Rattle.rc_base.specs.Clamp.{IsWithinClamp};
ghost use Rattle.rc_rules.specs.Plan.{plan_seen};
ghost use Rattle.rc_rules.specs.Record.{record_seen, ending_seen};
ghost use Rattle.rc_measure.specs.Groups.{HasAtMost, most_choices, most_picks};
ghost use Rattle.rc_measure.specs.Scores.{spread_in};
ghost use Rattle.rc_measure.specs.Measures as measured;
ghost use Rattle.rc_measure.specs.Rows.{rows_of_site};
ghost use Rattle.rc_measure.specs.Seen.{measures_seen, tally_seen};
ghost use Rattle.rc_measure.specs.Text.{HasNumbers};

use crate::leads::{best_in, leads_in};
use crate::scores::spread_in;
use crate::tally::{GroupBy, Tally, tallies_by};
use crate::turns::{ascending_turns, turns_in};
use rc_base::limits::MOST_SITES;
use rc_deck::Memory;
use rc_rules::{Ended, MatchRecord, Plan};
use rc_text::{points_at, points_over};
use std::alloc::Global;

/// The measures of the matches of a plan. Each list has the numbers of a line of their text, from left to right, and
/// the last three have a list for each site, seat and strategy.
#[derive(Debug, Drop)]
pub struct Measures {
    /// How many matches, and how many of them ended by the turn limit.
    pub matches: Vec<i64>,
    /// Choices, and turns.
    pub choices: Vec<i64>,
    /// Choices from a menu of one item, and all choices.
    pub forced: Vec<i64>,
    /// Items of all menus, and choices.
    pub menu: Vec<i64>,
    /// The largest score of each match less the smallest, summed, and matches.
    pub spread: Vec<i64>,
    /// How often another strategy leads after one match more, and matches.
    pub leads: Vec<i64>,
    /// The smallest turn count, the middle one and the largest.
    pub turns: Vec<i64>,
    /// A site with a choice: its choices, those from a menu of one item, and the items of its menus.
    pub sites: Vec<Vec<i64>>,
    /// A seat: the same, and its rank points.
    pub seats: Vec<Vec<i64>>,
    /// A strategy: its choices, its rank points, and in how many matches none has more.
    pub strategies: Vec<Vec<i64>>,
}

/// The measures of the matches of a plan, 1 to 4,096 of them. Each has a score within the clamp for each strategy, of
/// which there are at most 8, and no more choices than the longest text has bytes.
///
/// # Errors
///
/// No memory is left.
pub fn measures_of(alloc: Global, plan: &Plan, matches: &[MatchRecord]) -> Result<Measures, Memory>
    requires some { 0 < length matches.now }
    requires matches { length matches.now ≤ most_matches }
    requires strategies { length plan.now.strategies.items ≤ 8 }
    requires scores { All (λ r. length r.scores.items ≡ length plan.now.strategies.items) matches.now }
    requires clamped { All (λ r. All (λ s. IsWithinClamp s.score) r.scores.items) matches.now }
    requires picks { All (λ r. length r.picks.items ≤ most_picks) matches.now }

    // They are those that the definitions give.
    ensures measures { IfOk result (λ m. measures_seen m
        ≡ measured.measures_of (plan_seen plan.now) (map record_seen matches.now)) }
    ensures numbers { IfOk result (λ m. HasNumbers (measures_seen m)) }
{
    let pairs = pairs_of(alloc, plan, matches)?;
    let spread = spread_row(alloc, matches)?;
    let turns = turns_row(alloc, matches)?;
    let tables = tables_of(alloc, plan, matches)?;
    Ok(Measures {
        matches: pairs.matches,
        choices: pairs.choices,
        forced: pairs.forced,
        menu: pairs.menu,
        spread,
        leads: pairs.leads,
        turns,
        sites: tables.sites,
        seats: tables.seats,
        strategies: tables.strategies,
    })
}

// The rows of two counts.
#[derive(Drop)]
struct Pairs {
    matches: Vec<i64>,
    choices: Vec<i64>,
    forced: Vec<i64>,
    menu: Vec<i64>,
    leads: Vec<i64>,
}

fn pairs_of(alloc: Global, plan: &Plan, matches: &[MatchRecord]) -> Result<Pairs, Memory>
    requires matches { length matches.now ≤ most_matches }
    requires strategies { length plan.now.strategies.items ≤ 8 }
    requires scores { All (λ r. length r.scores.items ≡ length plan.now.strategies.items) matches.now }
    requires picks { All (λ r. length r.picks.items ≤ most_picks) matches.now }
    ensures matches { IfOk result (λ pairs. pairs.matches.items
        ≡ (measured.measures_of (plan_seen plan.now) (map record_seen matches.now)).matches) }
    ensures choices { IfOk result (λ pairs. pairs.choices.items
        ≡ (measured.measures_of (plan_seen plan.now) (map record_seen matches.now)).choices) }
    ensures forced { IfOk result (λ pairs. pairs.forced.items
        ≡ (measured.measures_of (plan_seen plan.now) (map record_seen matches.now)).forced) }
    ensures menu { IfOk result (λ pairs. pairs.menu.items
        ≡ (measured.measures_of (plan_seen plan.now) (map record_seen matches.now)).menu) }
    ensures leads { IfOk result (λ pairs. pairs.leads.items
        ≡ (measured.measures_of (plan_seen plan.now) (map record_seen matches.now)).leads) }
{
    let count = matches.len() as u64;
    let all = tallies_by(plan, matches, GroupBy::Nothing)[0];
    let changes = leads_in(alloc, plan, matches)?;
    Ok(Pairs {
        matches: pair(alloc, count, limits_in(matches))?,
        choices: pair(alloc, all.choices, turns_in(matches))?,
        forced: pair(alloc, all.forced, all.choices)?,
        menu: pair(alloc, all.menu, all.choices)?,
        leads: pair(alloc, changes, count)?,
    })
}

// A row for each site with a choice, for each seat and for each strategy.
#[derive(Drop)]
struct Tables {
    sites: Vec<Vec<i64>>,
    seats: Vec<Vec<i64>>,
    strategies: Vec<Vec<i64>>,
}

fn tables_of(alloc: Global, plan: &Plan, matches: &[MatchRecord]) -> Result<Tables, Memory>
    requires matches { length matches.now ≤ most_matches }
    requires strategies { length plan.now.strategies.items ≤ 8 }
    requires scores { All (λ r. length r.scores.items ≡ length plan.now.strategies.items) matches.now }
    requires picks { All (λ r. length r.picks.items ≤ most_picks) matches.now }
    ensures sites { IfOk result (λ tables. map (λ row. row.items) tables.sites.items
        ≡ map (measured.site_row (map record_seen matches.now)) (measured.sites_met (map record_seen matches.now))) }
    ensures seats { IfOk result (λ tables. map (λ row. row.items) tables.seats.items
        ≡ map (measured.seat_row (map record_seen matches.now)) (below (length plan.now.strategies.items))) }
    ensures strategies { IfOk result (λ tables. map (λ row. row.items) tables.strategies.items
        ≡ map (measured.strategy_row (plan_seen plan.now) (map record_seen matches.now))
        (below (length plan.now.strategies.items))) }
{
    let sites = site_rows(alloc, plan, matches)?;
    let seats = seat_rows(alloc, plan, matches)?;
    let strategies = strategy_rows(alloc, plan, matches)?;
    Ok(Tables {
        sites,
        seats,
        strategies,
    })
}

// Two numbers of a line.
fn pair(alloc: Global, a: u64, b: u64) -> Result<Vec<i64>, Memory>
    requires a { a < 2 ^ 63 }
    requires b { b < 2 ^ 63 }
    ensures { IfOk result (λ row. row.items ≡ measured.numbers (a ∷ b ∷ [])) }
{
    Ok(vec![in alloc; a as i64, b as i64]?)
}

// How many matches ended by the turn limit.
fn limits_in(matches: &[MatchRecord]) -> u64
    requires matches { length matches.now ≤ most_matches }
    ensures count { result ≡ count_by measured.is_limited (map record_seen matches.now) }
    ensures few { result ≤ length matches.now }
{
    let mut count = 0;
    for played in matches {
        if is_limit(played.stop) {
            count += 1;
        }
    }
    count
}

// The turn limit ended the match.
fn is_limit(stop: Ended) -> bool
    ensures { result ≡ measured.is_limit (ending_seen stop) }
{
    match stop {
        Ended::Done => false,
        Ended::Limit => true,
    }
}

// How far the scores lie apart, and how many matches there are.
fn spread_row(alloc: Global, matches: &[MatchRecord]) -> Result<Vec<i64>, Memory>
    requires matches { length matches.now ≤ most_matches }
    requires clamped { All (λ r. All (λ s. IsWithinClamp s.score) r.scores.items) matches.now }
    ensures { IfOk result (λ row. row.items
        ≡ spread_in (map record_seen matches.now) ∷ pos (length matches.now) ∷ []) }
{
    let apart = spread_in(matches);
    Ok(vec![in alloc; apart, matches.len() as i64]?)
}

// The smallest turn count, the middle one and the largest.
fn turns_row(alloc: Global, matches: &[MatchRecord]) -> Result<Vec<i64>, Memory>
    requires some { 0 < length matches.now }
    ensures { IfOk result (λ row. row.items ≡ measured.turns_row (map record_seen matches.now)) }
{
    let turns = ascending_turns(alloc, matches)?;
    let count = turns.len();
    let least = i64::from(turns[0]);
    let middle = i64::from(turns[count / 2]);
    let most = i64::from(turns[count - 1]);
    Ok(vec![in alloc; least, middle, most]?)
}

// A row for each site with a choice.
fn site_rows(alloc: Global, plan: &Plan, matches: &[MatchRecord]) -> Result<Vec<Vec<i64>>, Memory>
    requires matches { length matches.now ≤ most_matches }
    requires strategies { length plan.now.strategies.items ≤ 8 }
    requires picks { All (λ r. length r.picks.items ≤ most_picks) matches.now }
    ensures { IfOk result (λ rows. map (λ row. row.items) rows.items
        ≡ map (measured.site_row (map record_seen matches.now)) (measured.sites_met (map record_seen matches.now))) }
{
    let tallies = tallies_by(plan, matches, GroupBy::Site);
    let mut rows = Vec::new(alloc);
    for site in 0..MOST_SITES {
        add_site(alloc, &mut rows, site, tallies[usize::from(site)])?;
    }
    Ok(rows)
}

// Adds the row of a site, if it has a choice.
fn add_site(alloc: Global, rows: &mut Vec<Vec<i64>>, site: u8, tally: Tally) -> Result<(), Memory>
    requires small { HasAtMost most_choices tally }
    ensures { OnOk result (map (λ row. row.items) rows.new.items
        ≡ map (λ row. row.items) rows.old.items ++ rows_of_site site (tally_seen tally)) }
{
    if tally.choices == 0 {
        return Ok(());
    }
    let (choices, forced, menu) = (tally.choices as i64, tally.forced as i64, tally.menu as i64);
    rows.push(vec![in alloc; i64::from(site), choices, forced, menu]?)?;
    Ok(())
}

// A row for each seat.
fn seat_rows(alloc: Global, plan: &Plan, matches: &[MatchRecord]) -> Result<Vec<Vec<i64>>, Memory>
    requires matches { length matches.now ≤ most_matches }
    requires strategies { length plan.now.strategies.items ≤ 8 }
    requires scores { All (λ r. length r.scores.items ≡ length plan.now.strategies.items) matches.now }
    requires picks { All (λ r. length r.picks.items ≤ most_picks) matches.now }
    ensures { IfOk result (λ rows. map (λ row. row.items) rows.items
        ≡ map (measured.seat_row (map record_seen matches.now)) (below (length plan.now.strategies.items))) }
{
    let tallies = tallies_by(plan, matches, GroupBy::Seat);
    let mut rows = Vec::new(alloc);
    for seat in 0..plan.strategies.len() as u8 {
        let points = seat_points(matches, usize::from(seat));
        rows.push(seat_row(alloc, seat, tallies[usize::from(seat)], points)?)?;
    }
    Ok(rows)
}

fn seat_row(alloc: Global, seat: u8, tally: Tally, points: u64) -> Result<Vec<i64>, Memory>
    requires small { HasAtMost most_choices tally }
    requires points { points < 2 ^ 63 }
    ensures { IfOk result (λ row. row.items
        ≡ measured.numbers (seat ∷ tally.choices ∷ tally.forced ∷ tally.menu ∷ points ∷ [])) }
{
    let (choices, forced, menu) = (tally.choices as i64, tally.forced as i64, tally.menu as i64);
    Ok(vec![in alloc; i64::from(seat), choices, forced, menu, points as i64]?)
}

// A seat's rank points over all matches.
fn seat_points(matches: &[MatchRecord], seat: usize) -> u64
    requires matches { length matches.now ≤ most_matches }
    requires seat { All (λ r. seat < length r.scores.items) matches.now }
    ensures points { result ≡ measured.seat_points (map record_seen matches.now) seat }
    ensures small { result ≤ 255 * length matches.now }
{
    let mut points = 0;
    for played in matches {
        points += u64::from(points_at(played, seat));
    }
    points
}

// A row for each strategy.
fn strategy_rows(
    alloc: Global,
    plan: &Plan,
    matches: &[MatchRecord],
) -> Result<Vec<Vec<i64>>, Memory>
    requires matches { length matches.now ≤ most_matches }
    requires strategies { length plan.now.strategies.items ≤ 8 }
    requires scores { All (λ r. length r.scores.items ≡ length plan.now.strategies.items) matches.now }
    requires picks { All (λ r. length r.picks.items ≤ most_picks) matches.now }
    ensures { IfOk result (λ rows. map (λ row. row.items) rows.items
        ≡ map (measured.strategy_row (plan_seen plan.now) (map record_seen matches.now))
        (below (length plan.now.strategies.items))) }
{
    let tallies = tallies_by(plan, matches, GroupBy::Strategy);
    let mut rows = Vec::new(alloc);
    for strategy in 0..plan.strategies.len() as u8 {
        let choices = tallies[usize::from(strategy)].choices;
        rows.push(strategy_row(alloc, plan, matches, strategy, choices)?)?;
    }
    Ok(rows)
}

fn strategy_row(
    alloc: Global,
    plan: &Plan,
    matches: &[MatchRecord],
    strategy: u8,
    choices: u64,
) -> Result<Vec<i64>, Memory>
    requires matches { length matches.now ≤ most_matches }
    requires strategies { length plan.now.strategies.items ≤ 8 }
    requires scores { All (λ r. length r.scores.items ≡ length plan.now.strategies.items) matches.now }
    requires choices { choices < 2 ^ 63 }
    ensures { IfOk result (λ row. row.items
        ≡ measured.numbers (strategy ∷ choices
        ∷ measured.strategy_points (plan_seen plan.now) (map record_seen matches.now) strategy
        ∷ measured.strategy_best (plan_seen plan.now) (map record_seen matches.now) strategy ∷ [])) }
{
    let points = i64::from(points_over(plan, matches, usize::from(strategy)));
    let best = best_in(plan, matches, usize::from(strategy)) as i64;
    Ok(vec![in alloc; i64::from(strategy), choices as i64, points, best]?)
}
