//! The text of the measures of matches.
ghost use Rattle.std.specs.Prelude.{◌≡◌, ◌≤◌, ◌<◌, length, All, IfOk};
ghost use Rattle.rc_base.specs.Clamp.{IsWithinClamp};

use crate::expect::expect_same;
use rc_deck::Memory;
use rc_measure::{measures_of, write_measures};
use rc_rules::{Deal, Ended, MatchRecord, Pick, Plan, Score, Strategy};
use std::alloc::{AllocGlobal, Global};
use std::process::Abort;
use std::test::Fail;

/// The first item of a menu of so many.
const fn pick(seat: u8, site: u8, size: u16) -> Pick {
    Pick {
        seat,
        site,
        item: 0,
        size,
    }
}

/// A player's score and its rank points.
fn score(player: u8, told: (i16, u8)) -> Score
    ensures { IsWithinClamp result.score }
{
    let (score, points) = told;
    Score {
        player,
        score: i64::from(score),
        points,
    }
}

/// A match of two players.
fn played_match(
    rt: &(impl AllocGlobal + Abort),
    number: u32,
    picks: &[Pick],
    end: (Ended, u32),
    scores: [(i16, u8); 2],
) -> Result<MatchRecord, Fail>
    ensures picks { IfOk result (λ r. length r.picks.items ≤ 4) }
    ensures scores { IfOk result (λ r. length r.scores.items ≡ 2) }
    ensures clamped { IfOk result (λ r. All (λ s. IsWithinClamp s.score) r.scores.items) }
{
    assert!(rt; picks.len() <= 4);
    let (stop, turn) = end;
    let scores = [score(0, scores[0]), score(1, scores[1])];
    Ok(MatchRecord {
        number,
        deal: 0,
        seats: 0,
        picks: Vec::from_slice(rt.alloc(), picks)?,
        shuffles: 0,
        stop,
        turn,
        scores: Vec::from_slice(rt.alloc(), &scores)?,
    })
}

/// The text of the measures of matches of two strategies.
fn text(alloc: Global, matches: &[MatchRecord]) -> Result<Vec<u8>, Memory>
    requires some { 0 < length matches.now }
    requires few { length matches.now ≤ 4 }
    requires picks { All (λ r. length r.picks.items ≤ 4) matches.now }
    requires scores { All (λ r. length r.scores.items ≡ 2) matches.now }
    requires clamped { All (λ r. All (λ s. IsWithinClamp s.score) r.scores.items) matches.now }
{
    let plan = Plan {
        strategies: vec![in alloc; Strategy::Random { key: 1 }, Strategy::Random { key: 2 }]?,
        matches: vec![in alloc; Deal { deal: 0, seats: 0 }; matches.len()]?,
        turns: 100,
    };
    let measures = measures_of(alloc, &plan, matches)?;
    write_measures(alloc, &measures)
}

#[test]
fn a_match_is_measured(rt: HostRuntime) -> Result<(), Fail> {
    let picks = [pick(0, 0, 2), pick(1, 0, 2), pick(0, 0, 1), pick(1, 0, 1)];
    let only = played_match(&rt, 0, &picks, (Ended::Done, 8), [(7, 2), (3, 0)])?;
    let measures = text(rt.alloc(), &[only])?;
    let expected: &[u8] = b"\
measure 1
matches 1 limits 0
choices 4/8
forced 2/4
menu 6/4
spread 4/1
leads 0/1
turns 8 8 8
site 0 4 2 6
seat 0 2 1 3 2
seat 1 2 1 3 0
strategy 0 2 2 1
strategy 1 2 0 0
";
    expect_same(&rt, measures.as_slice(), expected);
    Ok(())
}

#[test]
fn a_match_without_a_choice_that_the_limit_ends_is_measured(rt: HostRuntime) -> Result<(), Fail> {
    let only = played_match(&rt, 0, &[], (Ended::Limit, 1), [(0, 1), (0, 1)])?;
    let measures = text(rt.alloc(), &[only])?;
    let expected: &[u8] = b"\
measure 1
matches 1 limits 1
choices 0/1
forced 0/0
menu 0/0
spread 0/1
leads 0/1
turns 1 1 1
seat 0 0 0 0 1
seat 1 0 0 0 1
strategy 0 0 1 1
strategy 1 0 1 1
";
    expect_same(&rt, measures.as_slice(), expected);
    Ok(())
}

/// Strategy 1 leads by 2 to 0 and by 3 to 1, strategy 0 at 3 to 3 since its number is lower, and strategy 1 by 5 to 3.
#[test]
fn matches_are_measured_together(rt: HostRuntime) -> Result<(), Fail> {
    let (first, second) = ([pick(0, 63, 3), pick(1, 1, 1)], [pick(1, 1, 2)]);
    let last = [pick(0, 63, 1), pick(0, 63, 4)];
    let matches = [
        played_match(&rt, 0, &first, (Ended::Done, 5), [(-3, 0), (-1, 2)])?,
        played_match(&rt, 1, &second, (Ended::Limit, 9), [(4, 1), (4, 1)])?,
        played_match(&rt, 2, &[], (Ended::Done, 2), [(0, 2), (-10, 0)])?,
        played_match(&rt, 3, &last, (Ended::Done, 7), [(1, 2), (0, 0)])?,
    ];
    let measures = text(rt.alloc(), &matches)?;
    let expected: &[u8] = b"\
measure 1
matches 4 limits 1
choices 5/23
forced 2/5
menu 11/5
spread 13/4
leads 2/4
turns 2 7 9
site 1 2 1 3
site 63 3 1 8
seat 0 3 1 8 5
seat 1 2 1 3 3
strategy 0 2 3 2
strategy 1 3 5 3
";
    expect_same(&rt, measures.as_slice(), expected);
    Ok(())
}
