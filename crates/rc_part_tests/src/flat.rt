//! Matches of games on the tree machine and on the machines that matches and playouts are played on, and the ways back
//! of these.
ghost use Rattle.std.specs.Prelude.{◌≡◌, ◌<◌, length};
ghost use Rattle.rc_code.specs.Seen.{code_seen};
ghost use Rattle.rc_code.specs.Stands.{StandsFor};

use crate::expect::expect_same;
use crate::moves::MOVES;
use rc_base::Steps;
use rc_games::{
    DRAWS, Game, MAGPIE, OPEN_CARD, Observed, Playouts, Returns, STAIRCASE, game_in, replay,
};
use rc_rollout::Blank as Forgetful;
use rc_rules::{Ended, MatchRecord, Plan, Strategy};
use rc_series::record_of;
use rc_trick::trick_text;
use std::alloc::Global;
use std::marker::Brand;
use std::process::Abort;
use std::sync::ledger::{Blank, Ledger};
use std::test::Fail;

/// A match that was played without a memory of totals, and what came of its playouts.
#[derive(Drop)]
struct Watched {
    record: MatchRecord,
    memo: Forgetful,
    returns: Returns,
}

/// Plays a match, and makes the playouts of each of its rollouts from the side.
fn watch_match<L: Ledger>(
    alloc: Global,
    game: &Game,
    number: u32,
    blank: Blank,
) -> Result<Watched, Fail>
    requires code { StandsFor game.now.about.value.sheet (code_seen game.now.code.value) }
    requires number { number < length game.now.plan.value.matches.items }
    requires seats { length game.now.plan.value.strategies.items ≡ game.now.about.value.sheet.players }
    requires name { blank.name ≡ L.name }
    requires parts { blank.parts ≡ L.parts }
    requires some { 0 < blank.parts }
{
    let mut steps = Steps::<L>::new(blank);
    let mut chooser = Observed::new(&game.about, &game.code, Returns::new())?;
    let Game { about, plan, code } = game;
    let played = record_of(
        alloc,
        about,
        plan,
        code,
        number,
        false,
        &mut chooser,
        &mut steps,
    )?;
    let (memo, returns) = chooser.into_parts();
    Ok(Watched {
        record: played.record,
        memo,
        returns,
    })
}

/// How many rounds a seat rolls out in a match of a plan.
fn rounds_of(plan: &Plan, number: u32, seat: u8) -> u32 {
    let at = (number as usize).wrapping_add(usize::from(seat));
    let strategy = at
        .checked_rem(plan.strategies.len())
        .and_then(|at| plan.strategies.get(at));
    match strategy {
        Some(Strategy::Rollout { rounds, .. }) => u32::from(*rounds),
        _ => 0,
    }
}

/// How many decisions of a match are rolled out, and how many playouts that takes: one for each item in each round.
fn costs_of(plan: &Plan, record: &MatchRecord) -> (u64, u32) {
    let mut looks = 0u64;
    let mut playouts = 0u32;
    for pick in &record.picks {
        let rounds = rounds_of(plan, record.number, pick.seat);
        if rounds > 0 {
            looks = looks.saturating_add(1);
            playouts = playouts.saturating_add(rounds.saturating_mul(u32::from(pick.size)));
        }
    }
    (looks, playouts)
}

/// Fails unless all playouts of a match came back, none of which shuffles, and the memo that remembers nothing was
/// asked at each rollout and given its totals.
fn expect_returns(rt: &impl Abort, plan: &Plan, watched: &Watched) {
    let (looks, made) = costs_of(plan, &watched.record);
    let playouts = Playouts { made, shuffles: 0 };
    expect_same(rt, watched.returns.playouts_seen(), Ok(playouts));
    expect_same(
        rt,
        (watched.memo.looks(), watched.memo.keeps()),
        (looks, looks),
    );
}

/// The plan of fifty matches of the trick game, which has 1,000 to 1,049 behind its deals.
const FIFTY: &[u8] =
    b"(plan (seats (random 1) (rollout 4 2) (random 3) (rollout 4 4)) (matches (from 1 1000 50)) (turns 64))";

/// Fails unless the record is one of six tricks, of which two seats roll out each card.
fn expect_tricks(rt: &impl Abort, watched: &Watched) {
    let record = &watched.record;
    expect_same(rt, (record.deal, record.seats), (1, 1000));
    expect_same(rt, (record.picks.len(), record.shuffles), (24, 1));
    expect_same(rt, (record.stop, record.turn), (Ended::Done, 54));
    expect_same(rt, watched.memo.looks(), 12);
}

#[test]
fn each_playout_of_a_match_goes_back_to_its_decision(rt: HostRuntime) -> Result<(), Fail> {
    let game = game_in(rt.alloc(), trick_text(), FIFTY)?;
    expect_same(&rt, game.plan.matches.len(), 50);
    assert!(rt; game.plan.matches.len() > 0);
    let watched = watch_match::<Brand>(rt.alloc(), &game, 0, Blank::new(1))?;
    expect_tricks(&rt, &watched);
    expect_returns(&rt, &game.plan, &watched);
    Ok(())
}

/// Games and short plans for them: cards that are shuffled, dealt, drawn, remembered and moved; stages inside one
/// another, a member that is named and a direction that turns; ends, turn limits before a round and before a decision;
/// and many cards that are moved at once.
const GAMES: [(&[u8], &[u8]); 6] = [
    (
        DRAWS,
        b"(plan (seats (script 1) (rollout 2 7)) (matches (from 1 1 2)) (turns 40))",
    ),
    (
        MAGPIE,
        b"(plan (seats (rollout 2 3) (script) (random 4)) (matches (from 106 9 2)) (turns 60))",
    ),
    (
        STAIRCASE,
        b"(plan (seats (rollout 1 8)) (matches (40 3)) (turns 80))",
    ),
    (
        OPEN_CARD,
        b"(plan (seats (rollout 1 1) (random 2) (rollout 2 3)) (matches (from 0 0 3)) (turns 11))",
    ),
    (
        OPEN_CARD,
        b"(plan (seats (rollout 1 1) (random 2) (rollout 2 3)) (matches (0 0)) (turns 12))",
    ),
    (
        MOVES,
        b"(plan (seats (random 1) (rollout 2 3)) (matches (from 0 0 2)) (turns 12))",
    ),
];

/// Fails unless the machines play all matches of a game alike, and all playouts come back.
fn expect_alike(rt: &(impl AllocGlobal + Abort), sheet: &[u8], plan: &[u8]) -> Result<(), Fail> {
    let game = game_in(rt.alloc(), sheet, plan)?;
    let count = game.plan.matches.len();
    assert!(rt; count <= 3);
    for number in 0..count as u32 {
        let watched = watch_match::<Brand>(rt.alloc(), &game, number, Blank::new(1))?;
        expect_same(rt, replay(rt.alloc(), &game, &watched.record), Ok(()));
        expect_returns(rt, &game.plan, &watched);
    }
    Ok(())
}

#[test]
fn all_machines_play_alike(rt: HostRuntime) -> Result<(), Fail> {
    for (sheet, plan) in GAMES {
        expect_alike(&rt, sheet, plan)?;
    }
    let two =
        b"(plan (seats (random 1) (rollout 1 2) (random 3) (rollout 1 4)) (matches (from 7 7 2)) (turns 64))";
    expect_alike(&rt, trick_text(), two)
}
