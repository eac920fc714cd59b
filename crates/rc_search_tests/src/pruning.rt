//! How many items searches try, with items left out and without.
ghost use Rattle.std.specs.Prelude.{◌≡◌, ◌≤◌, ◌<◌, length, IfOk};
ghost use Rattle.rc_code.specs.Seen.{code_seen};
ghost use Rattle.rc_code.specs.Stands.{StandsFor};
ghost use Rattle.rc_search.specs.Rival.{CanBeSearched, IsRival};

use rc_base::Steps;
use rc_flat::FlatMachine;
use rc_games::{Game, game_in};
use rc_match::{Job, Phase, begin, lane_step};
use rc_search::{Found, Rival, Seen, has_two_teams, plain_totals, pruned_totals};
use rc_trick::trick_text;
use std::alloc::Global;
use std::marker::Brand;
use std::process::Abort;
use std::sync::Arc;
use std::sync::ledger::{Blank, Ledger};
use std::test::Fail;

/// What a search finds with no item left out, and with items left out.
#[derive(Drop)]
struct Both {
    plain: Found,
    pruned: Found,
}

/// The first decision of a game's first match.
fn first_decision(alloc: Global, game: &Game) -> Result<Seen, Fail>
    requires code { StandsFor game.now.about.value.sheet (code_seen game.now.code.value) }
    requires some { 0 < length game.now.plan.value.matches.items }
    requires seats { length game.now.plan.value.strategies.items ≡ game.now.about.value.sheet.players }
    ensures { IfOk result CanBeSearched }
{
    let job = Job::of(&game.about, &game.plan, 0)?;
    let machine = FlatMachine::onward_start(alloc, &game.code, &game.about)?;
    let mut lane = begin(alloc, &job, machine)?;
    lane_step(alloc, &mut lane, &job)?;
    let Phase::Asks(need) = &lane.phase else {
        return Err("no decision".into());
    };
    Ok(Seen {
        about: Arc::try_clone(&need.about)?,
        code: Arc::try_clone(&game.code)?,
        seed: need.seed,
        view: need.view.copy(alloc)?,
    })
}

/// What both searches find at a decision of two teams.
fn found_by_both<L: Ledger>(
    alloc: Global,
    seen: &Seen,
    rival: &Rival,
    blank: Blank,
) -> Result<Both, Fail>
    requires searched { CanBeSearched seen.now }
    requires rival { IsRival rival.now }
    requires name { blank.name ≡ L.name }
    requires parts { blank.parts ≡ L.parts }
    requires some { 0 < blank.parts }
{
    let mut steps = Steps::<L>::new(blank);
    if !has_two_teams(seen.about.sheet()) {
        return Err("no two teams".into());
    }
    let plain = plain_totals(alloc, seen, rival, &mut steps)?;
    let pruned = pruned_totals(alloc, seen, rival, &mut steps)?;
    Ok(Both { plain, pruned })
}

/// The trick game for two teams, of which each has players across.
fn trick_game_in_teams(alloc: Global) -> Result<Vec<u8>, Fail> {
    let head = b"(game\n(setup (create players 4)\n";
    let text = trick_text();
    if !text.starts_with(head) {
        return Err("another head".into());
    }
    let mut sheet = Vec::from_slice(alloc, head)?;
    sheet.extend_from_slice(b"(create teams (0 2) (1 3))\n")?;
    sheet.extend_from_slice(&text[head.len()..])?;
    Ok(sheet)
}

#[test]
fn a_search_of_two_teams_leaves_items_out(rt: HostRuntime) -> Result<(), Fail> {
    let alloc = rt.alloc();
    let sheet = trick_game_in_teams(alloc)?;
    let plan =
        b"(plan (seats (random 1) (rollout 4 2) (random 3) (rollout 4 4)) (matches (1 1000)) (turns 64))";
    let game = game_in(alloc, &sheet, plan)?;
    assert!(rt; game.plan.matches.len() > 0);
    let seen = first_decision(alloc, &game)?;
    let rival = Rival {
        strategy: 0,
        depth: 4,
        rounds: 2,
        key: 5,
    };
    let found = found_by_both::<Brand>(alloc, &seen, &rival, Blank::new(1))?;
    assert_eq!(rt;
        found.pruned.totals.as_slice(),
        found.plain.totals.as_slice()
    );
    assert!(rt; found.pruned.applied < found.plain.applied);
    Ok(())
}
