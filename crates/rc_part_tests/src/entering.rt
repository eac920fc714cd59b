//! Whether a worker asks the gate before it plays a match.
ghost use Rattle.std.specs.Prelude.{◌≡◌, ◌≤◌, length, All, IfOk};
ghost use Rattle.rc_code.specs.Seen.{code_seen};
ghost use Rattle.rc_code.specs.Stands.{StandsFor};
ghost use Rattle.rc_redraw.specs.Need.{need_seen, IsNeed};

use crate::expect::expect_same;
use rc_code::Code;
use rc_games::{GAME, Game, Observed, Observer, game_in};
use rc_outside::Gate;
use rc_redraw::{About, Need};
use rc_series::play_claimed;
use std::alloc::Global;
use std::process::Abort;
use std::sync::Arc;
use std::sync::atomic::{AtomicU64, Ordering};
use std::test::Fail;
use std::thread::Threads;

/// Counts for each of three matches how often it entered.
#[derive(Drop)]
struct Doors {
    entered: [AtomicU64; 3],
}

impl Doors {
    fn new() -> Doors {
        Doors {
            entered: [AtomicU64::new(0), AtomicU64::new(0), AtomicU64::new(0)],
        }
    }

    /// How often a match entered.
    fn entry_count(&self, m: usize) -> u64 {
        match self.entered.get(m) {
            Some(door) => door.load(Ordering::SeqCst),
            None => 0,
        }
    }
}

impl Gate for Doors {
    fn enter(&self, m: u32) {
        if let Some(door) = self.entered.get(m as usize) {
            door.fetch_add(1, Ordering::SeqCst);
        }
    }
}

/// Notes how many decisions it saw of a match that had entered, and how many of one that had not. The seed of the seats
/// is the match's number.
#[derive(Drop)]
struct Doorkeeper {
    doors: Arc<Doors>,
    behind: u32,
    before: u32,
}

impl Observer for Doorkeeper {
    fn see(&mut self, _alloc: Global, need: &Need, _code: &Arc<Code>) {
        if self.doors.entry_count(need.seed as usize) == 1 {
            self.behind = self.behind.saturating_add(1);
        } else {
            self.before = self.before.saturating_add(1);
        }
    }
}

/// Three matches of four decisions, all of them rolled out.
const PLAN: &[u8] =
    b"(plan (seats (rollout 1 9) (rollout 1 9)) (matches (0 0) (0 1) (0 2)) (turns 100))";

/// Choices for two workers, each with a doorkeeper.
fn choosers(
    alloc: Global,
    about: &Arc<About>,
    code: &Arc<Code>,
    doors: &Arc<Doors>,
) -> Result<Vec<Observed<Doorkeeper>>, Fail>
    ensures two { IfOk result (λ choosers. length choosers.items ≡ 2) }
    ensures about { IfOk result (λ choosers. All (λ c. c.choices.ground ≡ about.now.value) choosers.items) }
    ensures code { IfOk result (λ choosers. All
        (λ c. (c.choices.code.value ≡ code.now.value) × (c.code.value ≡ code.now.value)) choosers.items) }
{
    let first = chooser(about, code, doors)?;
    let second = chooser(about, code, doors)?;
    Ok(vec![in alloc; first, second]?)
}

fn chooser(
    about: &Arc<About>,
    code: &Arc<Code>,
    doors: &Arc<Doors>,
) -> Result<Observed<Doorkeeper>, Fail>
    ensures about { IfOk result (λ c. c.choices.ground ≡ about.now.value) }
    ensures code { IfOk result (λ c. (c.choices.code.value ≡ code.now.value) × (c.code.value ≡ code.now.value)) }
{
    let doorkeeper = Doorkeeper {
        doors: Arc::try_clone(doors)?,
        behind: 0,
        before: 0,
    };
    Ok(Observed::new(about, code, doorkeeper)?)
}

/// How many decisions the choosers saw of matches that had entered, and of others.
fn counts_in(choosers: Vec<Observed<Doorkeeper>>) -> (u32, u32) {
    let mut behind = 0u32;
    let mut before = 0u32;
    for chooser in choosers {
        let (_memo, keeper) = chooser.into_parts();
        behind = behind.saturating_add(keeper.behind);
        before = before.saturating_add(keeper.before);
    }
    (behind, before)
}

/// Two workers play the plan. What their doorkeepers saw.
fn play_game<R: AllocGlobal + Threads + Sync>(
    rt: &R,
    game: &Game,
    doors: &Arc<Doors>,
) -> Result<(u32, u32), Fail>
    requires code { StandsFor game.now.about.value.sheet (code_seen game.now.code.value) }
    requires matches { length game.now.plan.value.matches.items ≡ 3 }
    requires seats { length game.now.plan.value.strategies.items ≡ game.now.about.value.sheet.players }
{
    let Game { about, plan, code } = game;
    let choosers = choosers(rt.alloc(), about, code, doors)?;
    let (_records, choosers) = play_claimed(
        rt,
        rt.alloc(),
        about,
        plan,
        code,
        false,
        choosers,
        &**doors,
    )?;
    Ok(counts_in(choosers))
}

/// No other worker enters a match than the one that claimed it and plays it. So where that one asks the gate behind the
/// play, the match hasn't entered at its first decision, however the workers take turns.
#[test]
fn a_match_enters_before_it_is_played(rt: HostRuntime) -> Result<(), Fail> {
    let game = game_in(rt.alloc(), GAME, PLAN)?;
    assert!(rt; game.plan.matches.len() == 3);
    let doors = Arc::new(rt.alloc(), Doors::new())?;
    expect_same(&rt, play_game(&rt, &game, &doors)?, (12, 0));
    for m in 0..3usize {
        expect_same(&rt, doors.entry_count(m), 1);
    }
    Ok(())
}
