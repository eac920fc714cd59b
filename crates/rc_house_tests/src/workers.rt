//! Matches by several workers: who enters while a match is held, and what a match finds behind those before it. The
//! rollouts are two seats' with two cards each, of which each decision asks something else.
use crate::expect::expect_same;
use crate::game::{SHEET, SOURCE};
use crate::ports::{Sinks, WIDE, owned_words, sinks_of};
use rc_house::{Status, run};
use rc_outside::{Gate, Plain};
use std::alloc::Global;
use std::process::Abort;
use std::sync::Wait;
use std::sync::atomic::{AtomicU64, Ordering};
use std::test::Fail;
use std::thread::Threads;

/// How many turns a match that is held waits for another one to enter. That takes about a second, and only a play that
/// fails takes it.
const TURNS: u64 = 100_000_000;

/// Holds one match until another one enters, but not forever, and tells whether that one entered in time.
#[derive(Drop)]
struct Held {
    held: u32,
    until: u32,
    turns: AtomicU64,
    entered: AtomicU64,
    in_time: AtomicU64,
}

impl Held {
    fn new(held: u32, until: u32) -> Held {
        Held {
            held,
            until,
            turns: AtomicU64::new(0),
            entered: AtomicU64::new(0),
            in_time: AtomicU64::new(0),
        }
    }

    /// Waits for the other match, and counts each turn.
    fn hold(&self) {
        for _ in 0..TURNS {
            if self.entered.load(Ordering::SeqCst) == 1 {
                self.in_time.store(1, Ordering::SeqCst);
                return;
            }
            self.turns.fetch_add(1, Ordering::SeqCst);
        }
    }
}

impl Gate for Held {
    fn enter(&self, m: u32) {
        if m == self.until {
            self.entered.store(1, Ordering::SeqCst);
        }
        if m == self.held {
            self.hold();
        }
    }
}

/// A plan of matches of the game, which are all alike, and the text of their play. Both cards of a player are played in
/// any case, so all items do as well, and the first one is taken.
#[derive(Clone, Copy)]
struct Alike {
    plan: &'static [u8],
    text: &'static [u8],
}

const TWO: Alike = Alike {
    plan: b"(plan (seats (rollout 4 9) (rollout 4 9)) (matches (0 7) (0 7)) (turns 100))",
    text: b"\
house 1
match 0 deal 0 seats 7
choose 0 0 0 2
choose 1 0 0 2
choose 0 0 0 1
choose 1 0 0 1
end done 8
score 0 7 2
score 1 3 0
match 1 deal 0 seats 7
choose 0 0 0 2
choose 1 0 0 2
choose 0 0 0 1
choose 1 0 0 1
end done 8
score 0 7 2
score 1 3 0
standing 1 strategy 0 points 2
standing 1 strategy 1 points 2
",
};

const THREE: Alike = Alike {
    plan: b"(plan (seats (rollout 4 9) (rollout 4 9)) (matches (0 7) (0 7) (0 7)) (turns 100))",
    text: b"\
house 1
match 0 deal 0 seats 7
choose 0 0 0 2
choose 1 0 0 2
choose 0 0 0 1
choose 1 0 0 1
end done 8
score 0 7 2
score 1 3 0
match 1 deal 0 seats 7
choose 0 0 0 2
choose 1 0 0 2
choose 0 0 0 1
choose 1 0 0 1
end done 8
score 0 7 2
score 1 3 0
match 2 deal 0 seats 7
choose 0 0 0 2
choose 1 0 0 2
choose 0 0 0 1
choose 1 0 0 1
end done 8
score 0 7 2
score 1 3 0
standing 1 strategy 0 points 4
standing 2 strategy 1 points 2
",
};

const WORDS: &[&str] = &["play", "--workers", "2", "--cache", "65536"];

/// The game with a plan.
fn source_of(alloc: Global, plan: &[u8]) -> Result<Plain, Fail> {
    let sheet = SOURCE.get(..SHEET).ok_or("the source is long enough")?;
    let mut text = sheet.to_vec(alloc)?;
    text.extend_from_slice(plan)?;
    Ok(Plain::new(text))
}

fn run_words<R: AllocGlobal + Threads + Wait + Sync>(
    rt: &R,
    plan: &[u8],
    sinks: &mut Sinks,
    gate: &Held,
) -> Result<Status, Fail> {
    let words = owned_words(rt.alloc(), WORDS)?;
    let mut source = source_of(rt.alloc(), plan)?;
    let Sinks { out, notes } = sinks;
    Ok(run(
        rt.alloc(),
        rt,
        words.as_slice(),
        &mut source,
        out,
        notes,
        gate,
    ))
}

/// What two workers write and note who play a plan behind a gate. Fails unless the gate lets a match enter in time, and
/// the text is right.
fn play_by_workers<R: AllocGlobal + Abort + Threads + Wait + Sync>(
    rt: &R,
    alike: Alike,
    gate: &Held,
) -> Result<Sinks, Fail> {
    let mut sinks = sinks_of(rt.alloc(), (WIDE, WIDE))?;
    let status = run_words(rt, alike.plan, &mut sinks, gate)?;
    expect_same(rt, status, Status::Done);
    expect_same(rt, gate.in_time.load(Ordering::SeqCst), 1);
    expect_same(rt, sinks.out.written_bytes(), alike.text);
    Ok(sinks)
}

/// Workers that play one behind the other, in whatever order, let none of the two enter while the other is held.
#[test]
fn either_of_two_matches_enters_while_the_other_is_held(rt: HostRuntime) -> Result<(), Fail> {
    for (held, until) in [(0, 1), (1, 0)] {
        play_by_workers(&rt, TWO, &Held::new(held, until))?;
    }
    Ok(())
}

/// Where each worker played every second match, match 2 would come behind match 0.
#[test]
fn the_matches_behind_a_held_one_are_played(rt: HostRuntime) -> Result<(), Fail> {
    play_by_workers(&rt, THREE, &Held::new(0, 2))?;
    Ok(())
}

/// Match 1 is held until match 2 enters, which it does behind all of match 0. So both find the four totals that match 0
/// left.
#[test]
fn matches_find_the_totals_of_one_that_is_over(rt: HostRuntime) -> Result<(), Fail> {
    let sinks = play_by_workers(&rt, THREE, &Held::new(1, 2))?;
    expect_same(
        &rt,
        sinks.notes.written_bytes(),
        b"cache looks 12 hits 8\n".as_slice(),
    );
    Ok(())
}
