//! Matches that take turns in a house over events, in which what they keep may be lost.
use crate::expect::expect_same;
use crate::twice::{about_in, plan_in};
use rc_core::{Event, House, run_core};
use rc_match::Phase;
use rc_redraw::Key;
use rc_text::write_record;
use std::alloc::Global;
use std::process::Abort;
use std::sync::Arc;
use std::test::Fail;

/// The records of the two matches. Whatever is chosen, both players play all their cards in the end. So in each choice
/// all items have the same total, and the first one is taken.
const FIRST: &[u8] = b"\
match 0 deal 0 seats 7
choose 0 0 0 2
choose 1 0 0 2
choose 0 0 0 1
choose 1 0 0 1
end done 8
score 0 7 2
score 1 3 0
";

const SECOND: &[u8] = b"\
match 1 deal 0 seats 7
choose 0 0 0 2
choose 1 0 0 2
choose 0 0 0 1
choose 1 0 0 1
end done 8
score 0 7 2
score 1 3 0
";

/// What a turn of a match comes to: its work, its look and its keep.
#[derive(Clone, Copy, Debug, PartialEq, Eq)]
enum Turn {
    /// It asks, and finds nothing.
    Misses,
    /// It plays out what it didn't find, and keeps it.
    Keeps,
    /// It asks, and finds what was kept.
    Hits,
    /// It is over.
    Ends,
    /// Anything else.
    Stays,
}

/// A house for both matches, before the first event.
fn open_house(rt: &(impl AllocGlobal + Abort)) -> Result<House, Fail> {
    let about = about_in(rt.alloc())?;
    let plan = plan_in(rt.alloc())?;
    assert!(rt; about.sheet().players == 2);
    Ok(House::new(rt.alloc(), about, plan, 1024)?)
}

/// The key of the entry that a match holds, if it holds one.
fn held_key(phase: &Phase) -> Result<Option<Key>, Fail> {
    match phase {
        Phase::Holds(_, entry) => {
            let about = Arc::try_clone(&entry.key().about)?;
            let ask = Arc::try_clone(&entry.key().ask)?;
            Ok(Some(Key { about, ask }))
        }
        _ => Ok(None),
    }
}

/// What a match waits for.
fn phase_in<'a>(rt: &impl Abort, house: &'a House, m: u32) -> &'a Phase {
    assert!(rt; (m as usize) < house.matches());
    house.phase_of(m)
}

/// What a turn comes to, by what the match waits for behind its look.
fn turn_to(phase: &Phase) -> Turn {
    match phase {
        Phase::Missed(_) => Turn::Misses,
        Phase::Holds(..) => Turn::Keeps,
        Phase::Ready(_) => Turn::Hits,
        Phase::Over => Turn::Ends,
        _ => Turn::Stays,
    }
}

/// The entry of a key is lost, if there is one.
fn lose(rt: &impl AllocGlobal, house: &mut House, key: Option<Key>) -> Result<(), Fail> {
    if let Some(key) = key {
        run_core(rt.alloc(), house, &[Event::Lose(key)])?;
    }
    Ok(())
}

/// A turn of a match: it works, looks up what it asks, and keeps what it holds. That is lost again, or not.
fn take_turn(
    rt: &(impl AllocGlobal + Abort),
    house: &mut House,
    m: u32,
    loses: bool,
) -> Result<Turn, Fail> {
    run_core(rt.alloc(), house, &[Event::Private(m), Event::Look(m)])?;
    let phase = phase_in(rt, house, m);
    let turn = turn_to(phase);
    let key = held_key(phase)?;
    run_core(rt.alloc(), house, &[Event::Keep(m)])?;
    if loses {
        lose(rt, house, key)?;
    }
    Ok(turn)
}

/// Fails unless a match with four choices finds what it asks at these, and is recorded so. Where it finds nothing it
/// keeps what it played out, and loses it or not.
fn expect_match(
    rt: &(impl AllocGlobal + Abort),
    house: &mut House,
    m: u32,
    choices: [(bool, bool); 4],
    record: &[u8],
) -> Result<(), Fail> {
    for (is_found, is_lost) in choices {
        if is_found {
            expect_same(rt, take_turn(rt, house, m, false)?, Turn::Hits);
        } else {
            expect_same(rt, take_turn(rt, house, m, false)?, Turn::Misses);
            expect_same(rt, take_turn(rt, house, m, is_lost)?, Turn::Keeps);
        }
    }
    expect_same(rt, take_turn(rt, house, m, false)?, Turn::Ends);
    assert!(rt; (m as usize) < house.matches());
    let written = write_record(rt.alloc(), house.notes_of(m))?;
    expect_same(rt, written.as_slice(), record);
    Ok(())
}

/// The first match finds nothing, and the second one what the first one kept, where that isn't lost. Each of the four
/// entries is lost in both matches, or not.
#[test]
fn matches_are_the_same_whatever_is_lost(rt: HostRuntime) -> Result<(), Fail> {
    for lost in 0..16u8 {
        let [a, b, c, d] = [lost & 1 != 0, lost & 2 != 0, lost & 4 != 0, lost & 8 != 0];
        let mut house = open_house(&rt)?;
        let losing = [(false, a), (false, b), (false, c), (false, d)];
        expect_match(&rt, &mut house, 0, losing, FIRST)?;
        let finding = [(!a, a), (!b, b), (!c, c), (!d, d)];
        expect_match(&rt, &mut house, 1, finding, SECOND)?;
    }
    Ok(())
}
