//! What each seat is told of a match by its log, and how logs are read.
ghost use Rattle.std.specs.Prelude.{◌<◌, ◌≤◌, length};
ghost use Rattle.rc_base.specs.Limits.{longest_text};

use crate::expect::expect_same;
use bumpalo::Bump;
use rc_base::limits::LONGEST_TEXT;
use rc_form::read_forms;
use rc_games::{GAME, basis_in, checked_of_form};
use rc_house::watched_log;
use rc_plan::{PlanFail, plan_of};
use rc_seatlog::{LogFail, LogText, read_log};
use std::alloc::Global;
use std::test::Fail;

/// Each player plays the last dealt card first.
const FIRST_CARDS: &[u8] = b"(plan (seats (script) (script)) (matches (0 0)) (turns 100))";

/// What the first player sees of that. The cards of the other one are told once they are played.
const FIRST_OF_FIRST: &[u8] = b"\
log 1
seat 0 match 0
stop 0 turn 1 site 0
made 0 0
frame 0 0 forward none
numbers
place 0
place 1 3 2
place 2 - -
place 3
place 4
stop 1 turn 3 site 0
made 1 0
frame 0 1 forward none
numbers
place 0
place 1 2
place 2 - -
place 3 3
place 4
stop 2 turn 5 site 0
made 1 1
frame 0 0 forward none
numbers
place 0
place 1 2
place 2 -
place 3 3
place 4 1
stop 3 turn 7 site 0
made 2 1
frame 0 1 forward none
numbers
place 0
place 1
place 2 -
place 3 3 2
place 4 1
stops 4
";

/// What the second player sees of it.
const SECOND_OF_FIRST: &[u8] = b"\
log 1
seat 1 match 0
stop 0 turn 1 site 0
made 0 0
frame 0 0 forward none
numbers
place 0
place 1 - -
place 2 1 0
place 3
place 4
stop 1 turn 3 site 0
made 1 0
frame 0 1 forward none
numbers
place 0
place 1 -
place 2 1 0
place 3 3
place 4
stop 2 turn 5 site 0
made 1 1
frame 0 0 forward none
numbers
place 0
place 1 -
place 2 0
place 3 3
place 4 1
stop 3 turn 7 site 0
made 2 1
frame 0 1 forward none
numbers
place 0
place 1
place 2 0
place 3 3 2
place 4 1
stops 4
";

/// The second player plays the other card first.
const OTHER_CARD: &[u8] = b"(plan (seats (script) (script 1)) (matches (0 0)) (turns 20))";

/// What the second player sees of that.
const SECOND_OF_OTHER: &[u8] = b"\
log 1
seat 1 match 0
stop 0 turn 1 site 0
made 0 0
frame 0 0 forward none
numbers
place 0
place 1 - -
place 2 1 0
place 3
place 4
stop 1 turn 3 site 0
made 1 0
frame 0 1 forward none
numbers
place 0
place 1 -
place 2 1 0
place 3 3
place 4
stop 2 turn 5 site 0
made 1 1
frame 0 0 forward none
numbers
place 0
place 1 -
place 2 1
place 3 3
place 4 0
stop 3 turn 7 site 0
made 2 1
frame 0 1 forward none
numbers
place 0
place 1
place 2 1
place 3 3 2
place 4 0
stops 4
";

/// The log of a player in the match of a plan.
fn log_in(alloc: Global, plan: &[u8], seat: u8) -> Result<Vec<u8>, Fail>
    requires few { length plan.now ≤ longest_text }
    requires seat { seat < 2 }
{
    let arena = Bump::new(alloc);
    let sheets = read_forms(&arena, GAME, 1)?;
    let plans = read_forms(&arena, plan, 1)?;
    let (Some(sheet), Some(plan)) = (sheets.list.first(), plans.list.first()) else {
        return Err("each text has a list".into());
    };
    let checked = checked_of_form(alloc, sheet)?;
    if checked.sheet().players != 2 {
        return Err("there are two players".into());
    }
    let plan = match plan_of(alloc, plan, 2) {
        Ok(plan) => plan,
        Err(PlanFail::Fault(_)) => return Err("it is a plan".into()),
        Err(PlanFail::Memory) => return Err("there is memory".into()),
    };
    if plan.matches.is_empty() {
        return Err("it has a match".into());
    }
    Ok(watched_log(alloc, checked, plan, seat, 0)?)
}

#[test]
fn a_match_is_told_as_each_player_sees_it(rt: HostRuntime) -> Result<(), Fail> {
    let alloc = rt.alloc();
    let first = log_in(alloc, FIRST_CARDS, 0)?;
    expect_same(&rt, first.as_slice(), FIRST_OF_FIRST);
    let second = log_in(alloc, FIRST_CARDS, 1)?;
    expect_same(&rt, second.as_slice(), SECOND_OF_FIRST);
    let other = log_in(alloc, OTHER_CARD, 1)?;
    expect_same(&rt, other.as_slice(), SECOND_OF_OTHER);
    Ok(())
}

/// What is read of a log of the game, or the number of its first faulty line.
fn read(alloc: Global, log: &[u8]) -> Result<Result<LogText, u32>, Fail> {
    if log.len() > LONGEST_TEXT {
        return Err("it is short".into());
    }
    let basis = basis_in(alloc, GAME)?;
    match read_log(alloc, &basis.shape, log) {
        Ok(text) => Ok(Ok(text)),
        Err(LogFail::Fault { line }) => Ok(Err(line)),
        Err(LogFail::Memory) => Err("there is memory".into()),
    }
}

/// The seat, the number of stops that are told, and that of all, of a log that is read.
fn counts_of(alloc: Global, log: &[u8]) -> Result<(u8, usize, u32), Fail> {
    match read(alloc, log)? {
        Ok(text) => Ok((text.seat, text.views.len(), text.stops)),
        Err(_) => Err("it is a log".into()),
    }
}

/// The first faulty line of a log in which a byte is another one.
fn fault_with(alloc: Global, log: &[u8], at: usize, byte: u8) -> Result<u32, Fail> {
    let mut other = Vec::from_slice(alloc, log)?;
    match other.get_mut(at) {
        Some(there) => *there = byte,
        None => return Err("the byte is there".into()),
    }
    fault_of(alloc, &other)
}

/// The first faulty line of what is no log.
fn fault_of(alloc: Global, log: &[u8]) -> Result<u32, Fail> {
    match read(alloc, log)? {
        Ok(_) => Err("it is no log".into()),
        Err(line) => Ok(line),
    }
}

#[test]
fn a_log_is_read_and_its_first_faulty_line_is_found(rt: HostRuntime) -> Result<(), Fail> {
    let alloc = rt.alloc();
    expect_same(&rt, counts_of(alloc, FIRST_OF_FIRST)?, (0, 4, 4));
    expect_same(&rt, counts_of(alloc, SECOND_OF_OTHER)?, (1, 4, 4));
    // a format that isn't known
    expect_same(&rt, fault_with(alloc, FIRST_OF_FIRST, 4, b'2')?, 1);
    // the other player sees all of its own cards, and here it knows none of them
    expect_same(&rt, fault_with(alloc, FIRST_OF_FIRST, 11, b'1')?, 9);
    // the last line lacks its end
    let (cut, _end) = FIRST_OF_FIRST.split_at(FIRST_OF_FIRST.len() - 1);
    expect_same(&rt, fault_of(alloc, cut)?, 39);
    Ok(())
}
