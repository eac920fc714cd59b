//! What a seat sees in a match, and the measures of a transcript.
use crate::game::{SOURCE, TEXT};
use crate::ports::{End, NEVER, WIDE, expect_end, pieces};
use rc_house::Status;
use std::process::Abort;
use std::test::Fail;

/// What the first seat sees in the match of the game.
const LOG: &[u8] = b"\
log 1
seat 0 match 0
stop 0 turn 1 site 0
made 0 0
frame 0 0 forward none
numbers
place 0
place 1 3 2
place 2 - -
place 3
place 4
stop 1 turn 3 site 0
made 1 0
frame 0 1 forward none
numbers
place 0
place 1 2
place 2 - -
place 3 3
place 4
stop 2 turn 5 site 0
made 1 1
frame 0 0 forward none
numbers
place 0
place 1 2
place 2 -
place 3 3
place 4 1
stop 3 turn 7 site 0
made 2 1
frame 0 1 forward none
numbers
place 0
place 1
place 2 -
place 3 3 2
place 4 1
stops 4
";

/// The measures of the match.
const MEASURES: &[u8] = b"\
measure 1
matches 1 limits 0
choices 4/8
forced 2/4
menu 6/4
spread 4/1
leads 0/1
turns 8 8 8
site 0 4 2 6
seat 0 2 1 3 2
seat 1 2 1 3 0
strategy 0 2 2 1
strategy 1 2 0 0
";

/// Behind a text that nothing is noted of.
fn told_end(written: &[u8]) -> End<'_> {
    End {
        status: Status::Done,
        written,
        noted: b"",
    }
}

const ABSENT: End<'static> = End {
    status: Status::Absent,
    written: b"",
    noted: b"absent\n",
};

/// Fails unless a command on this text ends so.
fn expect_told(
    rt: &(impl AllocGlobal + Abort),
    words: &[&str],
    text: &[u8],
    end: End<'_>,
) -> Result<(), Fail> {
    let mut source = pieces(rt.alloc(), text, 4096, NEVER)?;
    expect_end(rt, words, &mut source, (WIDE, WIDE), end)
}

#[test]
fn a_seat_sees_a_match_of_the_plan_and_no_other(rt: HostRuntime) -> Result<(), Fail> {
    expect_told(&rt, &["watch", "0", "0"], SOURCE, told_end(LOG))?;
    expect_told(&rt, &["watch", "00000", "0"], SOURCE, told_end(LOG))?;
    expect_told(&rt, &["watch", "2", "0"], SOURCE, ABSENT)?;
    expect_told(&rt, &["watch", "0", "1"], SOURCE, ABSENT)
}

#[test]
fn what_was_played_is_measured(rt: HostRuntime) -> Result<(), Fail> {
    let mut text = SOURCE.to_vec(rt.alloc())?;
    text.extend_from_slice(TEXT)?;
    expect_told(&rt, &["measure"], &text, told_end(MEASURES))
}
