//! Whole commands over sources and sinks that fail: how they end, and what is written and noted then.
use crate::game::{SOURCE, TEXT};
use crate::ports::{End, NEVER, WIDE, Writes, expect_end, pieces};
use rc_house::{SourceKind, Status};
use std::process::Abort;
use std::test::Fail;

const PLAYED: End<'static> = End {
    status: Status::Done,
    written: TEXT,
    noted: b"cache looks 0 hits 0\n",
};

const USAGE: End<'static> = End {
    status: Status::Usage,
    written: b"",
    noted: b"usage: cardhouse play, check, sheet, bench, migrate, watch, measure or rival\n",
};

const READ_FAULT: End<'static> = End {
    status: Status::ReadFault,
    written: b"",
    noted: b"read fault\n",
};

const WRITE_FAULT: End<'static> = End {
    status: Status::WriteFault,
    written: b"",
    noted: b"write fault\n",
};

/// Fails unless a command on the game, which comes in such pieces, ends so.
fn expect_pieces(
    rt: &(impl AllocGlobal + Abort),
    words: &[&str],
    chunk: usize,
    failing: u64,
    end: End<'_>,
) -> Result<(), Fail> {
    let mut source = pieces(rt.alloc(), SOURCE, chunk, failing)?;
    expect_end(rt, words, &mut source, (WIDE, WIDE), end)
}

#[test]
fn a_source_in_pieces_is_played_unless_a_read_fails(rt: HostRuntime) -> Result<(), Fail> {
    // The 524 bytes of the source come in so many reads, of which the last finds the end.
    for (chunk, reads) in [(1, 525u64), (7, 76), (100, 7)] {
        for failing in 0..reads {
            expect_pieces(&rt, &["play"], chunk, failing, READ_FAULT)?;
        }
        expect_pieces(&rt, &["play"], chunk, reads, PLAYED)?;
    }
    Ok(())
}

/// Words that are no command's. The last ones name more than one worker.
const WORDS: [&[&str]; 23] = [
    &[],
    &[""],
    &["Play"],
    &["play "],
    &["pla"],
    &["play", "play"],
    &["sheet", "play"],
    &["check", "x"],
    &["migrate", "x"],
    &["watch", "0"],
    &["watch", "8", "0"],
    &["watch", "0", "4096"],
    &["watch", "000000", "0"],
    &["measure", "0"],
    &["bench"],
    &["bench", "0"],
    &["play", "--workers", "0"],
    &["play", "--cache", "70000"],
    &["play", "--format=3"],
    &["play", "--workers=1", "--workers", "1"],
    &["bench", "5", "--format=1"],
    &["play", "--workers", "2"],
    &["bench", "5", "--workers=64"],
];

/// A read would fail.
#[test]
fn other_words_are_refused_and_nothing_is_read(rt: HostRuntime) -> Result<(), Fail> {
    for words in WORDS {
        expect_pieces(&rt, words, 100, 0, USAGE)?;
    }
    Ok(())
}

/// Fails unless a play of a text in one piece ends so with these sinks.
fn expect_sinks(
    rt: &(impl AllocGlobal + Abort),
    text: &[u8],
    writes: (Writes, Writes),
    end: End<'_>,
) -> Result<(), Fail> {
    let mut source = pieces(rt.alloc(), text, 4096, NEVER)?;
    expect_end(rt, &["play"], &mut source, writes, end)
}

/// The text has 188 bytes, which come in 24 writes of at most 8.
const EIGHT: Writes = Writes {
    room: 188,
    chunk: 8,
    failing: NEVER,
};

/// Sinks of which a write fails or whose room is too small, and how much of the text they have taken then.
const SHORT: [(Writes, usize); 5] = [
    (
        Writes {
            chunk: 100,
            failing: 0,
            ..EIGHT
        },
        0,
    ),
    (
        Writes {
            chunk: 100,
            failing: 1,
            ..EIGHT
        },
        100,
    ),
    (Writes { room: 0, ..EIGHT }, 0),
    (Writes { room: 1, ..EIGHT }, 1),
    (Writes { room: 187, ..EIGHT }, 187),
];

/// Fails unless a play stops behind so many bytes of its text.
fn expect_stop(rt: &(impl AllocGlobal + Abort), out: Writes, written: usize) -> Result<(), Fail> {
    let written = TEXT.get(..written).ok_or("the text is long enough")?;
    let end = End {
        written,
        ..WRITE_FAULT
    };
    expect_sinks(rt, SOURCE, (out, WIDE), end)
}

#[test]
fn a_failed_write_leaves_a_front_of_the_text(rt: HostRuntime) -> Result<(), Fail> {
    for (out, written) in SHORT {
        expect_stop(&rt, out, written)?;
    }
    for failing in 0..24u8 {
        let out = Writes {
            failing: u64::from(failing),
            ..EIGHT
        };
        expect_stop(&rt, out, usize::from(failing) * 8)?;
    }
    Ok(())
}

/// Behind a note that failed.
const UNNOTED: End<'static> = End {
    written: TEXT,
    noted: b"",
    ..WRITE_FAULT
};

/// Behind a refusal, whose note failed.
const REFUSED: End<'static> = End {
    status: Status::Sheet {
        kind: SourceKind::Stray,
        at: 0,
    },
    written: b"",
    noted: b"",
};

const EMPTY: Status = Status::Sheet {
    kind: SourceKind::Shape,
    at: 0,
};

/// Texts whose notes fail at this write of at most 4 bytes, and how the play ends then: behind a refusal by its status.
const NOTED: [(&[u8], u64, End<'static>); 5] = [
    (SOURCE, 0, UNNOTED),
    (
        SOURCE,
        1,
        End {
            noted: b"cach",
            ..UNNOTED
        },
    ),
    (b")", 0, REFUSED),
    (
        b")",
        1,
        End {
            noted: b"shee",
            ..REFUSED
        },
    ),
    (
        b"",
        0,
        End {
            status: EMPTY,
            ..REFUSED
        },
    ),
];

#[test]
fn a_failed_note_is_a_write_fault_but_behind_a_refusal(rt: HostRuntime) -> Result<(), Fail> {
    for (text, failing, end) in NOTED {
        let notes = Writes {
            room: 100,
            chunk: 4,
            failing,
        };
        expect_sinks(&rt, text, (WIDE, notes), end)?;
    }
    Ok(())
}
