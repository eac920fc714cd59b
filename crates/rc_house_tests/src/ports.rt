//! Commands over a source and sinks in memory, which may fail.
ghost use Rattle.std.specs.Prelude.{◌≡◌, ◌<◌};

use crate::expect::expect_same;
use rc_base::Steps;
use rc_house::{Status, run_alone};
use rc_outside::{Bytes, Room};
use std::alloc::{AllocError, Global};
use std::marker::Brand;
use std::process::Abort;
use std::sync::ledger::{Blank, Ledger};
use std::test::Fail;

/// How a command ends, and what is written and noted until then.
#[derive(Clone, Copy)]
pub struct End<'a> {
    pub status: Status,
    pub written: &'a [u8],
    pub noted: &'a [u8],
}

/// What a sink takes: so many bytes in all and at once, and the write that fails.
#[derive(Clone, Copy)]
pub struct Writes {
    pub room: usize,
    pub chunk: usize,
    pub failing: u64,
}

/// The number of a read or a write that never comes.
pub const NEVER: u64 = u64::MAX;

/// Takes any text of these tests.
pub const WIDE: Writes = Writes {
    room: 4096,
    chunk: 4096,
    failing: NEVER,
};

fn room_of(alloc: Global, writes: Writes) -> Result<Room, Fail> {
    let fails = vec![in alloc; writes.failing]?;
    Ok(Room::new(alloc, writes.room, writes.chunk.max(1), fails)?)
}

/// What a command writes and notes to.
#[derive(Drop)]
pub struct Sinks {
    pub out: Room,
    pub notes: Room,
}

pub fn sinks_of(alloc: Global, writes: (Writes, Writes)) -> Result<Sinks, Fail> {
    let out = room_of(alloc, writes.0)?;
    let notes = room_of(alloc, writes.1)?;
    Ok(Sinks { out, notes })
}

/// Runs a command on a ledger of its own.
fn run_on<L: Ledger>(
    alloc: Global,
    words: &[String],
    source: &mut Bytes,
    sinks: &mut Sinks,
    blank: Blank,
) -> Status
    requires name { blank.name ≡ L.name }
    requires parts { blank.parts ≡ L.parts }
    requires some { 0 < blank.parts }
{
    let Sinks { out, notes } = sinks;
    let mut steps = Steps::<L>::new(blank);
    run_alone(alloc, words, source, out, notes, &mut steps)
}

pub fn owned_words(alloc: Global, words: &[&str]) -> Result<Vec<String>, AllocError> {
    let mut owned = Vec::new(alloc);
    for word in words {
        owned.push(String::from_str(alloc, *word)?)?;
    }
    Ok(owned)
}

fn run_words(
    alloc: Global,
    words: &[&str],
    source: &mut Bytes,
    sinks: &mut Sinks,
) -> Result<Status, AllocError> {
    let words = owned_words(alloc, words)?;
    let blank = Blank::new(1);
    Ok(run_on::<Brand>(alloc, words.as_slice(), source, sinks, blank))
}

/// A text in pieces of so many bytes, of which this read fails.
pub fn pieces(alloc: Global, text: &[u8], chunk: usize, failing: u64) -> Result<Bytes, AllocError> {
    let fails = vec![in alloc; failing]?;
    let text = text.to_vec(alloc)?;
    Ok(Bytes::new(text, chunk.max(1), fails))
}

/// Fails unless a command on this source and these sinks ends so.
pub fn expect_end(
    rt: &(impl AllocGlobal + Abort),
    words: &[&str],
    source: &mut Bytes,
    writes: (Writes, Writes),
    end: End<'_>,
) -> Result<(), Fail> {
    let mut sinks = sinks_of(rt.alloc(), writes)?;
    let status = run_words(rt.alloc(), words, source, &mut sinks)?;
    expect_same(rt, status, end.status);
    expect_same(rt, sinks.out.written_bytes(), end.written);
    expect_same(rt, sinks.notes.written_bytes(), end.noted);
    Ok(())
}
