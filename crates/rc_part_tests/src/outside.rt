//! Readers and writers of std as sources and sinks, and how a piece is written on where a write takes a part of it.
use crate::expect::expect_same;
use rc_outside::{ReadFail, Room, StdSink, StdSource, WriteFault, read_all, write_all};
use std::alloc::Global;
use std::io::{self, Read};
use std::test::Fail;

const TEXT: &[u8] = b"twenty bytes of text";

/// A sink with room for the text, which takes 8 bytes at once and whose third write fails.
fn failing_sink(alloc: Global) -> Result<Room, Fail> {
    let fails = vec![in alloc; 2]?;
    Ok(Room::new(alloc, 20, 8, fails)?)
}

/// Each write is given all that is left, so the first two of at most 8 bytes take 16 of the 20.
#[test]
fn write_all_writes_what_is_left(rt: HostRuntime) -> Result<(), Fail> {
    let mut sink = failing_sink(rt.alloc())?;
    expect_same(&rt, write_all(&mut sink, TEXT), Err(WriteFault));
    expect_same(&rt, sink.written_bytes(), &TEXT[..16]);
    Ok(())
}

/// A reader that gives one byte and then only errors.
#[derive(Drop)]
struct Torn {
    is_first: bool,
}

impl Read for Torn {
    fn read(&mut self, buf: &mut [u8]) -> io::Result<usize> {
        if self.is_first && !buf.is_empty() {
            self.is_first = false;
            buf[0] = b'a';
            return Ok(1);
        }
        Err(io::Error::from(io::ErrorKind::Other))
    }
}

#[test]
fn std_source_reads_a_reader_and_counts_its_errors(rt: HostRuntime) -> Result<(), Fail> {
    let mut source = StdSource::new(TEXT);
    let all = read_all(rt.alloc(), &mut source, 20)?;
    expect_same(&rt, all.as_slice(), TEXT);
    expect_same(&rt, source.faults(), 0);
    let mut torn = StdSource::new(Torn { is_first: true });
    let fail = read_all(rt.alloc(), &mut torn, 20).err();
    expect_same(&rt, fail, Some(ReadFail::ReadFault));
    expect_same(&rt, torn.faults(), 1);
    Ok(())
}

/// How the text is written to a buffer, and how many writes fail.
fn written_to(buffer: &mut [u8]) -> (Result<(), WriteFault>, u64) {
    let mut sink = StdSink::new(buffer);
    let outcome = write_all(&mut sink, TEXT);
    (outcome, sink.faults())
}

#[test]
fn std_sink_writes_a_writer_and_counts_a_write_of_nothing(rt: HostRuntime) {
    let mut whole = [0; 20];
    expect_same(&rt, written_to(&mut whole), (Ok(()), 0));
    expect_same(&rt, whole.as_slice(), TEXT);
    let mut small = [0; 8];
    expect_same(&rt, written_to(&mut small), (Err(WriteFault), 1));
    expect_same(&rt, small, *b"twenty b");
}
