//! Why a read or a write failed.
ghost use Rattle.std.specs.Prelude.{Some, codes};
ghost use Rattle.rc_outside.specs.ReadFail.{read_fail_text};

use std::error::Error;
use std::fmt;

/// A call of a source or a sink that failed. Its count of faults says so too.
#[derive(Clone, Copy, Debug, PartialEq, Eq, Hash)]
pub struct Failed;

impl fmt::Display for Failed {
    ghost output = { λ _. Some (codes "a read or a write failed") };

    fn fmt<W: fmt::Write>(&self, f: &mut fmt::Formatter<W>) -> fmt::Result {
        f.write_str("a read or a write failed")
    }
}

impl Error for Failed {}

/// Why a source was not read to its end.
#[derive(Clone, Copy, Debug, PartialEq, Eq, Hash)]
pub enum ReadFail {
    /// A read of the source failed.
    ReadFault,
    /// The source gave more bytes than the limit.
    TooLong,
    /// There was no memory for the bytes.
    Memory,
}

impl fmt::Display for ReadFail {
    ghost output = { λ fail. Some (read_fail_text fail) };

    fn fmt<W: fmt::Write>(&self, f: &mut fmt::Formatter<W>) -> fmt::Result {
        f.write_str(match self {
            ReadFail::ReadFault => "a read failed",
            ReadFail::TooLong => "the input is too long",
            ReadFail::Memory => "out of memory",
        })
    }
}

impl Error for ReadFail {}

/// A write of a sink failed, and the rest of a piece was not written.
#[derive(Clone, Copy, Debug, PartialEq, Eq, Hash)]
pub struct WriteFault;

impl fmt::Display for WriteFault {
    ghost output = { λ _. Some (codes "a write failed") };

    fn fmt<W: fmt::Write>(&self, f: &mut fmt::Formatter<W>) -> fmt::Result {
        f.write_str("a write failed")
    }
}

impl Error for WriteFault {}

/// There was no memory for a [`Room`](crate::Room).
#[derive(Clone, Copy, Debug, PartialEq, Eq, Hash)]
pub struct NoRoom;

impl fmt::Display for NoRoom {
    ghost output = { λ _. Some (codes "out of memory") };

    fn fmt<W: fmt::Write>(&self, f: &mut fmt::Formatter<W>) -> fmt::Result {
        f.write_str("out of memory")
    }
}

impl Error for NoRoom {}
