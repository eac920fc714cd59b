//! Logs, read.
ghost use Rattle.std.specs.Prelude.{◌≡◌, ℕ, List, ◌<◌, ◌≤◌, length, Ok, Err, IfOk, IfErr};
ghost use Rattle.rc_play_spec.specs.View.{View as PureView};
ghost use Rattle.rc_log_spec.specs.Log.{LogText as PureText, text_of, log_text, log, largest_word, IsLog};
ghost use Rattle.rc_log_spec.specs.Reading.{read_log};
ghost use Rattle.rc_log_spec.specs.Laws.{IsFirstFaultOf, AllCount};
ghost use Rattle.rc_seatlog.specs.Seen.{log_seen};
ghost use Rattle.rc_seatlog.specs.Gives.{Gives, IfLogFault, IsOfViews};

use crate::places::{Progress, take_bytes};
use crate::told::LogText;
use rc_deck::Memory;
use rc_log_spec::{faults_are_first, logs_are_read, logs_tell_views};
use rc_table::Shape;
use rc_text::fields::first_line;
use std::alloc::Global;

/// Why a log isn't read.
#[derive(Clone, Copy, PartialEq, Eq, Debug)]
pub enum LogFail {
    /// The text is no log of a seat of the shape. This is the number of its first line, counted from 1, that can't
    /// stand there: the lines before it begin a log, and with it they begin none. Where the text ends too early, it is
    /// the number of lines plus 1.
    Fault { line: u32 },
    /// Memory ran out.
    Memory,
}

impl From<Memory> for LogFail {
    ghost use Rattle.std.specs.Prelude.{◌≡◌};
    ghost use Rattle.rc_seatlog.specs.declared.reading.LogFail.TheVariants as fail;

    ghost from_gives = { λ _ e. e ≡ fail.Memory };

    fn from(_: Memory) -> LogFail {
        LogFail::Memory
    }
}

/// Reads the log of a seat of the shape. Each line ends with LF, each number is within the range of its place, and each
/// value has one spelling.
///
/// # Errors
///
/// The text is no such log, or memory ran out.
pub fn read_log(alloc: Global, shape: &Shape, bytes: &[u8]) -> Result<LogText, LogFail>
    requires short { length bytes.now ≤ 33554432 }

    // What is read is a log of the shape with the bytes as its text.
    ensures text { IfOk result (λ text. IsLog shape.now (log_seen text)) }
    ensures spelled { IfOk result (λ text. bytes.now ≡ text_of (log_seen text)) }

    // The bytes of any log of the shape are read as that one.
    ensures again { (told : PureText) → IsLog shape.now told → bytes.now ≡ text_of told → Gives result (Ok told) }

    // What is read is the log of views of the seat, and the bytes of the log of such views are read as that one.
    ensures of { IfOk result (λ text. IsOfViews shape.now (log_seen text)) }
    ensures log { (seat number : ℕ) (views : List PureView) → seat < shape.now.players → number ≤ largest_word
        → AllCount shape.now seat views → bytes.now ≡ log seat number views
        → Gives result (Ok (log_text seat number views)) }

    // A fault is at the first line that no log of the shape goes on with, and where there is such a line, it is found.
    ensures fault { IfErr result (λ fail. IfLogFault fail (IsFirstFaultOf shape.now bytes.now)) }
    ensures first { (line : ℕ) → IsFirstFaultOf shape.now bytes.now line → Gives result (Err line) }

    ensures exact { Gives result (read_log shape.now bytes.now) }
{
    // what a shape keeps
    let _players = shape.players();
    logs_are_read();
    faults_are_first();
    logs_tell_views();
    read_lines(alloc, shape, bytes)
}

// Reads the lines in turn.
fn read_lines(alloc: Global, shape: &Shape, bytes: &[u8]) -> Result<LogText, LogFail>
    requires short { length bytes.now ≤ 33554432 }
    ensures { Gives result (read_log shape.now bytes.now) }
{
    let mut place = Progress::Outside;
    let mut number: u32 = 1;
    let mut rest = bytes;
    while let Some((line, later)) = first_line(rest) {
        let Some(next) = take_bytes(alloc, shape, place, line)? else {
            return Err(LogFail::Fault { line: number });
        };
        place = next;
        number += 1;
        rest = later;
    }
    if !rest.is_empty() {
        return Err(LogFail::Fault { line: number });
    }
    match place {
        Progress::Ended(text) => Ok(text),
        _ => Err(LogFail::Fault { line: number }),
    }
}
