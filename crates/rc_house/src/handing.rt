//! What goes to the ports at the end of a command.
ghost use Rattle.std.specs.Prelude.{◌≡◌, ◌≤◌};
ghost use Rattle.rc_house.specs.Port.{Delivers, Took, between};
ghost use Rattle.rc_house.specs.Running.{Concludes};
ghost use Rattle.rc_house.specs.Status.{line_of};

use crate::answer::Answer;
use crate::status::Status;
use rc_outside::{Sink, write_all};

/// Notes a refusal, whether that succeeds or not.
pub fn refuse<N: Sink>(notes: &mut N, status: Status) -> Status
    ensures status { result ≡ status }
    ensures noted { between N.written N.faults notes.old notes.new Took (line_of status) }
    ensures counted { N.faults notes.old ≤ N.faults notes.new }
{
    let _ = write_all(notes, status.line().as_str().as_bytes());
    status
}

/// Writes a text, and then its note.
fn deliver<O: Sink, N: Sink>(out: &mut O, notes: &mut N, text: &[u8], note: &[u8]) -> Status
    ensures ends { between N.written N.faults notes.old notes.new
        (between O.written O.faults out.old out.new (Delivers text.now note.now)) result }
    ensures out_counted { O.faults out.old ≤ O.faults out.new }
    ensures notes_counted { N.faults notes.old ≤ N.faults notes.new }
{
    if write_all(out, text).is_err() {
        return refuse(notes, Status::WriteFault);
    }
    match write_all(notes, note) {
        Ok(()) => Status::Done,
        Err(_) => Status::WriteFault,
    }
}

/// Writes what a command answers, or notes why it writes no text.
pub(crate) fn conclude<O: Sink, N: Sink>(
    out: &mut O,
    notes: &mut N,
    answered: Result<Answer, Status>,
) -> Status
    ensures concludes { between N.written N.faults notes.old notes.new
        (between O.written O.faults out.old out.new (Concludes answered)) result }
    ensures out_counted { O.faults out.old ≤ O.faults out.new }
    ensures notes_counted { N.faults notes.old ≤ N.faults notes.new }
{
    match answered {
        Ok(Answer::Text(text, note)) => {
            deliver(out, notes, &text, note.line().as_str().as_bytes())
        }
        Ok(Answer::Refused(refusal)) => refuse(notes, Status::from(refusal)),
        Err(status) => refuse(notes, status),
    }
}
