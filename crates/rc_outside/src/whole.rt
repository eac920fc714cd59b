//! Reading to the end, and writing a whole piece.
ghost use Rattle.std.specs.Prelude.{◌≡◌, ◌≢◌, ℕ, ◌+◌, ◌<◌, ◌≤◌, ◌↔◌, List, [], length, vec_len, IfOk, IfErr, IsOk, OnOk, OnErr};
ghost use Rattle.rc_outside.specs.Faults.{Rose};
ghost use Rattle.rc_outside.specs.Source.{Gave, IsAtEnd, longest_read};
ghost use Rattle.rc_outside.specs.Sink.{Got, GotFront};

use crate::{ReadFail, Sink, Source, WriteFault};
use std::alloc::Global;

/// How many bytes a read asks for.
const PIECE: usize = 4096;

/// Reads a source to its end, unless it gives more than `limit` bytes. After an error the bytes that
/// were taken are lost.
pub fn read_all<S: Source>(alloc: Global, source: &mut S, limit: usize) -> Result<Vec<u8>, ReadFail>
    ensures within { IfOk result (λ all. vec_len all ≤ limit) }
    ensures whole { IfOk result (λ all. Gave (S.left source.old) (S.left source.new) all.items) }
    ensures end { OnOk result (IsAtEnd (S.left source.new)) }

    // A read failed exactly where this is the answer.
    ensures cause { result ≡ Err ReadFail.ReadFault
        → Rose (S.faults source.old) (S.faults source.new) }
    ensures steady { result ≢ Err ReadFail.ReadFault
        → S.faults source.new ≡ S.faults source.old }

    // After an error the source lacks the bytes that were taken, which are the front of what it had,
    // and `TooLong` comes exactly where these are more than the limit, by no more than one read.
    ensures lost { IfErr result (λ fail. (taken : List ℕ)
        × Gave (S.left source.old) (S.left source.new) taken
        × ((fail ≡ ReadFail.TooLong) ↔ (limit < length taken))
        × (length taken ≤ limit + longest_read)) }

    ensures counted { S.faults source.old ≤ S.faults source.new }
{
    let mut all = Vec::new(alloc);
    let mut piece = [0; PIECE];
    loop {
        let Ok(count) = source.read(&mut piece) else {
            return Err(ReadFail::ReadFault);
        };
        if count == 0 {
            return Ok(all);
        }
        if limit - all.len() < count {
            return Err(ReadFail::TooLong);
        }
        if all.extend_from_slice(&piece[..count]).is_err() {
            return Err(ReadFail::Memory);
        }
    }
}

/// Writes all of a piece to a sink. Each write is given all that is left of the piece; an empty
/// piece makes no call.
pub fn write_all<O: Sink>(sink: &mut O, piece: &[u8]) -> Result<(), WriteFault>
    ensures ok { OnOk result (Got (O.written sink.old) (O.written sink.new) piece.now) }
    ensures empty { piece.now ≡ [] → IsOk result × (sink.new ≡ sink.old) }

    ensures cause { OnErr result (Rose (O.faults sink.old) (O.faults sink.new)) }
    ensures steady { OnOk result (O.faults sink.new ≡ O.faults sink.old) }
    ensures front { OnErr result (GotFront (O.written sink.old) (O.written sink.new) piece.now) }

    ensures counted { O.faults sink.old ≤ O.faults sink.new }
{
    let mut done = 0;
    while done < piece.len() {
        let Ok(count) = sink.write(&piece[done..]) else {
            return Err(WriteFault);
        };
        done += count;
    }
    Ok(())
}
