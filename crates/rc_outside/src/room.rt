ghost use Rattle.std.specs.Prelude.{◌≡◌, ◌<◌, ◌≤◌, ◌↔◌, Some, [], length, take, vec_len, vec_capacity, IfOk, IsErr, OnErr};
ghost use Rattle.rc_outside.specs.Calls.{no_call};
ghost use Rattle.rc_outside.specs.Store.{Store, Refuses, taken_count, store_after_write, store_after_failure};

use crate::calls::Calls;
use crate::{Failed, NoRoom, Sink};
use std::alloc::Global;
use std::marker::Model;

/// A sink in memory of a fixed size that takes bytes in pieces and fails where it is full and at
/// chosen calls.
///
/// Calls are numbered from 0, and a number stays at `u64::MAX`. Each failure raises the count of
/// faults by one, which stays at `u64::MAX` too.
#[derive(Debug, Drop)]
pub struct Room {
    written: Vec<u8>,
    room: usize,
    chunk: usize,
    calls: Calls,
}

impl Model for Room {
    ghost Value = { Store };

    ghost view = { λ r. record {
      written = r.written.items;
      room = r.room;
      chunk = r.chunk;
      calls = r.calls;
    } };

    // The memory for all of the room was taken when the sink was made.
    ghost invariant = { λ r.
        (vec_len r.written ≤ r.room) × (r.room ≤ vec_capacity r.written) × (1 ≤ r.chunk) };
}

impl Room {
    /// An empty sink with room for `room` bytes, all of whose memory it takes here. A call takes at
    /// most `chunk` bytes, and fails where its number stands in `fails` or the room is full.
    pub fn new(alloc: Global, room: usize, chunk: usize, fails: Vec<u64>) -> Result<Room, NoRoom>
        requires { 1 ≤ chunk }
        ensures { IfOk result
            (λ r. r ≡ record {
              written = [];
              room = room;
              chunk = chunk;
              calls = no_call fails.items;
            }) }
    {
        let Ok(written) = Vec::with_capacity(alloc, room) else {
            return Err(NoRoom);
        };
        Ok(Room {
            written,
            room,
            chunk,
            calls: Calls::new(fails),
        })
    }

    /// The bytes that were written.
    pub fn written_bytes(&self) -> &[u8]
        ensures { result.now ≡ self.now.written }
    {
        self.written.as_slice()
    }

    /// How many writes have failed.
    pub fn faults(&self) -> u64
        ensures { result ≡ self.now.calls.faults }
    {
        self.calls.faults()
    }
}

impl Sink for Room {
    ghost written = { λ r. Some r.written };

    ghost faults = { λ r. r.calls.faults };

    fn write(&mut self, piece: &[u8]) -> Result<usize, Failed>
        requires { 0 < length piece.now }

        ensures fails { IsErr result ↔ Refuses self.old }
        ensures count { IfOk result (λ count. count ≡ taken_count self.old (length piece.now)) }
        ensures ok { IfOk result
            (λ count. self.new ≡ store_after_write self.old (take count piece.now)) }
        ensures err { OnErr result (self.new ≡ store_after_failure self.old) }

        // With these two, what any sink ensures follows.
        ensures some { IfOk result (λ count. 1 ≤ count) }
        ensures counted { self.old.calls.faults ≤ self.new.calls.faults }
    {
        let left = self.room - self.written.len();
        let fails = self.calls.begin();
        if fails || left == 0 {
            return Err(self.calls.fail());
        }
        let count = piece.len().min(self.chunk).min(left);
        self.written.extend_from_slice(&piece[..count]).unwrap();
        Ok(count)
    }
}
