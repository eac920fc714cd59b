ghost use Rattle.std.specs.Prelude.{◌≡◌, ◌<◌, ◌≤◌, ◌↔◌, [], Some, length, take, IfOk, IsErr, OnErr};
ghost use Rattle.rc_outside.specs.Calls.{IsToFail, no_call};
ghost use Rattle.rc_outside.specs.Supply.{Supply, given_count, supply_after_read, supply_after_failure};

use crate::calls::Calls;
use crate::{Failed, Plain, Source};
use std::marker::Model;

/// A source over bytes in memory that gives them in pieces and fails at chosen calls.
///
/// Calls are numbered from 0, and a number stays at `u64::MAX`. Each failure raises the count of
/// faults by one, which stays at `u64::MAX` too.
#[derive(Debug, Drop)]
pub struct Bytes {
    content: Plain,
    chunk: usize,
    calls: Calls,
}

impl Model for Bytes {
    ghost Value = { Supply };

    ghost view = { λ b. record { left = b.content; chunk = b.chunk; calls = b.calls } };

    ghost invariant = { λ b. 1 ≤ b.chunk };
}

impl Bytes {
    /// A source of these bytes. A call gives at most `chunk` bytes, and fails where its number
    /// stands in `fails`.
    pub fn new(content: Vec<u8>, chunk: usize, fails: Vec<u64>) -> Bytes
        requires { 1 ≤ chunk }
        ensures { result
            ≡ record { left = content.items; chunk = chunk; calls = no_call fails.items } }
    {
        Bytes {
            content: Plain::new(content),
            chunk,
            calls: Calls::new(fails),
        }
    }

    /// How many reads have failed.
    pub fn faults(&self) -> u64
        ensures { result ≡ self.now.calls.faults }
    {
        self.calls.faults()
    }
}

impl Source for Bytes {
    ghost left = { λ b. Some b.left };

    ghost faults = { λ b. b.calls.faults };

    fn read(&mut self, buf: &mut [u8]) -> Result<usize, Failed>
        requires { 0 < length buf.old }

        ensures fails { IsErr result ↔ IsToFail self.old.calls }
        ensures count { IfOk result (λ count. count ≡ given_count self.old (length buf.old)) }
        ensures bytes { IfOk result (λ count. take count buf.new ≡ take count self.old.left) }
        ensures ok { IfOk result (λ count. self.new ≡ supply_after_read self.old count) }
        ensures err { OnErr result (self.new ≡ supply_after_failure self.old) }

        // With these two, what any source ensures follows.
        ensures end { IfOk result (λ count. count ≡ 0 → self.old.left ≡ []) }
        ensures counted { self.old.calls.faults ≤ self.new.calls.faults }
    {
        if self.calls.begin() {
            return Err(self.calls.fail());
        }
        Ok(self.content.give(buf, self.chunk))
    }
}
