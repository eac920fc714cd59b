ghost use Rattle.std.specs.Prelude.{◌≡◌, ◌≤◌, ◌↔◌, IsTrue};
ghost use Rattle.rc_outside.specs.Faults.{next_count};
ghost use Rattle.rc_outside.specs.Calls.{Numbered, IsToFail, no_call};

use crate::Failed;
use std::marker::Model;

/// Numbers the calls of a source or sink in memory from 0, and counts those that fail. Both numbers
/// stay at `u64::MAX`.
#[derive(Debug, Drop)]
pub(crate) struct Calls {
    next: u64,
    fails: Vec<u64>,
    faults: u64,
}

impl Model for Calls {
    ghost Value = { Numbered };

    ghost view = { λ c. record { next = c.next; fails = c.fails.items; faults = c.faults } };
}

impl Calls {
    pub(crate) fn new(fails: Vec<u64>) -> Calls
        ensures { result ≡ no_call fails.items }
    {
        Calls {
            next: 0,
            fails,
            faults: 0,
        }
    }

    pub(crate) fn faults(&self) -> u64
        ensures { result ≡ self.now.faults }
    {
        self.faults
    }

    /// Numbers the call that begins, and says whether it has to fail.
    pub(crate) fn begin(&mut self) -> bool
        ensures fails { IsTrue result ↔ IsToFail self.old }
        ensures numbered { self.new ≡ record self.old { next = next_count self.old.next } }
    {
        let fails = self.fails.contains(&self.next);
        self.next = self.next.saturating_add(1);
        fails
    }

    /// Counts the failure of the call that has begun.
    pub(crate) fn fail(&mut self) -> Failed
        ensures failed { self.new ≡ record self.old { faults = next_count self.old.faults } }
        ensures counted { self.old.faults ≤ self.new.faults }
    {
        self.faults = self.faults.saturating_add(1);
        Failed
    }
}
