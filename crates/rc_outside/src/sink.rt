ghost use Rattle.std.specs.Prelude.{◌≡◌, ℕ, ◌<◌, ◌≤◌, List, Option, length, take, IfOk, OnOk, OnErr};
ghost use Rattle.rc_outside.specs.Faults.{Rose};
ghost use Rattle.rc_outside.specs.Sink.{Got};

use crate::Failed;

/// A place where bytes are written in pieces, one after another.
pub trait Sink {
    // The bytes that were written, where the sink tells them.
    ghost written: { Self → Option (List ℕ) };

    // How many writes have failed. The count stays at 2^64 - 1.
    ghost faults: { Self → ℕ };

    /// Writes bytes from the front of `piece` and returns how many, from 1 to the length of
    /// `piece`. A write that fails writes nothing.
    fn write(&mut self, piece: &[u8]) -> Result<usize, Failed>
        requires { 0 < length piece.now }

        ensures some { IfOk result (λ count. 1 ≤ count) }
        ensures within { IfOk result (λ count. count ≤ length piece.now) }
        ensures appends { IfOk result
            (λ count. Got (written self.old) (written self.new) (take count piece.now)) }

        ensures cause { OnErr result (Rose (faults self.old) (faults self.new)) }
        ensures steady { OnOk result (faults self.new ≡ faults self.old) }
        ensures kept { OnErr result (written self.new ≡ written self.old) }

        ensures counted { faults self.old ≤ faults self.new };
}
