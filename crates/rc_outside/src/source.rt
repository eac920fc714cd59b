ghost use Rattle.std.specs.Prelude.{◌≡◌, ℕ, ◌<◌, ◌≤◌, List, [], Option, Some, length, take, IfOk, OnOk, OnErr};
ghost use Rattle.rc_outside.specs.Faults.{Rose};
ghost use Rattle.rc_outside.specs.Source.{Gave, IsAtEnd};

use crate::Failed;

/// Bytes that are read in pieces, from the front to the end.
pub trait Source {
    // The bytes that are left, where the source tells them.
    ghost left: { Self → Option (List ℕ) };

    // How many reads have failed. The count stays at 2^64 - 1.
    ghost faults: { Self → ℕ };

    /// Reads the next bytes into the front of `buf` and returns how many, from 0 to the length of
    /// `buf`. 0 is the end of the input. What the rest of `buf` holds afterwards is left open. A
    /// read that fails takes nothing from the source.
    fn read(&mut self, buf: &mut [u8]) -> Result<usize, Failed>
        requires { 0 < length buf.old }

        ensures within { IfOk result (λ count. count ≤ length buf.new) }
        ensures gives { IfOk result
            (λ count. Gave (left self.old) (left self.new) (take count buf.new)) }

        // 0 comes at the end only, and always there.
        ensures end { IfOk result (λ count. count ≡ 0 → IsAtEnd (left self.new)) }
        ensures at_end { left self.old ≡ Some [] → IfOk result (λ count. count ≡ 0) }

        ensures cause { OnErr result (Rose (faults self.old) (faults self.new)) }
        ensures steady { OnOk result (faults self.new ≡ faults self.old) }
        ensures kept { OnErr result (left self.new ≡ left self.old) }

        ensures counted { faults self.old ≤ faults self.new };
}
