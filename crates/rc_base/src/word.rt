//! The bytes of an atom.

ghost use Rattle.std.specs.Prelude.{◌≡◌, [], ◌∷◌, nat_eq};
ghost use Rattle.std.specs.Cmp.Lexicographic.{pointwise};
ghost use Rattle.std.specs.Cmp.Rules.{comparing, hashing};
ghost use Rattle.std.proofs.Common.{rules};

use crate::limits::MOST_BYTES;
use std::hash::{Hash, Hasher};
use std::marker::Model;

/// 1 to 64 bytes that may stand in an atom. Contracts see the list of them.
#[derive(Clone, Copy, Debug)]
pub struct Word {
    bytes: [u8; MOST_BYTES],
    count: usize,
}

impl Model for Word {
    ghost use Rattle.std.specs.Prelude.{ℕ, List, take};

    ghost Value = { List ℕ };

    ghost use Rattle.rc_base.specs.Word.{IsWord, fields_of, fields_of-take};

    ghost view = { λ w. take w.count w.bytes };

    ghost invariant = { IsWord };

    ghost inverse = { fields_of };

    ghost inverse_ok = { fields_of-take };
}

impl Word {
    ghost use Rattle.std.specs.Prelude.{◌≡◌, ◌≤◌, length, IsTrue};
    ghost use Rattle.std.specs.List.{list_all};
    ghost use Rattle.rc_base.specs.Token.{is_part};

    /// The word of these bytes, which are 1 to 64 that may stand in an atom.
    pub fn of(bytes: &[u8]) -> Word
        requires some { 1 ≤ length bytes.now }
        requires short { length bytes.now ≤ 64 }
        requires parts { IsTrue (list_all is_part bytes.now) }
        ensures { result ≡ bytes.now }
    {
        let mut copied = [0; MOST_BYTES];
        copied[..bytes.len()].copy_from_slice(bytes);
        Word {
            bytes: copied,
            count: bytes.len(),
        }
    }

    /// Its bytes, of which there are 1 to 64.
    pub fn bytes(&self) -> &[u8]
        ensures bytes { result.now ≡ self.now }
        ensures some { 1 ≤ length result.now }
        ensures short { length result.now ≤ 64 }
        ensures parts { IsTrue (list_all is_part result.now) }
    {
        &self.bytes[..self.count]
    }
}

// Words are compared and hashed by their bytes, and not by the zeros behind them: most are short.
impl PartialEq for Word {
    ghost eq = { pointwise nat_eq };

    ghost laws = { Prim.search (comparing, rules) };

    fn eq(&self, other: &Word) -> bool {
        is_same(self.bytes(), other.bytes())
    }
}

impl Eq for Word {
    ghost laws = { Prim.search (comparing, rules) };
}

impl Hash for Word {
    ghost hash_input = { λ word. word ∷ [] };

    ghost respects_eq = { Prim.search (hashing, rules) };

    fn hash<H: Hasher>(&self, state: &mut H) {
        state.write(self.bytes());
    }
}

/// Whether these bytes are the same. It is made for words: most are short, and differ in length or in an early byte.
pub fn is_same(bytes: &[u8], others: &[u8]) -> bool
    ensures { result ≡ pointwise nat_eq bytes.now others.now }
{
    if bytes.len() != others.len() {
        return false;
    }
    for (byte, other) in bytes.iter().zip(others) {
        if *byte != *other {
            return false;
        }
    }
    true
}
