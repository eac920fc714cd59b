//! The bytes of an atom, where they stand in its text.

use rc_base::Word;
use std::marker::Model;

/// 1 to 64 bytes that may stand in an atom, borrowed from a text. Contracts see the list of them.
#[derive(Drop)]
pub struct WordRef<'t> {
    bytes: &'t [u8],
}

impl<'t> Model for WordRef<'t> {
    ghost use Rattle.std.specs.Prelude.{ℕ, List};

    ghost Value = { List ℕ };

    ghost use Rattle.rc_form.specs.WordRef.{IsWord};

    ghost view = { λ w. w.bytes.now };

    ghost invariant = { IsWord };
}

impl<'t> WordRef<'t> {
    ghost use Rattle.std.specs.Prelude.{◌≡◌, ◌≤◌, length, IsTrue};
    ghost use Rattle.std.specs.List.{list_all};
    ghost use Rattle.rc_base.specs.Token.{is_part};

    /// The word of these bytes, which are 1 to 64 that may stand in an atom.
    pub fn of(bytes: &'t [u8]) -> WordRef<'t>
        requires some { 1 ≤ length bytes.now }
        requires short { length bytes.now ≤ 64 }
        requires parts { IsTrue (list_all is_part bytes.now) }
        ensures { result ≡ bytes.now }
    {
        WordRef { bytes }
    }

    /// Its bytes, of which there are 1 to 64.
    pub fn bytes(&self) -> &'t [u8]
        ensures bytes { result.now ≡ self.now }
        ensures some { 1 ≤ length result.now }
        ensures short { length result.now ≤ 64 }
        ensures parts { IsTrue (list_all is_part result.now) }
    {
        self.bytes
    }

    /// A copy, which needs no text.
    pub fn to_word(&self) -> Word
        ensures { result ≡ self.now }
    {
        Word::of(self.bytes)
    }
}
