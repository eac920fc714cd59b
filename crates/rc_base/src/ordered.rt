//! Words in order.
ghost use Rattle.std.specs.Prelude.{◌≡◌, Some, nat_eq, refl};
ghost use Rattle.std.specs.Ordering.{nat_cmp};
ghost use Rattle.std.specs.Cmp.{partial_equiv_from_equiv};
ghost use Rattle.std.specs.Cmp.Lexicographic.{pointwise, slice_cmp, nat_list_eq_equiv, nat_list_cmp_total, texts_po, texts_ties};

use crate::Word;
use std::cmp::Ordering;
use std::marker::Model;

/// A word among others in the order of their bytes. Contracts see the list of its bytes.
#[derive(Clone, Copy, Debug)]
pub struct OrderedWord {
    word: Word,
}

impl Model for OrderedWord {
    ghost use Rattle.std.specs.Prelude.{ℕ, List, refl};

    ghost Value = { List ℕ };

    ghost view = { λ ordered. ordered.word };

    ghost inverse = { λ bytes. record { word = bytes } };

    ghost inverse_ok = { λ ordered valid. refl };
}

impl OrderedWord {
    /// The word in its order.
    pub fn of(word: Word) -> OrderedWord
        ensures { result ≡ word }
    {
        OrderedWord { word }
    }

    /// The word.
    pub fn word(&self) -> Word
        ensures { result ≡ self.now }
    {
        self.word
    }
}

impl PartialEq for OrderedWord {
    ghost eq = { pointwise nat_eq };

    ghost laws = { partial_equiv_from_equiv nat_list_eq_equiv };

    fn eq(&self, other: &OrderedWord) -> bool {
        self.word == other.word
    }
}

impl Eq for OrderedWord {
    ghost laws = { nat_list_eq_equiv };
}

impl PartialOrd for OrderedWord {
    ghost partial_cmp = { λ a b. Some (slice_cmp nat_cmp a b) };

    ghost laws = { texts_po };

    fn partial_cmp(&self, other: &OrderedWord) -> Option<Ordering> {
        Some(self.cmp(other))
    }
}

impl Ord for OrderedWord {
    ghost cmp = { slice_cmp nat_cmp };

    ghost total = { nat_list_cmp_total };

    ghost matches_partial_cmp = { λ a b. refl };

    ghost matches_eq = { texts_ties };

    fn cmp(&self, other: &OrderedWord) -> Ordering {
        self.word.bytes().cmp(other.word.bytes())
    }
}
