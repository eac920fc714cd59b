//! The first word of a key.
ghost use Rattle.std.specs.Prelude.{◌≡◌};
ghost use Rattle.rand_chacha.specs.ChaCha.{word_at};

use crate::block::{first_rows, last_rows};
use crate::rounds::add;

/// How many words there are.
pub(crate) const WORDS: u64 = 1 << 32;

/// The first word of the key of these words. It stands in line, so that the compiler leaves out what this word doesn't
/// need of the last round, and makes once what the keys of a loop have in common.
#[inline(always)]
pub(crate) fn first_word(key: [u32; 8]) -> u32
    ensures { result ≡ word_at 4 key 0 0 }
{
    let first = first_rows(key, 0);
    let last = last_rows(first);
    add(last.0, first.0).to_array()[0]
}
