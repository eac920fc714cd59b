//! Picks by keys of four numbers that differ in the lower half of the last.
ghost use Rattle.std.specs.Prelude.{◌≡◌, ◌<◌};
ghost use Rattle.rand_chacha.specs.ChaCha.{key_of};
ghost use Rattle.rc_play_spec.specs.Draws as draws;
ghost use Rattle.rc_draw.specs.Sequence.{key_at};

use crate::word::{WORDS, first_word};
use rc_play_spec::keys_pick_and_permute;
use std::marker::Model;

/// The keys of four numbers whose last has a given upper half. Its lower half numbers them.
#[derive(Debug, Drop)]
pub struct KeySequence {
    a: u64,
    b: u64,
    c: u64,
    upper: u32,
}

impl Model for KeySequence {
    ghost use Rattle.rc_draw.specs.Sequence.{Sequence};

    ghost Value = { Sequence };

    ghost view = { λ s. record { a = s.a; b = s.b; c = s.c; upper = s.upper } };
}

impl KeySequence {
    /// The keys of these numbers.
    pub fn new(a: u64, b: u64, c: u64, upper: u32) -> KeySequence
        ensures { result ≡ record { a = a; b = b; c = c; upper = upper } }
    {
        KeySequence { a, b, c, upper }
    }

    /// The pick below n of the key of this number, by its first word. Below 1 it is 0 whatever the word, and none is
    /// generated.
    pub fn pick(&self, number: u32, n: u32) -> u32
        requires { 0 < n }
        ensures value { result ≡ draws.pick_of (key_at self.now number) n }
        ensures bound { result < n }
    {
        keys_pick_and_permute();
        if n == 1 {
            return 0;
        }
        let key = words_of_numbered(self.a, self.b, self.c, self.upper, number);
        (first_word(key) as u64 * n as u64 / WORDS) as u32
    }
}

// The eight words of the key of this number.
#[inline(always)]
fn words_of_numbered(a: u64, b: u64, c: u64, upper: u32, number: u32) -> [u32; 8]
    ensures { result ≡ key_of (key_at (record { a = a; b = b; c = c; upper = upper }) number) }
{
    [
        (a % WORDS) as u32,
        (a / WORDS) as u32,
        (b % WORDS) as u32,
        (b / WORDS) as u32,
        (c % WORDS) as u32,
        (c / WORDS) as u32,
        number,
        upper,
    ]
}
