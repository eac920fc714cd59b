//! Draws: keys made of four numbers, and the picks and the shuffles that a key decides.
//!
//! A key has a sequence of words of 32 bits, those of the generator ChaCha8. What is drawn by a key depends on the key
//! alone. For a pick its first word is generated, and for a shuffle blocks of 16 words, as many as it takes.
//!
//! Stands on rc_play_spec, never on rc_ast.
#![tactic(auto)]

mod block;
mod purpose;
mod rounds;
mod sequence;
mod word;

ghost use Rattle.std.specs.Prelude.{◌≡◌, ◌<◌, ◌≤◌, ◌+◌, ◌-◌, ◌*◌, ◌⊎◌, length};
ghost use Rattle.std.specs.List.Sorted.{IsPermutation};
ghost use Rattle.rc_base.specs.Limits.{most_cards};
ghost use Rattle.rc_base.specs.Numbers.{below};
ghost use Rattle.rc_play_spec.specs.Draws as draws;
ghost use Rattle.rc_play_spec.specs.Table.{taken};

use crate::block::{BLOCK_WORDS, words_of_block, words_of_key};
use crate::word::{WORDS, first_word};
pub use purpose::Purpose;
use rc_play_spec::keys_pick_and_permute;
pub use sequence::KeySequence;

/// The key of four numbers, one behind the other with their lowest bytes first.
pub fn key32(a: u64, b: u64, c: u64, d: u64) -> [u8; 32]
    ensures { result ≡ draws.key32 a b c d }
{
    let mut key = [0u8; 32];
    key[0..8].copy_from_slice(&a.to_le_bytes());
    key[8..16].copy_from_slice(&b.to_le_bytes());
    key[16..24].copy_from_slice(&c.to_le_bytes());
    key[24..32].copy_from_slice(&d.to_le_bytes());
    key
}

/// A word as a number below n: n times the part of all words that lies below it, rounded down.
fn scale_word(word: u32, n: u32) -> u32
    requires { 0 < n }
    ensures value { result ≡ draws.scaled word n }
    ensures bound { result < n }
{
    (word as u64 * n as u64 / WORDS) as u32
}

/// The pick of a key below n, by its first word. Below 1 it is 0 whatever the word, and none is drawn.
pub fn pick_by(key: &[u8; 32], n: u32) -> u32
    requires { 0 < n }
    ensures value { result ≡ draws.pick_of key.now n }
    ensures bound { result < n }
{
    if n == 1 {
        keys_pick_and_permute();
        return 0;
    }
    scale_word(first_word(words_of_key(key)), n)
}

// Goes on with a shuffle by the words of a block: for each place from the last one left down to the second, as long as
// there are words. The answer is how many places are left.
#[inline(always)]
fn shuffle_by_block(key: &[u8; 32], number: u32, list: &mut [u16], left: usize) -> usize
    requires some { 1 < left }
    requires few { left ≤ length list.old }
    requires small { length list.old ≤ most_cards }
    ensures same { length list.new ≡ length list.old }
    ensures left { (result ≤ 1) ⊎ (result + 16 ≡ left) }
    ensures permuted { draws.permuted_by (draws.word_of key.now) (16 * number + (left - result)) result list.new
        ≡ draws.permuted_by (draws.word_of key.now) (16 * number) left list.old }
{
    let words = words_of_block(key, number);
    let count = (left - 1).min(BLOCK_WORDS);
    'words: for place in 0..count {
        let z = left - place;
        let at = scale_word(words[place], z as u32) as usize;
        list.swap(at, z - 1);
    }
    left - count
}

/// Puts a list of at most 512 items into the order of a key. From the last place down to the second, each takes what
/// stands at a place up to it by the key's next word, and gives what it had. A list of fewer than two items stays.
pub fn shuffle_by(key: &[u8; 32], list: &mut [u16])
    requires { length list.old ≤ most_cards }
    ensures order { list.new ≡ draws.permuted key.now list.old }
    ensures permuted { IsPermutation list.old list.new }
{
    keys_pick_and_permute();
    let mut left = list.len();
    let mut number = 0;
    'rest: while left > 1 {
        left = shuffle_by_block(key, number, list, left);
        number += 1;
    }
}

/// Puts a list of at most 512 items into the order of the key of these numbers.
pub fn put_in_order(a: u64, b: u64, c: u64, d: u64, list: &mut [u16])
    requires few { length list.old ≤ most_cards }
    ensures taken { list.new ≡ taken (draws.keyed.order a b c d (length list.old)) list.old }
    ensures order { IsPermutation (below (length list.old)) (draws.keyed.order a b c d (length list.old)) }
{
    keys_pick_and_permute();
    let key = key32(a, b, c, d);
    shuffle_by(&key, list);
}
