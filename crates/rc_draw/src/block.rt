//! The words of a key, a block of 16 of them at a time.
ghost use Rattle.std.specs.Prelude.{◌≡◌, ℕ, ◌+◌, ◌*◌, ◌<◌, slice_index};
ghost use Rattle.rand_chacha.specs.Block.{double_rounds, initial_state};
ghost use Rattle.rand_chacha.specs.ChaCha.{key_of};
ghost use Rattle.rc_play_spec.specs.Draws as draws;
ghost use Rattle.rc_draw.specs.Rows.{state_of};

use crate::rounds::{StateRows, add, column_round, diagonal_round};
use rand_core::utils::read_u32;
use std::simd::u32x4;

/// How many words a block has.
pub(crate) const BLOCK_WORDS: usize = 16;

/// The eight words of a key.
#[inline(always)]
pub(crate) fn words_of_key(key: &[u8; 32]) -> [u32; 8]
    ensures { result ≡ key_of key.now }
{
    [
        read_u32(key, 0),
        read_u32(key, 1),
        read_u32(key, 2),
        read_u32(key, 3),
        read_u32(key, 4),
        read_u32(key, 5),
        read_u32(key, 6),
        read_u32(key, 7),
    ]
}

/// The state that a block of the key of these words is made of.
#[inline(always)]
pub(crate) fn first_rows(key: [u32; 8], number: u32) -> StateRows
    ensures { state_of result ≡ initial_state key number 0 }
{
    let [k0, k1, k2, k3, k4, k5, k6, k7] = key;
    (
        u32x4::from_array([0x6170_7865, 0x3320_646e, 0x7962_2d32, 0x6b20_6574]),
        u32x4::from_array([k0, k1, k2, k3]),
        u32x4::from_array([k4, k5, k6, k7]),
        u32x4::from_array([number, 0, 0, 0]),
    )
}

/// What the eight rounds make of a state.
#[inline(always)]
pub(crate) fn last_rows(first: StateRows) -> StateRows
    ensures { state_of result ≡ double_rounds 4 (state_of first) }
{
    let mut rows = first;
    'rounds: for _round in 0..4u32 {
        rows = diagonal_round(column_round(rows));
    }
    rows
}

/// The words of a block of a key.
#[inline(always)]
pub(crate) fn words_of_block(key: &[u8; 32], number: u32) -> [u32; 16]
    ensures { (j : ℕ) → j < 16 → slice_index result j ≡ draws.word_of key.now (16 * number + j) }
{
    let first = first_rows(words_of_key(key), number);
    let last = last_rows(first);
    let [a0, a1, a2, a3] = add(last.0, first.0).to_array();
    let [b0, b1, b2, b3] = add(last.1, first.1).to_array();
    let [c0, c1, c2, c3] = add(last.2, first.2).to_array();
    let [d0, d1, d2, d3] = add(last.3, first.3).to_array();
    [
        a0, a1, a2, a3, b0, b1, b2, b3, c0, c1, c2, c3, d0, d1, d2, d3,
    ]
}
