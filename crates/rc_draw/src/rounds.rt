//! The rounds of ChaCha on a state whose four rows are vectors.
ghost use Rattle.std.specs.Prelude.{◌≡◌, ℕ, ◌<◌, slice_index};
ghost use Rattle.rand_chacha.specs.Block.{add32, xor_rotate, quarter_round, column_round, diagonal_round};
ghost use Rattle.rc_draw.specs.Rows.{words_of, state_of};

use std::simd::u32x4;

/// The four rows of a state.
pub(crate) type StateRows = (u32x4, u32x4, u32x4, u32x4);

/// The sums of the words of two vectors, modulo 2^32.
#[inline(always)]
pub(crate) fn add(a: u32x4, b: u32x4) -> u32x4
    ensures { (j : ℕ) → j < 4 → slice_index result j ≡ add32 (slice_index a j) (slice_index b j) }
{
    a + b
}

#[inline(always)]
fn xor_rotate(a: u32x4, b: u32x4, k: u32) -> u32x4
    requires { (0 < k) × (k < 32) }
    ensures { (j : ℕ) → j < 4 → slice_index result j ≡ xor_rotate (slice_index a j) (slice_index b j) k }
{
    let x = a ^ b;
    (x << u32x4::splat(k)) | (x >> u32x4::splat(32 - k))
}

/// The quarter round on the words that stand at one place of four vectors, at each of the four places.
#[inline(always)]
pub(crate) fn quarter_rounds(a: u32x4, b: u32x4, c: u32x4, d: u32x4) -> StateRows
    ensures { (j : ℕ) → j < 4
        → (slice_index result.0 j, slice_index result.1 j, slice_index result.2 j, slice_index result.3 j)
        ≡ quarter_round (slice_index a j) (slice_index b j) (slice_index c j) (slice_index d j) }
{
    let a1 = add(a, b);
    let d1 = xor_rotate(d, a1, 16);
    let c1 = add(c, d1);
    let b1 = xor_rotate(b, c1, 12);
    let a2 = add(a1, b1);
    let d2 = xor_rotate(d1, a2, 8);
    let c2 = add(c1, d2);
    let b2 = xor_rotate(b1, c2, 7);
    (a2, b2, c2, d2)
}

/// The quarter round on each column of a state.
#[inline(always)]
pub(crate) fn column_round(rows: StateRows) -> StateRows
    ensures { state_of result ≡ column_round (state_of rows) }
{
    let (a, b, c, d) = rows;
    quarter_rounds(a, b, c, d)
}

// A vector with its words turned to the left by one place.
#[inline(always)]
fn left_by_one(vector: u32x4) -> u32x4
    ensures { words_of result
        ≡ (slice_index vector 1, slice_index vector 2, slice_index vector 3, slice_index vector 0) }
{
    vector.swizzle([1, 2, 3, 0])
}

// By two places.
#[inline(always)]
fn left_by_two(vector: u32x4) -> u32x4
    ensures { words_of result
        ≡ (slice_index vector 2, slice_index vector 3, slice_index vector 0, slice_index vector 1) }
{
    vector.swizzle([2, 3, 0, 1])
}

// By three places.
#[inline(always)]
fn left_by_three(vector: u32x4) -> u32x4
    ensures { words_of result
        ≡ (slice_index vector 3, slice_index vector 0, slice_index vector 1, slice_index vector 2) }
{
    vector.swizzle([3, 0, 1, 2])
}

/// The quarter round on each diagonal of a state: the rows are turned so that the diagonals stand in columns, and
/// turned back.
#[inline(always)]
pub(crate) fn diagonal_round(rows: StateRows) -> StateRows
    ensures { state_of result ≡ diagonal_round (state_of rows) }
{
    let (a, b, c, d) = rows;
    let (a, b, c, d) = quarter_rounds(a, left_by_one(b), left_by_two(c), left_by_three(d));
    (a, left_by_three(b), left_by_two(c), left_by_one(d))
}
