//! What keys are, and what they pick and permute.
ghost use Rattle.std.specs.Prelude.{◌≤◌, length};

use crate::expect::expect_same;
use rand::RngExt;
use rand_chacha::ChaCha8Rng;
use rand_core::{Rng, SeedableRng};
use rc_draw::{key32, pick_by, shuffle_by};
use std::alloc::{AllocError, Global};
use std::process::Abort;
use std::test::Fail;

/// Eight bytes for each number, the lowest first.
const KEY: [u8; 32] = [
    0, 0, 0, 0, 0, 0, 0, 0, // 0
    1, 0, 0, 0, 0, 0, 0, 0, // 1
    2, 0, 0, 0, 0, 0, 0, 0, // 2
    0, 0, 0, 0, 0, 0, 0, 0, // 0
];

#[test]
fn a_key_has_its_numbers_with_the_lowest_bytes_first(rt: HostRuntime) {
    expect_same(&rt, key32(0, 1, 2, 0), KEY);
}

/// Four numbers of a key, a number of items, and the item that the key picks. With w the first word of the key, that is
/// w * n / 2^32. The words were made by a ChaCha8 written apart from this program.
const PICKS: [([u64; 4], u32, u32); 8] = [
    ([0, 0, 0, 0], 52, 9), // 804,192,318
    ([1, 0, 0, 0], 7, 4), // 2,699,648,719
    ([0, 1, 0, 0], 65_536, 21_207), // 1,389,847,909
    ([0, 0, 1, 0], 512, 254), // 2,133,154,844
    ([0, 0, 0, 1], 256, 247), // 4,156,505,706
    ([1, 2, 3, 4], 4_294_967_295, 2_921_608_187), // 2,921,608,188
    ([9, 2, 7, 1], 2, 0), // 2,048,601,052
    ([9, 258, 7, 3], 1, 0), // 1,637,302,776
];

#[test]
fn a_key_picks_by_its_first_word(rt: HostRuntime) {
    for ([a, b, c, d], size, item) in PICKS {
        assert!(rt; 0 < size);
        expect_same(&rt, pick_by(&key32(a, b, c, d), size), item);
    }
}

/// Fails unless a key picks out of so many by the first word that the generator of `rand_chacha` makes of it. That is
/// other code than what makes the word of `pick_by`.
fn expect_pick(rt: &impl Abort, key: [u8; 32], size: u32) {
    assert!(rt; 0 < size);
    let word = u64::from(ChaCha8Rng::from_seed(key).next_u32());
    let item = (word * u64::from(size)) >> 32;
    expect_same(rt, u64::from(pick_by(&key, size)), item);
}

#[test]
fn a_key_picks_as_the_generator_does(rt: HostRuntime) {
    let mut numbers = ChaCha8Rng::from_seed([0; 32]);
    for _ in 0..100u8 {
        let key = key32(
            numbers.next_u64(),
            numbers.next_u64(),
            numbers.next_u64(),
            0,
        );
        expect_pick(&rt, key, numbers.next_u32() | 1);
    }
}

/// So many numbers, from 0 on.
fn numbers_below(alloc: Global, size: u16) -> Result<Vec<u16>, AllocError> {
    let mut list = Vec::new(alloc);
    for item in 0..size {
        list.push(item)?;
    }
    Ok(list)
}

/// A list as a key with this first number shuffles it, and then sorted.
fn sorted_again(alloc: Global, initial: &[u16], first: u64) -> Result<Vec<u16>, AllocError>
    requires { length initial.now ≤ 512 }
{
    let mut list = initial.to_vec(alloc)?;
    shuffle_by(&key32(first, 0, 0, 0), &mut list);
    list.sort()?;
    Ok(list)
}

/// Fails unless a key with this first number permutes a list of so many numbers.
fn expect_permutation(rt: &(impl AllocGlobal + Abort), first: u64, size: u16) -> Result<(), Fail> {
    let initial = numbers_below(rt.alloc(), size)?;
    assert!(rt; initial.len() <= 512);
    let list = sorted_again(rt.alloc(), &initial, first)?;
    expect_same(rt, list.as_slice(), initial.as_slice());
    Ok(())
}

#[test]
fn keys_permute_lists_of_all_lengths(rt: HostRuntime) -> Result<(), Fail> {
    let mut numbers = ChaCha8Rng::from_seed(key32(0, 0, 0, 0));
    for _ in 0..100u8 {
        let first = numbers.random_range(0u64..1_000_000_000_000_000_000);
        let size = numbers.random_range(0u16..513);
        expect_permutation(&rt, first, size)?;
    }
    Ok(())
}
