//! Four messages of one length, side by side in wide lanes: their whole blocks, and their digests.
ghost use Rattle.std.specs.Prelude.{◌≡◌, ◌+◌, ◌*◌, ◌^◌, ◌<◌, ◌≤◌, All, ℕ, drop, length, map, take};
ghost use Rattle.sha2.specs.Sha256.{hash_after, initial_hash_256, sha256, word_at};
ghost use Rattle.fa_lanes.specs.Lanes.{message};
ghost use Rattle.fa_lanes.specs.Wide.{AreTwice, HasLow, HasWideBlock, IsTwice, low, wide_lane};

use crate::begun::begin_four;
use crate::hash::{BLOCK_BYTES, INITIAL_HASH, length_of, word};
use crate::wide_rounds::compress;
use crate::wide_words::double;
use std::simd::prelude::*;

/// How many messages are hashed side by side in wide lanes.
pub const WIDE_LANES: usize = 4;

/// How many numbers a word can be.
const WORDS: u64 = 1 << 32;

/// The digests of four messages of one length.
pub fn digests_of_four(messages: &[&[u8]]) -> [[u8; 32]; 4]
    requires four { length messages.now ≡ 4 }
    requires one_length { (n : ℕ) × All (λ m. length m.now ≡ n) messages.now }
    ensures { result ≡ map (λ m. sha256 m.now) messages.now }
{
    let whole = BLOCK_BYTES * (length_of(messages[0]) / BLOCK_BYTES);
    let begun = begin_four(&fronts_of_four(messages, whole));
    [
        begun[0].finish(&messages[0][whole..]),
        begun[1].finish(&messages[1][whole..]),
        begun[2].finish(&messages[2][whole..]),
        begun[3].finish(&messages[3][whole..]),
    ]
}

/// The first bytes of each of four messages.
pub fn fronts_of_four<'a>(messages: &[&'a [u8]], bytes: usize) -> [&'a [u8]; 4]
    requires four { length messages.now ≡ 4 }
    requires within { All (λ m. bytes ≤ length m.now) messages.now }
    ensures size { length result ≡ 4 }
    ensures fronts { (l : ℕ) → l < 4 → message result l ≡ take bytes (message messages.now l) }
{
    [
        &messages[0][..bytes],
        &messages[1][..bytes],
        &messages[2][..bytes],
        &messages[3][..bytes],
    ]
}

/// The states of four messages after their first whole blocks.
pub(crate) fn take_blocks_of_four(messages: &[&[u8]], count: usize) -> [u64x4; 8]
    requires four { length messages.now ≡ 4 }
    requires within { All (λ m. count * 64 ≤ length m.now) messages.now }
    requires fits { count * 64 < 2 ^ 64 }
    ensures { (l : ℕ) → l < 4 → wide_lane result l ≡ hash_after initial_hash_256 (message messages.now l) count }
{
    let mut state = initial_states();
    'rounds: for i in 0..count {
        let block = block_words(messages, BLOCK_BYTES * i);
        compress(&mut state, block);
    }
    state
}

/// The state in one lane.
pub(crate) fn state_of_four(state: &[u64x4; 8], l: usize) -> [u32; 8]
    requires { l < 4 }
    ensures { result ≡ wide_lane state.now l }
{
    [
        word_in(state[0], l),
        word_in(state[1], l),
        word_in(state[2], l),
        word_in(state[3], l),
        word_in(state[4], l),
        word_in(state[5], l),
        word_in(state[6], l),
        word_in(state[7], l),
    ]
}

/// The word in one lane.
fn word_in(vector: u64x4, l: usize) -> u32
    requires { l < 4 }
    ensures { result ≡ low vector l }
{
    (vector[l] % WORDS) as u32
}

/// The state of the empty message in each lane.
fn initial_states() -> [u64x4; 8]
    ensures lanes { (l : ℕ) → l < 4 → wide_lane result l ≡ initial_hash_256 }
    ensures twice { AreTwice result }
{
    [
        splat_twice(INITIAL_HASH[0]),
        splat_twice(INITIAL_HASH[1]),
        splat_twice(INITIAL_HASH[2]),
        splat_twice(INITIAL_HASH[3]),
        splat_twice(INITIAL_HASH[4]),
        splat_twice(INITIAL_HASH[5]),
        splat_twice(INITIAL_HASH[6]),
        splat_twice(INITIAL_HASH[7]),
    ]
}

/// A word in both halves of each lane.
fn splat_twice(number: u32) -> u64x4
    ensures low { HasLow result (λ l. number) }
    ensures twice { IsTwice result }
{
    double(u64x4::splat(u64::from(number)))
}

/// The words of a block of each message, from this offset on.
fn block_words(messages: &[&[u8]], at: usize) -> [u64x4; 16]
    requires four { length messages.now ≡ 4 }
    requires within { All (λ m. at + 64 ≤ length m.now) messages.now }
    requires fits { at + 64 < 2 ^ 64 }
    ensures lanes { (l : ℕ) → l < 4 → HasWideBlock result l (take 64 (drop at (message messages.now l))) }
    ensures twice { AreTwice result }
{
    let mut w = [u64x4::splat(0); 16];
    'load: for k in 0..16 {
        w[k] = words(messages, at + 4 * k);
    }
    w
}

/// The word at an offset of each message.
#[inline(always)]
fn words(messages: &[&[u8]], at: usize) -> u64x4
    requires four { length messages.now ≡ 4 }
    requires within { All (λ m. at + 4 ≤ length m.now) messages.now }
    ensures low { HasLow result (λ l. word_at (message messages.now l) at) }
    ensures twice { IsTwice result }
{
    let alone = u64x4::from_array([
        u64::from(word(messages[0], at)),
        u64::from(word(messages[1], at)),
        u64::from(word(messages[2], at)),
        u64::from(word(messages[3], at)),
    ]);
    double(alone)
}
