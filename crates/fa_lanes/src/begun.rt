//! Messages of which the beginning was hashed, and not yet the end.
ghost use Rattle.std.specs.Prelude.{◌≡◌, ◌+◌, ◌%◌, ◌^◌, ◌<◌, ◌≤◌, ◌++◌, All, ℕ, List, length, take, drop};
ghost use Rattle.sha2.specs.Sha256.{padding as padding_of, sha256};
ghost use Rattle.fa_lanes.specs.Beginning.{IsBegun, begun_at};
ghost use Rattle.fa_lanes.specs.Hashing.{HasWords, IsPadding};
ghost use Rattle.fa_lanes.specs.Lanes.{lane, message};
ghost use Rattle.fa_lanes.specs.Wide.{wide_lane};

use crate::alone::compress;
use crate::four::{state_of_four, take_blocks_of_four};
use crate::hash::{BLOCK_BYTES, digest_of, length_of, state_of, take_blocks};
use crate::tail::Padding;
use std::simd::prelude::*;

/// A message whose first whole blocks were hashed. What stands behind them is still open.
#[derive(Clone, Copy)]
pub struct Begun {
    hash: [u32; 8],
    bytes: u64,
}

impl Begun {
    /// The digest of what was hashed with this tail behind it.
    pub fn finish(self, tail: &[u8]) -> [u8; 32]
        ensures { (payload : List ℕ) → IsBegun self payload → result ≡ sha256 (payload ++ tail.now) }
    {
        let padding = Padding::new(self.bytes, length_of(tail));
        let mut hash = self.hash;
        'rounds: for i in 0..(padding.end() + 8) / BLOCK_BYTES {
            let words = last_words_alone(tail, &padding, BLOCK_BYTES * i);
            compress(&mut hash, words);
        }
        digest_of(&hash)
    }
}

/// Hashes eight payloads of one length, which is a whole number of blocks of 64 bytes.
pub fn begin(payloads: &[&[u8]]) -> [Begun; 8]
    requires eight { length payloads.now ≡ 8 }
    requires whole { (n : ℕ) × (n % 64 ≡ 0) × All (λ payload. length payload.now ≡ n) payloads.now }
    ensures size { length result ≡ 8 }
    ensures begun { (l : ℕ) → l < 8 → IsBegun (begun_at result l) (message payloads.now l) }
{
    let bytes = length_of(payloads[0]);
    let state = take_blocks(payloads, bytes / BLOCK_BYTES);
    let bytes = bytes as u64;
    [
        begun_in(&state, 0, bytes),
        begun_in(&state, 1, bytes),
        begun_in(&state, 2, bytes),
        begun_in(&state, 3, bytes),
        begun_in(&state, 4, bytes),
        begun_in(&state, 5, bytes),
        begun_in(&state, 6, bytes),
        begun_in(&state, 7, bytes),
    ]
}

/// Hashes four payloads of one length, which is a whole number of blocks of 64 bytes.
pub fn begin_four(payloads: &[&[u8]]) -> [Begun; 4]
    requires four { length payloads.now ≡ 4 }
    requires whole { (n : ℕ) × (n % 64 ≡ 0) × All (λ payload. length payload.now ≡ n) payloads.now }
    ensures size { length result ≡ 4 }
    ensures begun { (l : ℕ) → l < 4 → IsBegun (begun_at result l) (message payloads.now l) }
{
    let bytes = length_of(payloads[0]);
    let state = take_blocks_of_four(payloads, bytes / BLOCK_BYTES);
    let bytes = bytes as u64;
    [
        begun_in_wide(&state, 0, bytes),
        begun_in_wide(&state, 1, bytes),
        begun_in_wide(&state, 2, bytes),
        begun_in_wide(&state, 3, bytes),
    ]
}

/// The message in one wide lane.
fn begun_in_wide(state: &[u64x4; 8], l: usize, bytes: u64) -> Begun
    requires { l < 4 }
    ensures hash { result.hash ≡ wide_lane state.now l }
    ensures bytes { result.bytes ≡ bytes }
{
    Begun {
        hash: state_of_four(state, l),
        bytes,
    }
}

/// The message in one lane.
fn begun_in(state: &[u32x8; 8], l: usize, bytes: u64) -> Begun
    requires { l < 8 }
    ensures hash { result.hash ≡ lane state.now l }
    ensures bytes { result.bytes ≡ bytes }
{
    Begun {
        hash: state_of(state, l),
        bytes,
    }
}

/// The words of a block of a tail and its padding, from this offset on.
fn last_words_alone(tail: &[u8], padding: &Padding, at: usize) -> [u32; 16]
    requires within { at + 64 ≤ padding.now.end + 8 }
    requires fits { at + 64 < 2 ^ 64 }
    ensures { (n : ℕ) → IsPadding padding.now n (length tail.now)
        → HasWords result (take 64 (drop at (tail.now ++ padding_of n))) }
{
    let mut words = [0; 16];
    'load: for k in 0..16 {
        words[k] = padding.word(tail, at + 4 * k);
    }
    words
}
