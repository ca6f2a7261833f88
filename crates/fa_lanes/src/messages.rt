//! The digests of messages of one length.
ghost use Rattle.std.specs.Prelude.{◌≡◌, ◌<◌, ◌≤◌, All, ℕ, drop, length, map};
ghost use Rattle.sha2.specs.Sha256.{sha256};
ghost use Rattle.fa_lanes.specs.Lanes.{message};

use crate::hash::{BLOCK_BYTES, finish_states, length_of, take_blocks};
use crate::tail::Padding;
use sha2::{Digest, Sha256};

/// How many messages are hashed side by side.
pub const LANES: usize = 8;

/// The digests of eight messages of one length.
pub fn digests(messages: &[&[u8]]) -> [[u8; 32]; 8]
    requires eight { length messages.now ≡ 8 }
    requires one_length { (n : ℕ) × All (λ m. length m.now ≡ n) messages.now }
    ensures { result ≡ map (λ m. sha256 m.now) messages.now }
{
    let bytes = length_of(messages[0]);
    let count = bytes / BLOCK_BYTES;
    let state = take_blocks(messages, count);
    let from = BLOCK_BYTES * count;
    let padding = Padding::new(from as u64, bytes - from);
    finish_states(state, &tails(messages, from), &padding)
}

/// Writes the digest of each message. The messages are of one length: eight at a time are hashed side by side, and the
/// rest one by one.
pub fn digest_all(messages: &[&[u8]], out: &mut [[u8; 32]])
    requires one_length { (n : ℕ) × All (λ m. length m.now ≡ n) messages.now }
    requires as_many { length out.old ≡ length messages.now }
    ensures { out.new ≡ map (λ m. sha256 m.now) messages.now }
{
    let eights = messages.len() / LANES;
    'eights: for i in 0..eights {
        let from = LANES * i;
        let found = digests(&messages[from..from + LANES]);
        out[from..from + LANES].copy_from_slice(&found);
    }
    'rest: for i in LANES * eights..messages.len() {
        out[i] = Sha256::digest(messages[i]);
    }
}

/// What stands behind an offset of each message.
fn tails<'a>(messages: &[&'a [u8]], from: usize) -> [&'a [u8]; 8]
    requires eight { length messages.now ≡ 8 }
    requires within { All (λ m. from ≤ length m.now) messages.now }
    ensures size { length result ≡ 8 }
    ensures tails { (l : ℕ) → l < 8 → message result l ≡ drop from (message messages.now l) }
{
    [
        &messages[0][from..],
        &messages[1][from..],
        &messages[2][from..],
        &messages[3][from..],
        &messages[4][from..],
        &messages[5][from..],
        &messages[6][from..],
        &messages[7][from..],
    ]
}
