//! What stands behind a message (FIPS 180-4, 5.1.1).
ghost use Rattle.std.specs.Prelude.{◌≡◌, ◌+◌, ◌*◌, ◌%◌, ◌^◌, ◌<◌, ◌≤◌, ◌++◌, ℕ, length, slice_index};
ghost use Rattle.sha2.specs.Sha256.{padding as padding_of, word_at};
ghost use Rattle.fa_lanes.specs.Hashing.{IsPadding};

use crate::hash::word;

/// The padding of a message of which a tail of this many bytes is left.
#[derive(Drop)]
pub(crate) struct Padding {
    // Where the length stands: the offset from where the tail begins.
    end: usize,
    // The length of the message in bits.
    length: [u8; 8],
}

impl Padding {
    /// The padding of a message of this many bytes in front of a tail.
    pub(crate) fn new(before: u64, tail: usize) -> Padding
        requires { tail < 2 ^ 63 }
        ensures { IsPadding result (before + tail) tail }
    {
        let total = before.wrapping_add(tail as u64);
        Padding {
            end: tail + 1 + (119 - (total % 64) as usize) % 64,
            length: total.wrapping_mul(8).to_be_bytes(),
        }
    }

    /// The offset where the length stands, from where the tail begins.
    pub(crate) fn end(&self) -> usize
        ensures { result ≡ self.now.end }
    {
        self.end
    }

    /// The word at an offset of the tail with this padding.
    pub(crate) fn word(&self, tail: &[u8], at: usize) -> u32
        requires within { at + 4 ≤ self.now.end + 8 }
        requires fits { at + 4 < 2 ^ 64 }
        ensures { (n : ℕ) → IsPadding self.now n (length tail.now) → result ≡ word_at (tail.now ++ padding_of n) at }
    {
        if at + 4 <= tail.len() {
            return word(tail, at);
        }
        u32::from_be_bytes([
            self.byte(tail, at),
            self.byte(tail, at + 1),
            self.byte(tail, at + 2),
            self.byte(tail, at + 3),
        ])
    }

    /// The byte at an offset of the tail with this padding.
    fn byte(&self, tail: &[u8], at: usize) -> u8
        requires { at < self.now.end + 8 }
        ensures { (n : ℕ) → IsPadding self.now n (length tail.now) → result ≡ slice_index (tail.now ++ padding_of n) at }
    {
        if at < tail.len() {
            tail[at]
        } else if at == tail.len() {
            0x80
        } else if at < self.end {
            0
        } else {
            self.length[at - self.end]
        }
    }
}
