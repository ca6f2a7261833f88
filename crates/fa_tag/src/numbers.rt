//! Numbers in bytes, digests, and bytes one behind the other.
ghost use Rattle.std.specs.Prelude.{◌≡◌, ◌+◌, ◌≤◌, ◌↔◌, ◌++◌, length, take, drop, All, IsTrue};
ghost use Rattle.byteorder.specs.Endian.{big_number};
ghost use Rattle.sha2.specs.Sha256.{sha256};

use byteorder::{BigEndian, ByteOrder};
use sha2::{Digest, Sha256};

/// Whether these are the same bytes.
pub(crate) fn same_bytes(a: &[u8], b: &[u8]) -> bool
    ensures { IsTrue result ↔ (a.now ≡ b.now) }
{
    a == b
}

/// Whether each byte is zero.
pub(crate) fn are_zeros(bytes: &[u8]) -> bool
    ensures { IsTrue result ↔ All (λ byte. byte ≡ 0) bytes.now }
{
    bytes.iter().all(|byte| *byte == 0)
}

/// Whether the first bytes are the digest of the others (SHA-256, FIPS 180-4).
pub(crate) fn is_digest_of(digest: &[u8], bytes: &[u8]) -> bool
    ensures { IsTrue result ↔ (digest.now ≡ sha256 bytes.now) }
{
    same_bytes(digest, &Sha256::digest(bytes))
}

/// The digest of two pieces, one behind the other (SHA-256, FIPS 180-4).
pub(crate) fn digest_of(front: &[u8], back: &[u8]) -> [u8; 32]
    ensures { result ≡ sha256 (front.now ++ back.now) }
{
    let mut hasher = Sha256::new();
    hasher.update(front);
    hasher.update(back);
    hasher.finalize()
}

/// Writes three pieces, one behind the other.
pub(crate) fn join(out: &mut [u8], front: &[u8], middle: &[u8], back: &[u8])
    requires { length out.old ≡ length front.now + length middle.now + length back.now }
    ensures { out.new ≡ front.now ++ middle.now ++ back.now }
{
    let (first, others) = out.split_at_mut(front.len());
    first.copy_from_slice(front);
    let (second, third) = others.split_at_mut(middle.len());
    second.copy_from_slice(middle);
    third.copy_from_slice(back);
}

/// The number of four bytes at an offset.
pub(crate) fn u32_at(bytes: &[u8], offset: usize) -> u32
    requires { offset + 4 ≤ length bytes.now }
    ensures { result ≡ big_number 4 (drop offset bytes.now) }
{
    BigEndian::read_u32(&bytes[offset..])
}

/// The number of eight bytes at an offset.
pub(crate) fn u64_at(bytes: &[u8], offset: usize) -> u64
    requires { offset + 8 ≤ length bytes.now }
    ensures { result ≡ big_number 8 (drop offset bytes.now) }
{
    BigEndian::read_u64(&bytes[offset..])
}

/// The sixteen bytes at an offset.
pub(crate) fn array_at(bytes: &[u8], offset: usize) -> [u8; 16]
    requires { offset + 16 ≤ length bytes.now }
    ensures { result ≡ take 16 (drop offset bytes.now) }
{
    let mut array = [0; 16];
    array.copy_from_slice(&bytes[offset..offset + 16]);
    array
}
