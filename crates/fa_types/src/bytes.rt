//! Plain work on bytes.
ghost use Rattle.std.specs.Prelude.{◌≡◌, ◌+◌, ◌≤◌, ◌==◌, ◌↔◌, length, replicate, All, IsTrue};
ghost use Rattle.std.specs.List.{list_all};
ghost use Rattle.fa_types.specs.Store.{with_bytes, bytes_at};

/// The `len` bytes from an offset.
pub fn part(bytes: &[u8], offset: usize, len: usize) -> &[u8]
    requires { offset + len ≤ length bytes.now }
    ensures { result.now ≡ bytes_at offset len bytes.now }
{
    &bytes[offset..offset + len]
}

/// Writes the bytes at an offset.
pub fn put(into: &mut [u8], offset: usize, bytes: &[u8])
    requires { offset + length bytes.now ≤ length into.old }
    ensures { into.new ≡ with_bytes offset bytes.now into.old }
{
    into[offset..offset + bytes.len()].copy_from_slice(bytes);
}

/// Makes each of the `len` bytes from an offset this one.
pub fn fill(into: &mut [u8], offset: usize, len: usize, byte: u8)
    requires { offset + len ≤ length into.old }
    ensures { into.new ≡ with_bytes offset (replicate len byte) into.old }
{
    into[offset..offset + len].fill(byte);
}

/// How many bytes are looked at together: enough for the processor's widest vectors, and few where the first one tells.
const LOOKED_AT: usize = 64;

/// Whether each byte is `ff`, as those of an erased slot are.
pub fn is_erased(bytes: &[u8]) -> bool
    ensures test { result ≡ list_all (λ byte. byte == 0xff) bytes.now }
    ensures all { IsTrue result ↔ All (λ byte. byte ≡ 0xff) bytes.now }
{
    let mut at = 0;
    while bytes.len() - at > LOOKED_AT {
        if !all_ff(part(bytes, at, LOOKED_AT)) {
            return false;
        }
        at += LOOKED_AT;
    }
    all_ff(&bytes[at..])
}

/// Whether each byte of a part is `ff`. All are looked at, so that vectors can do it.
fn all_ff(part: &[u8]) -> bool
    ensures { result ≡ list_all (λ byte. byte == 0xff) part.now }
{
    let mut all = true;
    for byte in part {
        all &= *byte == 0xff;
    }
    all
}
