//! An image's header.
ghost use Rattle.std.specs.Prelude.{◌≡◌, ◌+◌, ◌<◌, ◌^◌, ◌↔◌, ◌⊎◌, ℕ, List, ◌++◌, length, drop, IsTrue, IfSome, Some, ◌≤◌};
ghost use Rattle.std.specs.Int.{bit_at};
ghost use Rattle.fa_tag.specs.declared.header.Header.{Header};
ghost use Rattle.fa_tag.specs.SlotGrammar.{with_digest as bytes_and_digest};
ghost use Rattle.fa_tag.specs.HeaderGrammar.{IsHeader, HasRole, SpellsHeader, header_bytes, shape_fields, state_fields, marks_number};

use crate::numbers::{array_at, digest_of, join, same_bytes, u32_at, u64_at};
use byteorder::{BigEndian, ByteOrder};
use fa_types::{Die, Geometry, HEADER_BYTES};

/// The letters `FLSHARR1`, the first of a header.
const MAGIC: u64 = 0x464c_5348_4152_5231;

/// The first format of the images.
const FORMAT_1: u32 = 1;

/// The format in which headers are written.
const FORMAT_2: u32 = 2;

/// The greatest epoch: 2^62.
const MAX_EPOCH: u64 = 1 << 62;

/// What an image says of itself and of its array.
#[derive(Clone, Copy)]
pub struct Header {
    /// Which die of the array the image is.
    pub die: Die,
    /// The shape of the array.
    pub geometry: Geometry,
    /// The array was closed, and nothing was written to the image since.
    pub clean: bool,
    /// The die is a spare.
    pub spare: bool,
    /// How often the live dies have changed, from 1; 0 for a spare. At most 2^62.
    pub epoch: u64,
    /// Which dies were live in this epoch: bit `d` stands for die `d`. 0 for a spare.
    pub mask: u64,
    /// The number of the array, one for all its images.
    pub array: [u8; 16],
}

/// The bytes of a header, with their digest (SHA-256, FIPS 180-4), in format 2.
pub fn seal_header(header: &Header) -> [u8; HEADER_BYTES]
    requires { IsHeader header.now }
    ensures { result ≡ header_bytes 2 header.now }
{
    sealed(FORMAT_2, header)
}

/// The bytes of a header in format 1, which no writer of today uses: for tests of those who read it.
pub fn seal_header_1(header: &Header) -> [u8; HEADER_BYTES]
    requires { IsHeader header.now }
    ensures { result ≡ header_bytes 1 header.now }
{
    sealed(FORMAT_1, header)
}

/// The header that these bytes are, in either format: `None` where they are those of no header.
pub fn open_header(bytes: &[u8; HEADER_BYTES]) -> Option<Header>
    ensures found { IfSome result (λ header. SpellsHeader header bytes.now) }
    ensures only { (header : Header) → SpellsHeader header bytes.now → result ≡ Some header }
{
    let header = fields_in(bytes)?;
    // A header is read where writing it gives these very bytes.
    if is_in_grammar(&header) && is_spelled(&header, bytes) {
        Some(header)
    } else {
        None
    }
}

/// Whether these are the bytes of the fields, in either format.
fn is_spelled(header: &Header, bytes: &[u8; HEADER_BYTES]) -> bool
    ensures { IsTrue result ↔ ((bytes.now ≡ header_bytes 2 header.now) ⊎ (bytes.now ≡ header_bytes 1 header.now)) }
{
    same_bytes(&sealed(FORMAT_2, header), bytes) || same_bytes(&sealed(FORMAT_1, header), bytes)
}

/// The fields, whatever the bytes are: nothing but the geometry's limits is looked at.
fn fields_in(bytes: &[u8; HEADER_BYTES]) -> Option<Header>
    ensures { (header : Header) → SpellsHeader header bytes.now → result ≡ Some header }
{
    let number = u32_at(bytes, 12);
    let die = u8::try_from(number).ok()?;
    let geometry = geometry_in(bytes)?;
    let marks = u32_at(bytes, 36);
    let epoch = u64_at(bytes, 48);
    let mask = u64_at(bytes, 56);
    let array = array_at(bytes, 64);
    Some(Header {
        die: Die(die),
        geometry,
        clean: marks & 1 != 0,
        spare: marks & 2 != 0,
        epoch,
        mask,
        array,
    })
}

/// The array's shape, if it is within its limits.
fn geometry_in(bytes: &[u8; HEADER_BYTES]) -> Option<Geometry>
    ensures { (header : Header) → SpellsHeader header bytes.now → result ≡ Some header.geometry }
{
    let dies = u32_at(bytes, 16);
    let spares = u32_at(bytes, 20);
    let blocks = u32_at(bytes, 24);
    let slots = u32_at(bytes, 28);
    let page_bytes = u32_at(bytes, 32);
    let pages = u64_at(bytes, 40);
    Geometry::new(dies, spares, blocks, slots, page_bytes, pages).ok()
}

/// Whether the fields go together.
fn is_in_grammar(header: &Header) -> bool
    ensures { IsTrue result ↔ IsHeader header.now }
{
    u32::from(header.die.0) < header.geometry.dies
        && header.mask.checked_shr(header.geometry.dies).unwrap_or(0) == 0
        && has_role(header)
}

/// Whether epoch and live dies are those that a spare, or another die, may have.
fn has_role(header: &Header) -> bool
    requires { header.now.die.0 < header.now.geometry.dies }
    ensures { IsTrue result ↔ HasRole header.now }
{
    if header.spare {
        header.epoch == 0 && header.mask == 0
    } else {
        (1..=MAX_EPOCH).contains(&header.epoch) && (header.mask >> header.die.0) & 1 == 1
    }
}

/// The bytes of the fields in a format, with their digest.
fn sealed(format: u32, header: &Header) -> [u8; HEADER_BYTES]
    ensures { result ≡ header_bytes format header.now }
{
    with_digest(&shape_bytes(format, header), &state_bytes(header))
}

/// The two parts of a header, with the digest of both behind them.
fn with_digest(shape: &[u8; 48], state: &[u8; 32]) -> [u8; HEADER_BYTES]
    ensures { result ≡ bytes_and_digest (shape.now ++ state.now) }
{
    let digest = digest_of(shape, state);
    let mut bytes = [0; HEADER_BYTES];
    join(&mut bytes, shape, state, &digest);
    bytes
}

/// The fields up to the number of pages.
fn shape_bytes(format: u32, header: &Header) -> [u8; 48]
    ensures { result ≡ shape_fields format header.now }
{
    let geometry = &header.geometry;
    let mut bytes = [0; 48];
    BigEndian::write_u64(&mut bytes, MAGIC);
    BigEndian::write_u32(&mut bytes[8..], format);
    BigEndian::write_u32(&mut bytes[12..], u32::from(header.die.0));
    BigEndian::write_u32(&mut bytes[16..], geometry.dies);
    BigEndian::write_u32(&mut bytes[20..], geometry.spares);
    BigEndian::write_u32(&mut bytes[24..], geometry.blocks);
    BigEndian::write_u32(&mut bytes[28..], geometry.slots);
    BigEndian::write_u32(&mut bytes[32..], geometry.page_bytes);
    BigEndian::write_u32(&mut bytes[36..], marks_of(header.clean, header.spare));
    BigEndian::write_u64(&mut bytes[40..], geometry.pages);
    bytes
}

/// The fields from the epoch on.
fn state_bytes(header: &Header) -> [u8; 32]
    ensures { result ≡ state_fields header.now }
{
    let mut bytes = [0; 32];
    BigEndian::write_u64(&mut bytes, header.epoch);
    BigEndian::write_u64(&mut bytes[8..], header.mask);
    bytes[16..].copy_from_slice(&header.array);
    bytes
}

/// The marks as one number.
fn marks_of(clean: bool, spare: bool) -> u32
    ensures { result ≡ marks_number clean spare }
{
    u32::from(clean) + 2 * u32::from(spare)
}
