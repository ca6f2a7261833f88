//! The 32 bytes that stand between payload and digest.
ghost use Rattle.std.specs.Prelude.{◌≡◌, ◌↔◌, ℕ, length, IsTrue, IfSome, Some};
ghost use Rattle.fa_types.specs.declared.kind.Kind.{Kind};
ghost use Rattle.fa_tag.specs.declared.tag.Tag.{Tag};
ghost use Rattle.fa_tag.specs.SlotGrammar.{IsTag, AreFields, fields_1, fields_2, tag_bytes, kind_number, place_number};

use crate::numbers::{same_bytes, u32_at, u64_at};
use crate::tag::Tag;
use byteorder::{BigEndian, ByteOrder};
use fa_types::{Die, Kind, Page, Seq, Slot};

/// How many bytes stand between payload and digest.
pub(crate) const FIELD_BYTES: usize = 32;

/// The letters `SLT1`, the first of version 1.
const LETTERS_1: u32 = 0x534c_5431;

/// The letters `SLT2`, the first of version 2.
const LETTERS_2: u32 = 0x534c_5432;

/// By how much the place of a slot rises from die to die.
const DIE_UNIT: u64 = 1 << 32;

/// The fields of a tag, in version 2.
pub(crate) fn newest_fields(tag: Tag) -> [u8; FIELD_BYTES]
    requires { IsTag tag }
    ensures { result ≡ fields_2 tag }
{
    bytes_of(LETTERS_2, number_of(tag.kind), tag)
}

/// The fields of the tag of data, in version 1.
pub(crate) fn oldest_fields(tag: Tag) -> [u8; FIELD_BYTES]
    requires { IsTag tag }
    ensures { result ≡ fields_1 tag }
{
    bytes_of(LETTERS_1, 0, tag)
}

/// The tag whose fields these are, in either version.
pub(crate) fn tag_in(bytes: &[u8]) -> Option<Tag>
    requires { length bytes.now ≡ 32 }
    ensures found { IfSome result (λ tag. IsTag tag × AreFields tag bytes.now) }
    ensures only { (tag : Tag) → IsTag tag → AreFields tag bytes.now → result ≡ Some tag }
{
    let tag = numbers_in(bytes)?;
    // A tag is read where writing it gives these very bytes.
    if are_fields(tag, bytes) {
        Some(tag)
    } else {
        None
    }
}

/// Whether these are the fields of the tag, in either version.
fn are_fields(tag: Tag, bytes: &[u8]) -> bool
    requires { IsTag tag }
    ensures { IsTrue result ↔ AreFields tag bytes.now }
{
    match tag.kind {
        Kind::Data => {
            same_bytes(&newest_fields(tag), bytes) || same_bytes(&oldest_fields(tag), bytes)
        }
        Kind::Hole => same_bytes(&newest_fields(tag), bytes),
    }
}

/// The tag whose numbers stand where a tag has them, if they are within their limits.
fn numbers_in(bytes: &[u8]) -> Option<Tag>
    requires { length bytes.now ≡ 32 }
    ensures found { IfSome result (λ tag. IsTag tag) }
    ensures only { (tag : Tag) (letters : ℕ) → IsTag tag → bytes.now ≡ tag_bytes letters (kind_number tag.kind) tag
        → result ≡ Some tag }
{
    let kind = kind_of(u32_at(bytes, 4))?;
    let page = u64_at(bytes, 8);
    let seq = u64_at(bytes, 16);
    let place = u64_at(bytes, 24);
    let (die, slot) = (place / DIE_UNIT, place % DIE_UNIT);
    if page >= 1_048_576 || seq == 0 || seq >= 1 << 62 || die >= 64 || slot >= 1_048_576 {
        return None;
    }
    Some(Tag {
        page: Page(page),
        seq: Seq(seq),
        kind,
        die: Die(die as u8),
        slot: Slot(slot as u32),
    })
}

/// The fields behind a version's letters and the number after them.
fn bytes_of(letters: u32, number: u32, tag: Tag) -> [u8; FIELD_BYTES]
    requires { IsTag tag }
    ensures { result ≡ tag_bytes letters number tag }
{
    let mut bytes = [0; FIELD_BYTES];
    BigEndian::write_u32(&mut bytes, letters);
    BigEndian::write_u32(&mut bytes[4..], number);
    BigEndian::write_u64(&mut bytes[8..], tag.page.0);
    BigEndian::write_u64(&mut bytes[16..], tag.seq.0);
    BigEndian::write_u64(&mut bytes[24..], place_of(tag.die, tag.slot));
    bytes
}

/// A kind as a number.
fn number_of(kind: Kind) -> u32
    ensures { result ≡ kind_number kind }
{
    match kind {
        Kind::Data => 0,
        Kind::Hole => 1,
    }
}

/// The kind that has a number.
fn kind_of(number: u32) -> Option<Kind>
    ensures { (kind : Kind) → number ≡ kind_number kind → result ≡ Some kind }
{
    match number {
        0 => Some(Kind::Data),
        1 => Some(Kind::Hole),
        _ => None,
    }
}

/// A die and a slot of it as one number.
fn place_of(die: Die, slot: Slot) -> u64
    ensures { result ≡ place_number die.0 slot.0 }
{
    u64::from(die.0) * DIE_UNIT + u64::from(slot.0)
}
