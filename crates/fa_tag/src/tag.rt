//! A slot's bytes: a payload with its tag.
ghost use Rattle.std.specs.Prelude.{◌≡◌, ◌+◌, ◌↔◌, ℕ, List, length, IsTrue, IfSome, Some};
ghost use Rattle.fa_types.specs.declared.kind.Kind.TheVariants.{Data};
ghost use Rattle.fa_tag.specs.declared.tag.Tag.{Tag};
ghost use Rattle.sha2.specs.Sha256.{sha256};
ghost use Rattle.fa_tag.specs.SlotGrammar.{IsTag, IsPayloadOf, IsSlot, IsErased as AreErased, IsOpened, payload_of, sealed_part, slot_1, slot_2};

use crate::fields::{FIELD_BYTES, oldest_fields, tag_in};
use crate::numbers::{are_zeros, digest_of, is_digest_of, join, same_bytes};
use crate::payload_digest::PayloadDigest;
use fa_types::bytes::is_erased;
use fa_types::{Die, Kind, Page, Seq, Slot, TAG_BYTES};

/// How many bytes the digest has, the last of the tag.
pub(crate) const DIGEST_BYTES: usize = 32;

/// What a slot says of itself.
#[derive(Clone, Copy, PartialEq, Eq)]
pub struct Tag {
    /// The page that the payload is, below 1,048,576.
    pub page: Page,
    /// Which write of the page it is, 1 to 2^62 - 1.
    pub seq: Seq,
    /// What the write made of the page. The payload of a hole is zeros.
    pub kind: Kind,
    /// The die that the slot is on, below 64.
    pub die: Die,
    /// The slot's number on the die, below 1,048,576.
    pub slot: Slot,
}

/// What a slot's bytes are.
#[derive(Clone, Copy, PartialEq, Eq)]
pub enum Opened {
    /// Every byte is `ff`: nothing was written since the block was erased.
    Erased,
    /// Sealed bytes with this tag. The payload stands in front of the last [`TAG_BYTES`].
    Good(Tag),
    /// Neither: damaged, or never sealed.
    Bad,
}

/// Writes the payload with its tag, ready for a slot, in version 2. The payload is hashed once
/// (SHA-256, FIPS 180-4); several copies of it are sealed by one [`PayloadDigest`].
pub fn seal(tag: Tag, payload: &[u8], out: &mut [u8])
    requires fields { IsTag tag }
    requires kind { IsPayloadOf tag.kind payload.now }
    requires length { length out.old ≡ length payload.now + 64 }
    ensures { out.new ≡ slot_2 tag payload.now }
{
    PayloadDigest::begin(payload).seal(tag, payload, out);
}

/// Writes data with its tag in version 1, which no writer of today does: for tests of those who read it.
pub fn seal_1(tag: Tag, payload: &[u8], out: &mut [u8])
    requires fields { IsTag tag }
    requires kind { tag.kind ≡ Data }
    requires length { length out.old ≡ length payload.now + 64 }
    ensures { out.new ≡ slot_1 tag payload.now }
{
    let fields = oldest_fields(tag);
    let digest = digest_of(payload, &fields);
    join(out, payload, &fields, &digest);
}

/// What a slot's bytes are, in either version.
pub fn open(bytes: &[u8]) -> Opened
    ensures opened { IsOpened bytes.now result }
    // What is sealed is opened.
    ensures good { (tag : Tag) (payload : List ℕ) → IsSlot tag payload bytes.now → result ≡ Opened.Good tag }
    ensures erased { AreErased bytes.now → result ≡ Opened.Erased }
{
    open_with(bytes, None)
}

/// The same, where the digest of the bytes in front of a slot's own may have been made already.
pub(crate) fn open_with(bytes: &[u8], made: Option<&[u8; DIGEST_BYTES]>) -> Opened
    requires { IfSome made (λ digest. digest.now ≡ sha256 (sealed_part bytes.now)) }
    ensures opened { IsOpened bytes.now result }
    ensures good { (tag : Tag) (payload : List ℕ) → IsSlot tag payload bytes.now → result ≡ Opened.Good tag }
    ensures erased { AreErased bytes.now → result ≡ Opened.Erased }
{
    if is_erased(bytes) {
        return Opened::Erased;
    }
    match sealed_tag(bytes, made) {
        Some(tag) => Opened::Good(tag),
        None => Opened::Bad,
    }
}

/// The tag of sealed bytes.
fn sealed_tag(bytes: &[u8], made: Option<&[u8; DIGEST_BYTES]>) -> Option<Tag>
    requires { IfSome made (λ digest. digest.now ≡ sha256 (sealed_part bytes.now)) }
    ensures found { IfSome result (λ tag. IsSlot tag (payload_of bytes.now) bytes.now) }
    ensures only { (tag : Tag) (payload : List ℕ) → IsSlot tag payload bytes.now → result ≡ Some tag }
{
    if bytes.len() < TAG_BYTES {
        return None;
    }
    let (front, digest) = bytes.split_at(bytes.len() - DIGEST_BYTES);
    let (payload, fields) = front.split_at(front.len() - FIELD_BYTES);
    let tag = tag_in(fields)?;
    if is_payload_of(tag.kind, payload) && is_made_digest_of(digest, front, made) {
        Some(tag)
    } else {
        None
    }
}

/// Whether the first bytes are the digest of the others, which may have been made already.
fn is_made_digest_of(digest: &[u8], bytes: &[u8], made: Option<&[u8; DIGEST_BYTES]>) -> bool
    requires { IfSome made (λ digest. digest.now ≡ sha256 bytes.now) }
    ensures { IsTrue result ↔ (digest.now ≡ sha256 bytes.now) }
{
    match made {
        Some(made) => same_bytes(digest, made),
        None => is_digest_of(digest, bytes),
    }
}

/// Whether a page of this kind may have the payload.
fn is_payload_of(kind: Kind, payload: &[u8]) -> bool
    ensures { IsTrue result ↔ IsPayloadOf kind payload.now }
{
    match kind {
        Kind::Data => true,
        Kind::Hole => are_zeros(payload),
    }
}
