//! Payloads that are given another tag where they stand, and hashed once for that.
ghost use Rattle.std.specs.Prelude.{◌≡◌, ◌≤◌, length};
ghost use Rattle.sha2.specs.Sha256.{sha256};
ghost use Rattle.fa_lanes.specs.Beginning.{IsBegun};
ghost use Rattle.fa_lanes.specs.Lanes.{message};
ghost use Rattle.fa_tag.specs.SlotGrammar.{IsTag, IsOpened, IsPayloadOf, payload_of, sealed_part, slot_2};

use crate::eights::have_length;
use crate::fields::{FIELD_BYTES, newest_fields};
use crate::payload_digest::PayloadDigest;
use crate::tag::{DIGEST_BYTES, Opened, Tag, open, open_with};
use fa_lanes::{Begun, begin_four, fronts_of_four};
use fa_types::TAG_BYTES;

/// What a slot's bytes are, as [`crate::open`] tells it, with the digest of their payload begun: [`reseal`] gives the payload another tag
/// without hashing it once more. Fewer bytes than a tag has are no slot, and have no payload.
pub fn open_begun(slot: &[u8]) -> (Opened, PayloadDigest)
    ensures opened { IsOpened slot.now result.0 }
    ensures begun { result.1 ≡ payload_of slot.now }
{
    if slot.len() < TAG_BYTES {
        return (open(slot), PayloadDigest::begin(&[]));
    }
    let digest = PayloadDigest::begin(&slot[..slot.len() - TAG_BYTES]);
    let made = made_digest(&digest, slot);
    (open_with(slot, Some(&made)), digest)
}

/// The same of each of four slots. Where they have one length, a multiple of 64 bytes, they are hashed side by side.
pub fn open_four_begun(
    slots: &[&[u8]],
) -> (
    (Opened, PayloadDigest),
    (Opened, PayloadDigest),
    (Opened, PayloadDigest),
    (Opened, PayloadDigest),
)
    requires { length slots.now ≡ 4 }
    ensures first { IsOpened (message slots.now 0) result.0.0 × (result.0.1 ≡ payload_of (message slots.now 0)) }
    ensures second { IsOpened (message slots.now 1) result.1.0 × (result.1.1 ≡ payload_of (message slots.now 1)) }
    ensures third { IsOpened (message slots.now 2) result.2.0 × (result.2.1 ≡ payload_of (message slots.now 2)) }
    ensures fourth { IsOpened (message slots.now 3) result.3.0 × (result.3.1 ≡ payload_of (message slots.now 3)) }
{
    let bytes = slots[0].len();
    if bytes < TAG_BYTES || bytes % 64 != 0 || !have_length(slots, bytes) {
        return (
            open_begun(slots[0]),
            open_begun(slots[1]),
            open_begun(slots[2]),
            open_begun(slots[3]),
        );
    }
    let begun = begin_four(&fronts_of_four(slots, bytes - TAG_BYTES));
    (
        open_among(slots[0], begun[0]),
        open_among(slots[1], begun[1]),
        open_among(slots[2], begun[2]),
        open_among(slots[3], begun[3]),
    )
}

/// The same of a slot whose payload was hashed side by side with others.
fn open_among(slot: &[u8], begun: Begun) -> (Opened, PayloadDigest)
    requires length { 64 ≤ length slot.now }
    requires begun { IsBegun begun (payload_of slot.now) }
    ensures opened { IsOpened slot.now result.0 }
    ensures begun { result.1 ≡ payload_of slot.now }
{
    let digest = PayloadDigest::among(begun, &slot[..slot.len() - TAG_BYTES]);
    let made = made_digest(&digest, slot);
    (open_with(slot, Some(&made)), digest)
}

/// The digest of the bytes in front of a slot's own, of which the payload was hashed already.
fn made_digest(digest: &PayloadDigest, slot: &[u8]) -> [u8; DIGEST_BYTES]
    requires length { 64 ≤ length slot.now }
    requires begun { digest.now ≡ payload_of slot.now }
    ensures { result ≡ sha256 (sealed_part slot.now) }
{
    let (front, _) = slot.split_at(slot.len() - DIGEST_BYTES);
    let (_, behind) = front.split_at(front.len() - FIELD_BYTES);
    let mut fields = [0; FIELD_BYTES];
    fields.copy_from_slice(behind);
    digest.with_fields(&fields)
}

/// Gives the payload in a slot's bytes, whose digest was begun, another tag, in version 2. The payload stays where it stands.
pub fn reseal(digest: &PayloadDigest, tag: Tag, slot: &mut [u8])
    requires fields { IsTag tag }
    requires length { 64 ≤ length slot.old }
    requires kind { IsPayloadOf tag.kind (payload_of slot.old) }
    requires begun { digest.now ≡ payload_of slot.old }
    ensures { slot.new ≡ slot_2 tag (payload_of slot.old) }
{
    let fields = newest_fields(tag);
    let made = digest.with_fields(&fields);
    let (_, tail) = slot.split_at_mut(slot.len() - TAG_BYTES);
    let (front, back) = tail.split_at_mut(FIELD_BYTES);
    front.copy_from_slice(&fields);
    back.copy_from_slice(&made);
}
