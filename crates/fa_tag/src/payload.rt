//! A page's bytes, shared by the copies that are written of it.
ghost use Rattle.std.specs.Prelude.{◌≡◌, ◌+◌, length, map, IfOk};
ghost use Rattle.fa_tag.specs.SlotGrammar.{IsTag, IsPayloadOf, slot_2};

use crate::payload_digest::PayloadDigest;
use crate::tag::Tag;
use std::alloc::{AllocError, Allocator, Global};
use std::marker::Model;
use std::sync::Arc;

/// The bytes of a page that is to be written, with their digest begun: one buffer that is shared and never copied. Whoever writes
/// makes it, so that the bytes are hashed once for all copies of the page and by nobody else. Clauses see the bytes.
#[derive(Drop)]
pub struct Payload<A: Allocator = Global> {
    hashed: Arc<Hashed<A>, A>,
}

impl<A: Allocator> Model for Payload<A> {
    ghost use Rattle.std.specs.Prelude.{List, ℕ};
    ghost use Rattle.std.specs.Arc.{arc_value};

    ghost Value = { List ℕ };

    ghost view = { λ payload. arc_value payload.hashed };
}

impl<A: Allocator + Clone> Payload<A> {
    /// Hashes the bytes, which are kept as they are. The error is out of memory.
    pub fn new(bytes: Vec<u8, A>) -> Result<Payload<A>, AllocError>
        ensures { IfOk result (λ payload. payload ≡ bytes.items) }
    {
        let digest = PayloadDigest::begin(bytes.as_slice());
        Payload::hashed(bytes, digest)
    }

    /// The same of bytes whose digest was begun already.
    pub fn hashed(bytes: Vec<u8, A>, digest: PayloadDigest) -> Result<Payload<A>, AllocError>
        requires { digest ≡ bytes.items }
        ensures { IfOk result (λ payload. payload ≡ bytes.items) }
    {
        let alloc = bytes.allocator().clone()?;
        let hashed = Arc::new(alloc, Hashed { bytes, digest })?;
        Ok(Payload { hashed })
    }

    /// The same of several lists of bytes, in their order from behind. Those of one length are hashed side by side. The error is out of
    /// memory.
    pub fn all(contents: Vec<Vec<u8, A>, A>) -> Result<Vec<Payload<A>, A>, AllocError> {
        let alloc = contents.allocator().clone()?;
        let digests = digests_of(alloc.clone()?, contents.as_slice())?;
        payloads_of(alloc, contents, digests)
    }
}

impl<A: Allocator> Payload<A> {
    /// The same bytes for one more holder. The error is that a count of holders is full.
    pub fn share(&self) -> Result<Payload<A>, AllocError>
        ensures { IfOk result (λ payload. payload ≡ self.now) }
    {
        let hashed = self.hashed.clone()?;
        Ok(Payload { hashed })
    }

    /// The bytes.
    pub fn bytes(&self) -> &[u8]
        ensures bytes { result.now ≡ self.now }
        ensures length { length result.now ≡ length self.now }
    {
        self.hashed.bytes()
    }

    /// Writes the bytes with a tag: what [`crate::seal`] writes.
    pub fn seal(&self, tag: Tag, out: &mut [u8])
        requires fields { IsTag tag }
        requires kind { IsPayloadOf tag.kind self.now }
        requires length { length out.old ≡ length self.now + 64 }
        ensures { out.new ≡ slot_2 tag self.now }
    {
        self.hashed.seal(tag, out)
    }
}

/// The digests of several lists of bytes, begun. The error is out of memory.
fn digests_of<A: Allocator + Clone>(
    alloc: A,
    contents: &[Vec<u8, A>],
) -> Result<Vec<PayloadDigest, A>, AllocError>
    ensures { IfOk result (λ digests. digests.items ≡ map (λ bytes. bytes.items) contents.now) }
{
    let mut slices = Vec::with_capacity(alloc.clone()?, contents.len())?;
    let mut digests = Vec::with_capacity(alloc, contents.len())?;
    for bytes in contents {
        slices.push(bytes.as_slice())?;
        digests.push(PayloadDigest::begin(&[]))?;
    }
    PayloadDigest::begin_all(slices.as_slice(), digests.as_mut_slice());
    Ok(digests)
}

/// The payloads of these bytes, whose digests were begun, from behind. The error is out of memory.
fn payloads_of<A: Allocator + Clone>(
    alloc: A,
    contents: Vec<Vec<u8, A>, A>,
    digests: Vec<PayloadDigest, A>,
) -> Result<Vec<Payload<A>, A>, AllocError>
    requires { digests.items ≡ map (λ bytes. bytes.items) contents.items }
{
    let mut contents = contents;
    let mut digests = digests;
    let mut payloads = Vec::with_capacity(alloc, contents.len())?;
    for _ in 0..contents.len() {
        let Some(payload) = pop_payload(&mut contents, &mut digests)? else {
            break;
        };
        payloads.push(payload)?;
    }
    Ok(payloads)
}

/// The payload of the last of these bytes, whose digests were begun, if there are any. Both go from their lists. The error is out of memory.
fn pop_payload<A: Allocator + Clone>(
    contents: &mut Vec<Vec<u8, A>, A>,
    digests: &mut Vec<PayloadDigest, A>,
) -> Result<Option<Payload<A>>, AllocError>
    requires { digests.old.items ≡ map (λ bytes. bytes.items) contents.old.items }
    ensures { digests.new.items ≡ map (λ bytes. bytes.items) contents.new.items }
{
    match (contents.pop(), digests.pop()) {
        (Some(bytes), Some(digest)) => Ok(Some(Payload::hashed(bytes, digest)?)),
        _ => Ok(None),
    }
}

/// Bytes with their digest begun.
#[derive(Drop)]
struct Hashed<A: Allocator> {
    bytes: Vec<u8, A>,
    digest: PayloadDigest,
}

impl<A: Allocator> Model for Hashed<A> {
    ghost use Rattle.std.specs.Prelude.{◌≡◌, List, ℕ};

    ghost Value = { List ℕ };

    ghost view = { λ hashed. hashed.bytes.items };

    ghost invariant = { λ hashed. hashed.digest ≡ hashed.bytes.items };
}

impl<A: Allocator> Hashed<A> {
    fn bytes(&self) -> &[u8]
        ensures bytes { result.now ≡ self.now }
        ensures length { length result.now ≡ length self.now }
    {
        self.bytes.as_slice()
    }

    fn seal(&self, tag: Tag, out: &mut [u8])
        requires fields { IsTag tag }
        requires kind { IsPayloadOf tag.kind self.now }
        requires length { length out.old ≡ length self.now + 64 }
        ensures { out.new ≡ slot_2 tag self.now }
    {
        self.digest.seal(tag, self.bytes.as_slice(), out)
    }
}
