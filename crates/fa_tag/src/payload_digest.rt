//! The digest of a slot, begun with its payload.
ghost use Rattle.std.specs.Prelude.{◌≡◌, ◌+◌, ◌++◌, length, map};
ghost use Rattle.sha2.specs.Sha256.{sha256};
ghost use Rattle.fa_lanes.specs.Beginning.{IsBegun};
ghost use Rattle.fa_tag.specs.SlotGrammar.{IsTag, IsPayloadOf, slot_2};

use crate::eights::have_length;
use crate::fields::{FIELD_BYTES, newest_fields};
use crate::numbers::join;
use crate::tag::Tag;
use fa_ghost::History;
use fa_lanes::{Begun, LANES, begin};
use sha2::{Digest, Sha256};
use std::marker::Model;

/// The digest of a slot as far as the payload goes (SHA-256, FIPS 180-4). The copies of a page have
/// one payload and each its own tag: with this the payload is hashed once for all of them. It takes
/// about a hundred bytes of memory, and does not keep the payload.
#[derive(Drop)]
pub struct PayloadDigest {
    state: State,
    hashed: History<Bytes>,
}

/// How far a digest has come.
#[derive(Drop)]
enum State {
    /// The payload was hashed by itself.
    Alone(Sha256),
    /// It was hashed side by side with others.
    Among(Begun),
}

impl Model for PayloadDigest {
    ghost use Rattle.std.specs.Prelude.{List, ℕ};
    ghost use Rattle.fa_tag.specs.Hashed.{HasHashed};

    ghost Value = { List ℕ };

    ghost view = { λ digest. digest.hashed.shown };

    ghost invariant = { λ digest. HasHashed digest.state digest.hashed.shown };
}

impl PayloadDigest {
    /// Hashes the payload.
    pub fn begin(payload: &[u8]) -> PayloadDigest
        ensures { result ≡ payload.now }
    {
        let mut hasher = Sha256::new();
        hasher.update(payload);
        let hashed = History::begin(&payload);
        PayloadDigest {
            state: State::Alone(hasher),
            hashed,
        }
    }

    /// Hashes each payload, in place of what was hashed before. Eight payloads of one length, a multiple of 64
    /// bytes, are hashed side by side, and what is left over one by one.
    pub fn begin_all(payloads: &[&[u8]], digests: &mut [PayloadDigest])
        requires { length digests.old ≡ length payloads.now }
        ensures { digests.new ≡ map (λ payload. payload.now) payloads.now }
    {
        let eights = payloads.len() / LANES;
        'eights: for i in 0..eights {
            let from = LANES * i;
            begin_eight(
                &payloads[from..from + LANES],
                &mut digests[from..from + LANES],
            );
        }
        'rest: for i in LANES * eights..payloads.len() {
            digests[i] = PayloadDigest::begin(payloads[i]);
        }
    }

    /// Writes the payload, which has to be the one that was hashed, with a tag: what [`crate::seal`]
    /// writes.
    pub fn seal(&self, tag: Tag, payload: &[u8], out: &mut [u8])
        requires fields { IsTag tag }
        requires kind { IsPayloadOf tag.kind payload.now }
        requires hashed { self.now ≡ payload.now }
        requires length { length out.old ≡ length payload.now + 64 }
        ensures { out.new ≡ slot_2 tag payload.now }
    {
        let fields = newest_fields(tag);
        let digest = self.with_fields(&fields);
        join(out, payload, &fields, &digest);
    }

    /// The digest of the payload and these fields behind it.
    pub(crate) fn with_fields(&self, fields: &[u8; FIELD_BYTES]) -> [u8; 32]
        ensures { result ≡ sha256 (self.now ++ fields.now) }
    {
        match &self.state {
            State::Alone(hasher) => {
                let mut hasher = same_state(hasher);
                hasher.update(fields);
                hasher.finalize()
            }
            State::Among(begun) => begun.finish(fields),
        }
    }

    /// A payload that was hashed side by side with others.
    pub(crate) fn among(begun: Begun, payload: &[u8]) -> PayloadDigest
        requires { IsBegun begun payload.now }
        ensures { result ≡ payload.now }
    {
        let hashed = History::begin(&payload);
        PayloadDigest {
            state: State::Among(begun),
            hashed,
        }
    }
}

/// Bytes, for a history that shows them. No value of it is made.
struct Bytes {}

impl Model for Bytes {
    ghost use Rattle.std.specs.Prelude.{List, ℕ, []};

    ghost Value = { List ℕ };

    ghost view = { λ _. [] };
}

/// Hashes eight payloads.
fn begin_eight(payloads: &[&[u8]], digests: &mut [PayloadDigest])
    requires payloads { length payloads.now ≡ 8 }
    requires digests { length digests.old ≡ 8 }
    ensures { digests.new ≡ map (λ payload. payload.now) payloads.now }
{
    let bytes = payloads[0].len();
    if bytes % 64 != 0 || !have_length(payloads, bytes) {
        begin_each(payloads, digests);
        return;
    }
    let begun = begin(payloads);
    'payloads: for i in 0..LANES {
        digests[i] = PayloadDigest::among(begun[i], payloads[i]);
    }
}

/// Hashes any payloads, one by one.
fn begin_each(payloads: &[&[u8]], digests: &mut [PayloadDigest])
    requires { length digests.old ≡ length payloads.now }
    ensures { digests.new ≡ map (λ payload. payload.now) payloads.now }
{
    'payloads: for i in 0..payloads.len() {
        digests[i] = PayloadDigest::begin(payloads[i]);
    }
}

/// A hasher in the same state.
fn same_state(hasher: &Sha256) -> Sha256
    ensures { result ≡ hasher.now }
{
    match hasher.clone() {
        Ok(copy) => copy,
        Err(_) => unreachable!(),
    }
}
