//! The digests of messages, for a comparison with another hash's.
ghost use Rattle.std.specs.Prelude.{◌≡◌, ◌-◌, ◌≤◌, All, IfOk, length};

use fa_lanes::{Begun, LANES, begin, digest_all};
use flasharr_lab_parts::Tools;
use flasharr_lab_words::{Output, bytes_of, first_length};
use std::alloc::{AllocError, Global};

/// How many bytes a block has, of which the beginning of a message has a whole number.
const BLOCK_BYTES: usize = 64;

/// How many bytes a digest has (SHA-256, FIPS 180-4).
const DIGEST_BYTES: usize = 32;

type Digest = [u8; DIGEST_BYTES];

/// The digests of messages, each made in two ways.
#[derive(Drop)]
struct Digests {
    /// Those of whole messages.
    whole: Vec<Digest>,
    /// Those where whole blocks are begun and the rest is the tail.
    begun: Vec<Digest>,
}

/// Hashes the messages of a text, and tells for each its digest, and its digest where its whole blocks are begun and the rest is its tail.
/// They are of one length; those of another than the first are left out.
pub(crate) fn hash_text(text: &str, tools: &mut Tools<'_>) {
    tools.output.word("digests");
    match messages_of(tools.alloc, text) {
        Ok(messages) => hash_all(messages.as_slice(), tools),
        Err(_) => tools.output.fail(),
    }
}

/// The messages of a text, one of each word. The error is out of memory.
fn messages_of(alloc: Global, text: &str) -> Result<Vec<Vec<u8>>, AllocError> {
    let mut list = Vec::new(alloc);
    for word in text.split(' ') {
        list.push(message_of(alloc, word))?;
    }
    Ok(list)
}

/// The bytes of a word, which is a letter and then hexadecimal digits.
fn message_of(alloc: Global, word: &str) -> Vec<u8> {
    match bytes_of(alloc, word.strip_prefix('x').unwrap_or("")) {
        Some(bytes) => bytes,
        None => Vec::new(alloc),
    }
}

/// Hashes messages and tells their digests. No clause says which digests it tells; a script compares them.
fn hash_all(messages: &[Vec<u8>], tools: &mut Tools<'_>) {
    let bytes = first_length(messages);
    let start = tools.meter.start();
    let found = digests_of(tools.alloc, messages, bytes);
    tools.meter.stop(start);
    match found {
        Ok(found) => show_digests(tools.alloc, &found, &mut tools.output),
        Err(_) => tools.output.fail(),
    }
}

/// Tells digests, the two of each message behind one another.
fn show_digests(alloc: Global, digests: &Digests, output: &mut Output) {
    for (digest, again) in digests.whole.iter().zip(digests.begun.iter()) {
        output.bytes(alloc, digest.as_slice());
        output.bytes(alloc, again.as_slice());
    }
}

/// The digests of the messages of this length. The error is out of memory.
fn digests_of(alloc: Global, messages: &[Vec<u8>], bytes: usize) -> Result<Digests, AllocError> {
    let whole = all_at_once(alloc, messages, bytes)?;
    let begun = begun_and_finished(alloc, messages, bytes)?;
    Ok(Digests { whole, begun })
}

/// The digests of the messages of this length, each hashed whole. The error is out of memory.
fn all_at_once(
    alloc: Global,
    messages: &[Vec<u8>],
    bytes: usize,
) -> Result<Vec<Digest>, AllocError> {
    let list = parts(alloc, messages, 0, bytes)?;
    let mut digests = vec![in alloc; [0u8; DIGEST_BYTES]; list.len()]?;
    digest_all(list.as_slice(), digests.as_mut_slice());
    Ok(digests)
}

/// The same digests, eight at a time and what is left over one by one: whole blocks are begun, and what stands behind
/// them is the tail. The error is out of memory.
fn begun_and_finished(
    alloc: Global,
    messages: &[Vec<u8>],
    bytes: usize,
) -> Result<Vec<Digest>, AllocError> {
    let from = BLOCK_BYTES * (bytes / BLOCK_BYTES);
    let payloads = parts(alloc, messages, 0, from)?;
    let tails = parts(alloc, messages, from, bytes)?;
    let count = payloads.len().min(tails.len());
    let mut digests = Vec::new(alloc);
    'eights: for i in 0..count / LANES {
        let first = LANES * i;
        let begun = begin(&payloads[first..first + LANES]);
        finish_each(&begun, &tails[first..first + LANES], &mut digests)?;
    }
    'rest: for i in LANES * (count / LANES)..count {
        let begun = begin(&[payloads[i]; LANES]);
        digests.push(begun[0].finish(tails[i]))?;
    }
    Ok(digests)
}

/// Lists the digests of messages that were begun, each with its tail behind it. The error is out of memory.
fn finish_each(
    begun: &[Begun],
    tails: &[&[u8]],
    digests: &mut Vec<Digest>,
) -> Result<(), AllocError> {
    'messages: for i in 0..begun.len().min(tails.len()) {
        digests.push(begun[i].finish(tails[i]))?;
    }
    Ok(())
}

/// What stands between two offsets of each message that is long enough. The error is out of memory.
fn parts<'a>(
    alloc: Global,
    messages: &'a [Vec<u8>],
    from: usize,
    to: usize,
) -> Result<Vec<&'a [u8]>, AllocError>
    requires { from ≤ to }
    ensures { IfOk result (λ parts. All (λ part. length part.now ≡ to - from) parts.items) }
{
    let mut parts = Vec::new(alloc);
    'messages: for message in messages {
        if let Some(part) = message.get(from..to) {
            parts.push(part)?;
        }
    }
    Ok(parts)
}
