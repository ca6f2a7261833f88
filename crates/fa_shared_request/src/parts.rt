//! A request on several pages, in parts that are done side by side.
ghost use Rattle.std.specs.Prelude.{◌≡◌, ℕ, ◌+◌, ◌≤◌, ◌^◌, true, IfOk, OnOk};
ghost use Rattle.std.specs.List.{list_all, sum_by};
ghost use Rattle.fa_shared_request.specs.Counts.{Counts};
ghost use Rattle.fa_shared_request.specs.PartCounts.{has_ended as rule_ended, left_in, pages_between, refusals_in, tally_of_parts};
ghost use Rattle.fa_shared_request.specs.Tallies.{pages_in, refusals_by, tally_of};
ghost use Rattle.fa_shared_steps.specs.Tasks.{end_of, task_of};

use crate::op::Op;
use fa_shared_steps::Request;
use fa_tag::Payload;
use fa_types::BlockFault;
use std::alloc::{AllocError, Allocator, Global};

/// How many parts a request has at most.
const PARTS: u64 = 64;

/// How many pages are hashed side by side.
const SIDE_BY_SIDE: usize = 8;

/// How many pages are prepared at a time at most: dies program what was prepared while the next ones are.
pub const TOGETHER: usize = 16;

/// A part of a request.
#[derive(Drop)]
pub struct Part<A: Allocator = Global> {
    /// Itself, a request of its own.
    pub op: Op<A, A>,
    /// Which of the request's bytes are its own.
    from: usize,
    to: usize,
}

/// The parts of a request: each begins where the one before it ends, and the last has what is left. The error is out of memory.
pub fn parts_of<A: Allocator + Copy>(
    alloc: A,
    page_bytes: u64,
    request: Request,
) -> Result<Vec<Part<A>, A>, AllocError>
    requires some { 1 ≤ page_bytes }
    requires small { page_bytes ≤ 4096 }
    requires inside { end_of request ≤ 2 ^ 32 }
    ensures left { IfOk result (λ parts. sum_by left_in parts.items ≡ pages_in (task_of page_bytes request)) }
    ensures begun { IfOk result (λ parts. sum_by refusals_in parts.items ≡ 0) }
{
    let (offset, len) = request.extent();
    let end = offset + len;
    let step = pages_of_part(len / page_bytes).saturating_mul(page_bytes);
    let mut parts = Vec::with_capacity(alloc, PARTS as usize)?;
    let mut edge = offset / page_bytes * page_bytes;
    let mut from = offset;
    for _ in 1..PARTS {
        edge = edge.saturating_add(step);
        let to = end.min(from.max(edge));
        push_part(&mut parts, alloc, page_bytes, request, from, to)?;
        from = to;
    }
    push_part(&mut parts, alloc, page_bytes, request, from, end)?;
    Ok(parts)
}

/// How many pages a part has of a request on so many whole ones: the fewest with which there are no more parts than there may be.
fn pages_of_part(pages: u64) -> u64 {
    pages.saturating_sub(1) / PARTS + 1
}

/// Adds the part from one offset to before another, if it has a byte.
fn push_part<A: Allocator + Copy>(
    parts: &mut Vec<Part<A>, A>,
    alloc: A,
    page_bytes: u64,
    request: Request,
    from: u64,
    to: u64,
) -> Result<(), AllocError>
    requires some { 1 ≤ page_bytes }
    requires small { page_bytes ≤ 4096 }
    requires order { from ≤ to }
    requires inside { to ≤ 2 ^ 32 }
    ensures left { OnOk result (sum_by left_in parts.new.items
        ≡ sum_by left_in parts.old.items + pages_between page_bytes request from to) }
    ensures begun { OnOk result (sum_by refusals_in parts.new.items ≡ sum_by refusals_in parts.old.items) }
{
    if from == to {
        return Ok(());
    }
    let op = Op::new(alloc, alloc, request.within(from, to), page_bytes)?;
    let offset = request.extent().0;
    parts.push(Part {
        op,
        from: from.saturating_sub(offset) as usize,
        to: to.saturating_sub(offset) as usize,
    })?;
    Ok(())
}

/// Whether all parts have ended.
pub fn has_ended<A: Allocator + Copy>(parts: &[Part<A>]) -> bool
    ensures { result ≡ list_all rule_ended parts.now }
{
    parts.iter().all(|part| part.op.ended().is_some())
}

/// The fault of the first part that was refused, where all have ended.
pub fn fault_of<A: Allocator + Copy>(parts: &[Part<A>]) -> Result<(), BlockFault>
    requires { list_all rule_ended parts.now ≡ true }
    ensures { OnOk result (sum_by refusals_in parts.now ≡ 0) }
{
    for part in parts {
        if let Some(fault) = refusal(part) {
            return Err(fault);
        }
    }
    Ok(())
}

/// The fault of a part that has ended, if it was refused.
fn refusal<A: Allocator + Copy>(part: &Part<A>) -> Option<BlockFault>
    requires { rule_ended part.now ≡ true }
    ensures { refusals_in part.now ≡ refusals_by result }
{
    match part.op.ended() {
        Some(fault) => fault,
        None => None,
    }
}

/// Prepares each part that has something to prepare. The pages' bytes are hashed side by side, where there is memory for that, and those
/// that are left over wait for others, where there are as many as are hashed side by side.
pub fn prepare<A: Allocator + Copy>(alloc: A, parts: &mut [Part<A>], bytes: &[u8])
    ensures { (commits : ℕ) → Counts (tally_of_parts commits parts.old) (tally_of_parts commits parts.new) }
{
    let mut left = hashed_now(parts);
    let mut payloads = match payloads_of(alloc, parts, bytes, left) {
        Ok(payloads) => payloads,
        Err(_) => Vec::new(alloc),
    };
    for part in parts {
        if !takes_turn(part, &mut left) {
            continue;
        }
        prepare_part(part, bytes, &mut payloads);
    }
}

/// How many pages are hashed now: those whose bytes are to be hashed, as far as they are prepared at a time, and where these are more than
/// are hashed side by side, so many at a time.
fn hashed_now<A: Allocator + Copy>(parts: &[Part<A>]) -> usize {
    let ready = parts.iter().filter(|part| part.op.has_content()).count();
    let ready = ready.min(TOGETHER);
    if ready > SIDE_BY_SIDE {
        ready.saturating_sub(ready % SIDE_BY_SIDE)
    } else {
        ready
    }
}

/// Whether a part is prepared now, where the bytes of so many pages more are hashed: one that has none to hash is.
fn takes_turn<A: Allocator + Copy>(part: &Part<A>, left: &mut usize) -> bool {
    if !part.op.has_content() {
        return true;
    }
    let is_left = *left > 0;
    *left = left.saturating_sub(1);
    is_left
}

/// Prepares a part, if it has something to prepare, with the payload that was made for it, if there is one.
fn prepare_part<A: Allocator + Copy>(
    part: &mut Part<A>,
    bytes: &[u8],
    payloads: &mut Vec<Payload<A>, A>,
)
    ensures { (commits : ℕ) → Counts (tally_of commits part.old.op) (tally_of commits part.new.op) }
{
    let own = bytes.get(part.from..part.to).unwrap_or(&[]);
    if !part.op.has_content() {
        part.op.prepare(own);
    } else if let Some(payload) = payloads.pop() {
        part.op.prepare_with(own, payload);
    } else {
        part.op.prepare(own);
    }
}

/// What the first parts are to write next, of so many pages at most, from behind. The error is out of memory.
fn payloads_of<A: Allocator + Copy>(
    alloc: A,
    parts: &[Part<A>],
    bytes: &[u8],
    most: usize,
) -> Result<Vec<Payload<A>, A>, AllocError> {
    let mut contents = Vec::with_capacity(alloc, parts.len())?;
    for part in parts {
        if contents.len() >= most {
            break;
        }
        let own = bytes.get(part.from..part.to).unwrap_or(&[]);
        if let Some(content) = part.op.next_content(own) {
            contents.push(content)?;
        }
    }
    Payload::all(contents)
}
