//! What a request makes while no lock is held: lists of pages, and what pages are to hold.
ghost use Rattle.std.specs.Prelude.{◌≡◌, ◌+◌, ◌-◌, ◌*◌, ◌^◌, ◌≤◌, ◌∷◌, [], ◌&&◌, true, false, if◌then◌else◌, length, nat_le, map, IfOk};
ghost use Rattle.std.specs.Prelude.{IfSome, IfNone};
ghost use Rattle.fa_shared_steps.specs.Prepared.{IsFilled, IsListed, IsMerged, SortsPage, content as rule_content};
ghost use Rattle.fa_shared_steps.specs.Prepared.{has_content as rule_has, until as rule_until};
ghost use Rattle.fa_shared_steps.specs.Prepared.{has_part as rule_part, pages_between};
ghost use Rattle.fa_shared_steps.specs.Ranges.{IsRange, begins_at};
ghost use Rattle.fa_types.specs.Store.{with_bytes};

use crate::next::stopped;
use crate::page_list::PageList;
use crate::range::Range;
use crate::request::{Fill, Task};
use crate::stage::{PageClaim, Purpose, Stage, Wish};
use fa_tag::Payload;
use fa_types::bytes::{fill, part, put};
use fa_types::{BlockFault, Page};
use std::alloc::{AllocError, Allocator};

/// The most pages of a batch.
const MAX_BATCH: u64 = 1024;

/// The pages of the next batch.
pub fn list<A: Allocator + Copy>(alloc: A, range: Range, purpose: Purpose) -> Stage<A>
    requires { IsRange range }
    ensures { IsListed range purpose result }
{
    let (next, listed) = match purpose {
        Purpose::Merge(held) => (purpose, Ok(PageList::one(alloc, held.page))),
        Purpose::Answer(page) => {
            let past = until(range, page);
            (Purpose::Answer(past), PageList::between(alloc, page, past))
        }
    };
    match listed {
        Ok(pages) => Stage::Asking(next, pages),
        Err(_) => stopped(purpose, BlockFault::NoMemory),
    }
}

/// The page behind the last one of a batch that begins at this page.
fn until(range: Range, page: u64) -> u64
    requires { IsRange range }
    ensures { result ≡ rule_until range page }
{
    range.past_page().min(page.saturating_add(MAX_BATCH))
}

/// What a page that is written whole is to hold.
pub fn fill_page<A: Allocator + Copy>(
    alloc: A,
    task: Task,
    bytes: &[u8],
    held: PageClaim,
    fewer: bool,
) -> Stage<A>
    requires { IsRange task.range }
    ensures { IsFilled task bytes.now held fewer result }
{
    if !fewer && task.fill == Some(Fill::Holes) {
        return Stage::Reserving(held, Wish::Hole);
    }
    match content(alloc, task, bytes, held.page) {
        None => Stage::Releasing(held, Some(BlockFault::Lost)),
        Some(Err(_)) => Stage::Releasing(held, Some(BlockFault::NoMemory)),
        Some(Ok(filled)) => match Payload::new(filled) {
            Err(_) => Stage::Releasing(held, Some(BlockFault::NoMemory)),
            Ok(payload) => Stage::Reserving(held, wish_of(payload, fewer)),
        },
    }
}

/// The same with a payload that may have been made for it: where it has other bytes it is made anew.
pub fn fill_with<A: Allocator + Copy>(
    alloc: A,
    task: Task,
    bytes: &[u8],
    held: PageClaim,
    fewer: bool,
    payload: Payload<A>,
) -> Stage<A>
    requires { IsRange task.range }
    ensures { IsFilled task bytes.now held fewer result }
{
    if is_content(task, bytes, held.page, payload.bytes()) {
        Stage::Reserving(held, wish_of(payload, fewer))
    } else {
        fill_page(alloc, task, bytes, held, fewer)
    }
}

/// Whether these are the bytes of the request that go into a page.
fn is_content(task: Task, bytes: &[u8], page: Page, filled: &[u8]) -> bool
    requires { IsRange task.range }
    ensures { result ≡ true → (task.fill ≡ Some Fill.Bytes) × (filled.now ≡ rule_content task.fill task.range page.0 bytes.now) }
{
    let count = task.range.bytes_in(page.0);
    let offset = task.range.offset_of(page.0);
    task.fill == Some(Fill::Bytes)
        && fits(offset, count, bytes.len())
        && part(bytes, offset, count) == filled
}

/// A wish for these bytes, on as many dies as are asked for or on fewer.
fn wish_of<A: Allocator>(payload: Payload<A>, fewer: bool) -> Wish<A>
    ensures { result ≡ (if fewer then Wish.Fewer payload else Wish.Data payload) }
{
    if fewer {
        Wish::Fewer(payload)
    } else {
        Wish::Data(payload)
    }
}

/// What goes into a page, in memory of its own. None where the request has no bytes for it. The error is out of memory.
pub fn content<A: Allocator + Copy>(
    alloc: A,
    task: Task,
    bytes: &[u8],
    page: Page,
) -> Option<Result<Vec<u8, A>, AllocError>>
    requires { IsRange task.range }
    ensures some { IfSome result (λ made. IfOk made (λ filled. filled.items ≡ rule_content task.fill task.range page.0 bytes.now)) }
    ensures none { IfNone result (rule_has task.fill task.range page.0 bytes.now ≡ false) }
{
    let count = task.range.bytes_in(page.0);
    if task.fill != Some(Fill::Bytes) {
        return Some(vec![in alloc; 0u8; count]);
    }
    let offset = task.range.offset_of(page.0);
    if !fits(offset, count, bytes.len()) {
        return None;
    }
    Some(Vec::from_slice(alloc, part(bytes, offset, count)))
}

/// What a page that is written in part is to hold, where it held these bytes.
fn merge_page<A: Allocator + Copy>(
    task: Task,
    bytes: &[u8],
    held: PageClaim,
    given: Vec<u8, A>,
) -> Stage<A>
    requires { IsRange task.range }
    ensures { IsMerged task bytes.now held given.items result }
{
    let mut merged = given;
    if !put_content(merged.as_mut_slice(), task, bytes, held.page) {
        return Stage::Releasing(held, Some(BlockFault::Lost));
    }
    match Payload::new(merged) {
        Err(_) => Stage::Releasing(held, Some(BlockFault::NoMemory)),
        Ok(payload) => Stage::Reserving(held, Wish::Data(payload)),
    }
}

/// Puts what goes into a page over the bytes that it held, and says whether it could: there have to be bytes for it, and place.
fn put_content(into: &mut [u8], task: Task, bytes: &[u8], page: Page) -> bool
    requires { IsRange task.range }
    ensures put { result ≡ true → into.new
        ≡ with_bytes (begins_at task.range page.0) (rule_content task.fill task.range page.0 bytes.now) into.old }
    ensures tested { result ≡ (rule_has task.fill task.range page.0 bytes.now && rule_part task.range page.0 (length into.old)) }
{
    let begin = task.range.begins_at(page.0);
    let count = task.range.bytes_in(page.0);
    if task.fill != Some(Fill::Bytes) {
        if !fits(begin, count, into.len()) {
            return false;
        }
        fill(into, begin, count, 0);
        return true;
    }
    let offset = task.range.offset_of(page.0);
    if !fits(offset, count, bytes.len()) || !fits(begin, count, into.len()) {
        return false;
    }
    put(into, begin, part(bytes, offset, count));
    true
}

/// Whether so many bytes from an offset are within the length.
pub fn fits(offset: usize, count: usize, len: usize) -> bool
    ensures { result ≡ nat_le (offset + count) len }
{
    count <= len && offset <= len - count
}

/// What a page is to hold behind a batch of it alone.
pub fn sort_page<A: Allocator + Copy>(
    task: Task,
    bytes: &[u8],
    held: PageClaim,
    answers: Vec<(Page, Vec<u8, A>), A>,
) -> Stage<A>
    requires { IsRange task.range }
    ensures { SortsPage task bytes.now held (map (λ e. (e.0.0, e.1.items)) answers.items) result }
{
    let mut answers = answers;
    if answers.is_empty() {
        return Stage::Releasing(held, Some(BlockFault::Lost));
    }
    let (_, given) = answers.remove(0);
    merge_page(task, bytes, held, given)
}
