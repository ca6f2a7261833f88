//! The answer of a read, put together of what its batches gave.
ghost use Rattle.std.specs.Prelude.{◌≡◌, ◌++◌, ◌^◌, ◌≤◌, true, false, length, map, IfOk};
ghost use Rattle.std.specs.List.{flat_map, list_all};
ghost use Rattle.fa_shared_steps.specs.Prepared.{SortsAnswer, after_batch as rule_after, has_part};
ghost use Rattle.fa_shared_steps.specs.Ranges.{IsRange, part_of};

use fa_shared_steps::{Purpose, Range, Stage, fits};
use fa_types::bytes::part;
use fa_types::{BlockFault, Page};
use std::alloc::{AllocError, Allocator};

/// What a read comes to behind a batch that gave this, with the buffers kept, to be given back.
pub(crate) fn sort_lent<A: Allocator, B: Allocator>(
    range: Range,
    page: u64,
    answers: Vec<(Page, Vec<u8, A>), A>,
    out: &mut Vec<u8, B>,
    lent: &mut Vec<(Page, Vec<u8, A>), A>,
) -> Stage<A>
    requires { IsRange range }
    ensures { SortsAnswer range page (map (λ e. (e.0.0, e.1.items)) answers.items) out.old.items result out.new.items }
{
    let next = sort_answer(range, page, answers.as_slice(), out);
    *lent = answers;
    next
}

/// What a read comes to behind a batch that gave this: its answer has the pages' parts behind what it had.
fn sort_answer<A: Allocator, B: Allocator>(
    range: Range,
    page: u64,
    answers: &[(Page, Vec<u8, A>)],
    out: &mut Vec<u8, B>,
) -> Stage<A>
    requires { IsRange range }
    ensures { SortsAnswer range page (map (λ e. (e.0.0, e.1.items)) answers.now) out.old.items result out.new.items }
{
    match gather(range, answers, out) {
        Ok(true) => after_batch(range, page, out.as_slice()),
        Ok(false) => Stage::Ended(Some(BlockFault::Lost)),
        Err(_) => Stage::Ended(Some(BlockFault::NoMemory)),
    }
}

/// The next batch of a read, or its end, where the answer is whole.
fn after_batch<A: Allocator>(range: Range, page: u64, answer: &[u8]) -> Stage<A>
    requires { IsRange range }
    ensures { result ≡ rule_after range page answer.now }
{
    if page < range.past_page() {
        return Stage::Listing(Purpose::Answer(page));
    }
    if answer.len() as u64 == range.to - range.from {
        Stage::Ended(None)
    } else {
        Stage::Ended(Some(BlockFault::Lost))
    }
}

/// Adds the part of each page that is in the range to the answer, and says whether each page had it. The error is out of memory.
fn gather<A: Allocator, B: Allocator>(
    range: Range,
    answers: &[(Page, Vec<u8, A>)],
    out: &mut Vec<u8, B>,
) -> Result<bool, AllocError>
    requires { IsRange range }
    ensures whole { IfOk result (λ whole. whole ≡ true
        → out.new.items ≡ out.old.items ++ flat_map (λ e. part_of range e.0.0 e.1.items) answers.now) }
    ensures short { IfOk result (λ whole. whole ≡ false
        → list_all (λ e. has_part range e.0.0 (length e.1.items)) answers.now ≡ false) }
{
    for (page, bytes) in answers {
        if !add_part(range, *page, bytes.as_slice(), out)? {
            return Ok(false);
        }
    }
    Ok(true)
}

/// Adds the part of a page that is in the range, and says whether the page has it. The error is out of memory.
fn add_part<B: Allocator>(
    range: Range,
    page: Page,
    bytes: &[u8],
    out: &mut Vec<u8, B>,
) -> Result<bool, AllocError>
    requires { IsRange range }
    ensures test { IfOk result (λ has. has ≡ has_part range page.0 (length bytes.now)) }
    ensures part { IfOk result (λ has. has ≡ true → out.new.items ≡ out.old.items ++ part_of range page.0 bytes.now) }
{
    let begin = range.begins_at(page.0);
    let count = range.bytes_in(page.0);
    if !fits(begin, count, bytes.len()) {
        return Ok(false);
    }
    out.extend_from_slice(part(bytes, begin, count))?;
    Ok(true)
}
