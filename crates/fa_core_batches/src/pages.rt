//! Changes of the table of pages.
ghost use Rattle.std.specs.Prelude.{◌≡◌, ℕ, ◌==◌, ◌&&◌, if◌then◌else◌, true, is_some, Some, None, OnOk, OnErr, option_map};
ghost use Rattle.fa_core_batches.specs.Counted.{state_at};
ghost use Rattle.fa_core_batches.specs.Pages.{page_at, with_answer, with_state, with_die_out};

use crate::page::{BatchPage, PageState, Pages};
use fa_machine::BatchId;
use fa_types::{Die, Page};
use std::alloc::{AllocError, Allocator};

/// The page of the batch has this entry from now on. The error is out of memory, and changes nothing.
pub fn insert_page<A: Allocator + Clone>(
    pages: &mut Pages<A>,
    batch: BatchId,
    page: Page,
    entry: BatchPage<A>,
) -> Result<(), AllocError>
    ensures ok { OnOk result ((b p : ℕ) → page_at pages.new.entries b p
        ≡ (if b == batch.0 && p == page.0 then Some entry else page_at pages.old.entries b p)) }
    ensures err { OnErr result (pages.new.entries ≡ pages.old.entries) }
{
    match pages.insert((batch.0, page.0), entry) {
        Ok(_) => Ok(()),
        Err(_) => Err(AllocError),
    }
}

/// The page of the batch has no entry any more. It is handed out.
pub fn take_page<A: Allocator + Clone>(
    pages: &mut Pages<A>,
    batch: BatchId,
    page: Page,
) -> Option<BatchPage<A>>
    ensures taken { result ≡ page_at pages.old.entries batch.0 page.0 }
    ensures left { (b p : ℕ) → page_at pages.new.entries b p
        ≡ (if b == batch.0 && p == page.0 then None else page_at pages.old.entries b p) }
{
    pages.remove(&(batch.0, page.0))
}

/// The page of the batch stands otherwise from now on, if it is there. How it stood is answered.
pub fn set_state<A: Allocator + Clone>(
    pages: &mut Pages<A>,
    batch: BatchId,
    page: Page,
    state: PageState,
) -> Option<PageState>
    ensures was { result ≡ state_at pages.old.entries batch.0 page.0 }
    ensures pages { (b p : ℕ) → page_at pages.new.entries b p
        ≡ (if b == batch.0 && p == page.0 then option_map (with_state state) (page_at pages.old.entries b p)
        else page_at pages.old.entries b p) }
{
    let entry = pages.get_mut(&(batch.0, page.0))?;
    let was = entry.state;
    entry.state = state;
    Some(was)
}

/// The buffer has the answer of the page of the batch, if it is there. It and the page's buffer change places. How the page stood is
/// answered.
pub fn set_answer<A: Allocator + Clone>(
    pages: &mut Pages<A>,
    batch: BatchId,
    page: Page,
    buffer: &mut Vec<u8, A>,
) -> Option<PageState>
    ensures was { result ≡ state_at pages.old.entries batch.0 page.0 }
    ensures pages { (b p : ℕ) → page_at pages.new.entries b p
        ≡ (if b == batch.0 && p == page.0 then option_map (with_answer buffer.old) (page_at pages.old.entries b p)
        else page_at pages.old.entries b p) }
    ensures buffer { option_map (λ p. p.buffer) (page_at pages.old.entries batch.0 page.0)
        ≡ (if is_some (page_at pages.old.entries batch.0 page.0) then Some buffer.new else None) }
{
    let entry = pages.get_mut(&(batch.0, page.0))?;
    let was = entry.state;
    entry.state = PageState::Answered;
    std::mem::swap(&mut entry.buffer, buffer);
    Some(was)
}

/// A die is out: the reads that were booked or in flight there are lost. It takes a look at each page.
pub fn lose_die<A: Allocator + Clone>(pages: &mut Pages<A>, die: Die)
    ensures { (b p : ℕ) → page_at pages.new.entries b p ≡ option_map (with_die_out die.0) (page_at pages.old.entries b p) }
{
    pages.retain(
        |key: &(u64, u64), entry: &mut BatchPage<A>| -> bool
            ensures kept { result ≡ true }
            ensures written { entry.new ≡ with_die_out die.0 entry.old }
        {
            entry.state = entry.state.without_die(die);
            true
        },
    );
}
