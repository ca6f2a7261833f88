//! Changes of the table of lists.
ghost use Rattle.std.specs.Prelude.{◌≡◌, ℕ, ◌+◌, ◌==◌, ◌&&◌, ◌<◌, ◌≤◌, ◌++◌, ◌∷◌, [], true, false, if◌then◌else◌, Some, None};
ghost use Rattle.std.specs.Prelude.{IfSome, OnOk, OnErr, ◌^◌, length, map, option_map, vec_capacity};
ghost use Rattle.fa_core_batches.specs.Counted.{CanChange, changed_at, count_in, counted_anew, is_open, moved, one, stands, state_at};
ghost use Rattle.fa_core_batches.specs.Pages.{answers_in, is_torn, list_at, page_at, room_in};
ghost use Rattle.fa_core_batches.specs.Whole.{IsOneLonger};
ghost use Rattle.fa_machine.specs.Maps.{is_one_of};
ghost use Rattle.fa_machine.specs.Step.{is_distinct};
ghost use Rattle.std.specs.Option.{option_map_or};

use crate::page::{BatchList, Lists, PageState, Pages};
use crate::pages::take_page;
use fa_machine::BatchId;
use fa_types::Page;
use std::alloc::{AllocError, Allocator};

/// The batch has this list from now on. The error is out of memory, and changes nothing.
pub fn insert_list<A: Allocator + Clone>(
    lists: &mut Lists<A>,
    batch: u64,
    list: BatchList<A>,
) -> Result<(), AllocError>
    ensures ok { OnOk result ((b : ℕ) → list_at lists.new.entries b ≡ (if b == batch then Some list else list_at lists.old.entries b)) }
    ensures err { OnErr result (lists.new.entries ≡ lists.old.entries) }
{
    match lists.insert(batch, list) {
        Ok(_) => Ok(()),
        Err(_) => Err(AllocError),
    }
}

/// The batch has no list any more. It is handed out.
pub fn take_list<A: Allocator + Clone>(lists: &mut Lists<A>, batch: BatchId) -> Option<BatchList<A>>
    ensures taken { result ≡ list_at lists.old.entries batch.0 }
    ensures left { (b : ℕ) → list_at lists.new.entries b ≡ (if b == batch.0 then None else list_at lists.old.entries b) }
{
    lists.remove(&batch.0)
}

/// One page more at the end of the batch's list, which has room for it.
pub fn push_page<A: Allocator + Clone>(
    lists: &mut Lists<A>,
    batch: BatchId,
    page: Page,
    state: PageState,
)
    requires room { 0 < option_map_or (λ list. room_in list) (list_at lists.old.entries batch.0) 0 }
    requires wide { option_map_or (λ list. list.room) (list_at lists.old.entries batch.0) 0
        ≤ option_map_or (λ list. vec_capacity list.pages) (list_at lists.old.entries batch.0) 0 }
    requires few { option_map_or (λ list. list.torn) (list_at lists.old.entries batch.0) 0
        ≤ option_map_or (λ list. length list.pages.items) (list_at lists.old.entries batch.0) 0 }
    requires open { option_map_or (λ list. list.unanswered) (list_at lists.old.entries batch.0) 0
        ≤ option_map_or (λ list. length list.pages.items) (list_at lists.old.entries batch.0) 0 }
    ensures others { (b : ℕ) → b == batch.0 ≡ false → list_at lists.new.entries b ≡ list_at lists.old.entries b }
    ensures longer { IsOneLonger page state (list_at lists.old.entries batch.0) (list_at lists.new.entries batch.0) }
{
    if let Some(list) = lists.get_mut(&batch.0) {
        list.pages.push_reserved(page);
        list.torn += usize::from(state.is_torn());
        list.unanswered += usize::from(state.is_open());
    }
}

/// One page of the batch, which stood so, stands otherwise from now on.
pub fn count_change<A: Allocator + Clone>(
    lists: &mut Lists<A>,
    batch: BatchId,
    was: Option<PageState>,
    is: PageState,
)
    requires { IfSome (list_at lists.old.entries batch.0) (CanChange was is) }
    ensures { (b : ℕ) → list_at lists.new.entries b ≡ option_map (changed_at batch.0 was is b) (list_at lists.old.entries b) }
{
    if let Some(list) = lists.get_mut(&batch.0) {
        list.torn = move_count(list.torn, was_torn(was), is.is_torn());
        list.unanswered = move_count(list.unanswered, was_open(was), is.is_open());
    }
}

/// A count, once one of what is counted stands otherwise.
fn move_count(count: usize, was: bool, is: bool) -> usize
    requires low { one was ≤ count }
    requires high { moved count was is < 2 ^ 64 }
    ensures { result ≡ moved count was is }
{
    count - usize::from(was) + usize::from(is)
}

fn was_torn(was: Option<PageState>) -> bool
    ensures { result ≡ stands is_torn was }
{
    match was {
        Some(state) => state.is_torn(),
        None => false,
    }
}

fn was_open(was: Option<PageState>) -> bool
    ensures { result ≡ stands is_open was }
{
    match was {
        Some(state) => state.is_open(),
        None => false,
    }
}

/// The pages of each list are counted anew. It takes a look at each page.
pub fn count_anew<A: Allocator + Clone>(lists: &mut Lists<A>, pages: &Pages<A>)
    ensures { (b : ℕ) → list_at lists.new.entries b ≡ option_map (counted_anew pages.now.entries b) (list_at lists.old.entries b) }
{
    lists.retain(
        |batch: &u64, list: &mut BatchList<A>| -> bool
            ensures kept { result ≡ true }
            ensures counted { list.new ≡ counted_anew pages.entry.now.entries batch.now list.old }
            ensures same { pages.exit ≡ pages.entry }
        {
            list.torn = count_torn(pages, *batch, &list.pages);
            list.unanswered = count_open(pages, *batch, &list.pages);
            true
        },
    );
}

/// How many of these pages of the batch have no answer, and no read that is booked or in flight.
fn count_torn<A: Allocator + Clone>(pages: &Pages<A>, batch: u64, list: &[Page]) -> usize
    ensures { result ≡ count_in is_torn (state_at pages.now.entries batch) (map (λ page. page.0) list.now) }
{
    list.iter()
        .filter(|page| was_torn(state_in(pages, batch, **page)))
        .count()
}

/// How many of these pages of the batch have no answer.
fn count_open<A: Allocator + Clone>(pages: &Pages<A>, batch: u64, list: &[Page]) -> usize
    ensures { result ≡ count_in is_open (state_at pages.now.entries batch) (map (λ page. page.0) list.now) }
{
    list.iter()
        .filter(|page| was_open(state_in(pages, batch, **page)))
        .count()
}

/// How a page of the batch stands, if it is there.
fn state_in<A: Allocator + Clone>(pages: &Pages<A>, batch: u64, page: Page) -> Option<PageState>
    ensures { result ≡ state_at pages.now.entries batch page.0 }
{
    match pages.get(&(batch, page.0)) {
        Some(entry) => Some(entry.state),
        None => None,
    }
}

/// The answers of these pages of the batch, in their order. They have no entries any more.
pub fn hand_out<A: Allocator + Clone>(
    pages: &mut Pages<A>,
    batch: BatchId,
    list: &[Page],
    answers: &mut Vec<(Page, Vec<u8, A>), A>,
)
    requires distinct { is_distinct (map (λ page. page.0) list.now) ≡ true }
    requires room { length list.now ≤ vec_capacity answers.old }
    requires none { answers.old.items ≡ [] }
    ensures answers { map (λ e. (e.0.0, e.1.items)) answers.new.items
        ≡ answers_in pages.old.entries batch.0 (map (λ page. page.0) list.now) }
    ensures left { (b p : ℕ) → page_at pages.new.entries b p
        ≡ (if b == batch.0 && is_one_of (map (λ page. page.0) list.now) p then None else page_at pages.old.entries b p) }
{
    for page in list {
        hand_out_page(pages, batch, *page, answers);
    }
}

/// The answer of this page of the batch comes behind the others. The page has no entry any more.
fn hand_out_page<A: Allocator + Clone>(
    pages: &mut Pages<A>,
    batch: BatchId,
    page: Page,
    answers: &mut Vec<(Page, Vec<u8, A>), A>,
)
    requires { length answers.old.items < vec_capacity answers.old }
    ensures answers { map (λ e. (e.0.0, e.1.items)) answers.new.items
        ≡ map (λ e. (e.0.0, e.1.items)) answers.old.items ++ answers_in pages.old.entries batch.0 (page.0 ∷ []) }
    ensures room { vec_capacity answers.new ≡ vec_capacity answers.old }
    ensures few { length answers.new.items ≤ length answers.old.items + 1 }
    ensures left { (b p : ℕ) → page_at pages.new.entries b p
        ≡ (if b == batch.0 && p == page.0 then None else page_at pages.old.entries b p) }
{
    let Some(entry) = take_page(pages, batch, page) else {
        return;
    };
    match entry.state {
        PageState::Answered => answers.push_reserved((page, entry.buffer)),
        _ => {}
    }
}
