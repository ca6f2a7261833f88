//! Looks at an array.
ghost use Rattle.fa_core.specs.Array.{IsWhole};

use crate::seen::{die_seen, live_mask, page_seen};
use fa_core::Array;
use fa_machine::{BatchId, ClaimId};
use fa_map_calls::Map;
use fa_types::{Die, Page};
use flasharr_lab_lines::Desk;
use flasharr_lab_parts::{Heap, Meter, Tools};
use flasharr_lab_words::{
    Look, MAX_DIES, Output, die_of, number_at, show_batch_state, show_closed, show_counts,
    show_die, show_die_word, show_history, show_live, show_page, show_page_word, show_thin,
};
use std::alloc::Allocator;

/// Tells a look.
pub(crate) fn show_look<'a, M: Map>(
    array: &Array<M, &'a Heap>,
    tools: &mut Tools<'a>,
    desk: &Desk<'a>,
    look: Look,
    numbers: &[u64],
)
    requires { IsWhole M.view array.now }
{
    let heap = tools.heap();
    let first = number_at(numbers, 0);
    let second = number_at(numbers, 1);
    let records = &desk.records;
    match look {
        Look::Results => {
            let batch = records.batch(first);
            show_results(array, batch, &mut tools.meter, &mut tools.output);
        }
        Look::NextThin => show_next_thin(array, &mut tools.meter, &mut tools.output),
        Look::Closed => show_closed_rounds(array, heap, first, second, &mut tools.output),
        Look::ClosedWithout => {
            let batch = records.batch(first);
            show_closed_without(
                array,
                heap,
                batch,
                second,
                number_at(numbers, 2),
                &mut tools.output,
            );
        }
        Look::All => show_all(array, records.batches(), &mut tools.output),
        _ => show_plain(array, look, first, &mut tools.output),
    }
}

/// Tells how a batch stands.
fn show_results<M: Map, A: Allocator + Copy>(
    array: &Array<M, A>,
    batch: BatchId,
    meter: &mut Meter<'_>,
    output: &mut Output,
)
    requires { IsWhole M.view array.now }
{
    let start = meter.start();
    let state = array.results(batch);
    meter.stop(start);
    show_batch_state(state, output);
}

/// Tells the next thin page.
fn show_next_thin<M: Map, A: Allocator + Copy>(
    array: &Array<M, A>,
    meter: &mut Meter<'_>,
    output: &mut Output,
) {
    let start = meter.start();
    let found = array.next_thin();
    meter.stop(start);
    show_thin(found, output);
}

/// Tells the closed rounds of a die among the next `count`.
fn show_closed_rounds<M: Map, A: Allocator + Copy>(
    array: &Array<M, A>,
    heap: A,
    die: u64,
    count: u64,
    output: &mut Output,
) {
    match array.closed(heap) {
        Ok(closed) => show_closed(&closed, die, count, output),
        Err(_) => output.fail(),
    }
}

/// Tells the same without the bookings of a batch.
fn show_closed_without<M: Map, A: Allocator + Copy>(
    array: &Array<M, A>,
    heap: A,
    batch: BatchId,
    die: u64,
    count: u64,
    output: &mut Output,
)
    requires { IsWhole M.view array.now }
{
    if array.batch_open(batch) {
        match array.closed_without(heap, batch) {
            Ok(closed) => show_closed(&closed, die, count, output),
            Err(_) => output.fail(),
        }
    } else {
        output.word("no batch");
    }
}

/// Tells a look that takes no memory and is not timed.
fn show_plain<M: Map, A: Allocator + Copy>(
    array: &Array<M, A>,
    look: Look,
    first: u64,
    output: &mut Output,
) {
    match look {
        Look::Array => show_array(array, output),
        Look::Page => show_page(Page(first), &page_seen(array, Page(first)), output),
        Look::Die => show_die(die_of(first), &die_seen(array, die_of(first)), output),
        Look::Claim => show_claim_state(array, ClaimId(first), output),
        Look::Live => show_live(live_mask(array), output),
        Look::Dies => show_dies(array, output),
        Look::Map => show_map(array, output),
        Look::History => show_history(array.history(), output),
        _ => show_counts(array.counts(), output),
    }
}

/// Tells all looks that take no memory.
fn show_all<M: Map, A: Allocator + Copy>(
    array: &Array<M, A>,
    batches: &[BatchId],
    output: &mut Output,
)
    requires { IsWhole M.view array.now }
{
    show_array(array, output);
    show_counts(array.counts(), output);
    show_thin(array.next_thin(), output);
    output.number(array.history().len() as u64);
    show_states(array, batches, output);
    show_each_die(array, output);
    show_each_page(array, output);
}

/// Tells how batches stand.
fn show_states<M: Map, A: Allocator + Copy>(
    array: &Array<M, A>,
    batches: &[BatchId],
    output: &mut Output,
)
    requires { IsWhole M.view array.now }
{
    for batch in batches {
        show_batch_state(array.results(*batch), output);
    }
}

fn show_each_die<M: Map, A: Allocator + Copy>(array: &Array<M, A>, output: &mut Output) {
    for die in 0..MAX_DIES {
        let die = Die(die as u8);
        show_die(die, &die_seen(array, die), output);
    }
}

fn show_each_page<M: Map, A: Allocator + Copy>(array: &Array<M, A>, output: &mut Output) {
    for page in 0..array.geometry().pages {
        show_page(Page(page), &page_seen(array, Page(page)), output);
        show_claim_state(array, ClaimId(page), output);
    }
}

fn show_array<M: Map, A: Allocator + Copy>(array: &Array<M, A>, output: &mut Output) {
    output.pair("round", array.now().0);
    output.pair("epoch", array.epoch());
    output.word(if array.is_busy() { "busy" } else { "idle" });
    output.word(if array.copy_open() {
        "copying"
    } else {
        "no copy"
    });
}

fn show_claim_state<M: Map, A: Allocator + Copy>(
    array: &Array<M, A>,
    claim: ClaimId,
    output: &mut Output,
) {
    output.word(if array.is_reserved(claim) {
        "reserved"
    } else if array.claim_open(claim) {
        "open"
    } else {
        "no claim"
    });
}

/// A word for each die.
fn show_dies<M: Map, A: Allocator + Copy>(array: &Array<M, A>, output: &mut Output) {
    output.word("dies");
    for die in 0..MAX_DIES {
        show_die_word(&die_seen(array, Die(die as u8)), output);
    }
}

/// A word for each page.
pub(crate) fn show_map<M: Map, A: Allocator + Copy>(array: &Array<M, A>, output: &mut Output) {
    output.word("map");
    for page in 0..array.geometry().pages {
        show_page_word(&page_seen(array, Page(page)), output);
    }
}
