//! What is seen of an array's dies and pages.
use fa_core::Array;
use fa_map_calls::Map;
use fa_types::{Die, Page, Slot};
use flasharr_lab_words::{DieSeen, LiveDie, MAX_DIES, Output, PageSeen, bit_of, show_live};
use std::alloc::Allocator;

/// What is seen of a die.
pub(crate) fn die_seen<M: Map, A: Allocator + Copy>(array: &Array<M, A>, die: Die) -> DieSeen {
    if !array.is_die(die) {
        return DieSeen::None;
    }
    if !array.is_live(die) {
        return DieSeen::Out;
    }
    DieSeen::Live(LiveDie {
        room: array.room(die),
        victim: array.victim(die),
        wants_window: array.wants_window(die),
        has_window: array.has_window(die),
        has_job: array.has_job(die),
        job: array.job_kind(die),
    })
}

/// What is seen of a page. None where there is no such page.
pub(crate) fn page_seen<M: Map, A: Allocator + Copy>(
    array: &Array<M, A>,
    page: Page,
) -> Option<PageSeen> {
    if !array.is_page(page) {
        return None;
    }
    let version = array.version(page);
    let mut copies = [None; MAX_DIES];
    for (die, copy) in copies.iter_mut().enumerate() {
        *copy = copy_seen(array, page, Die(die as u8));
    }
    Some(PageSeen { version, copies })
}

/// The slot of a page's current copy on a die.
pub(crate) fn copy_seen<M: Map, A: Allocator + Copy>(
    array: &Array<M, A>,
    page: Page,
    die: Die,
) -> Option<Slot> {
    if array.is_page(page) && array.is_die(die) {
        array.copy_on(page, die)
    } else {
        None
    }
}

/// The live dies of an array, as a mask.
pub(crate) fn live_mask<M: Map, A: Allocator + Copy>(array: &Array<M, A>) -> u64 {
    let mut mask = 0;
    for die in 0..MAX_DIES {
        let die = Die(die as u8);
        if array.is_die(die) && array.is_live(die) {
            mask |= bit_of(die.0 as usize);
        }
    }
    mask
}

/// The live dies of an array that was mounted.
pub(crate) fn show_mounted<M: Map, A: Allocator + Copy>(array: &Array<M, A>, output: &mut Output) {
    output.word("mounted");
    show_live(live_mask(array), output);
}
