//! How many pages and slots of an array are in which state.
use fa_core::Array;
use fa_machine::Block;
use fa_map_calls::Map;
use fa_prog_status::{PageStatus, SlotCounts};
use fa_types::{Die, Page};
use std::alloc::AllocError;

/// Counts the written ones of `pages` pages from `first` on. The error is out of memory.
pub(crate) fn count_pages<M: Map>(
    array: &Array<M>,
    first: u64,
    pages: u64,
    counted: &mut PageStatus,
) -> Result<(), AllocError> {
    let map = array.page_map();
    let wanted = u64::from(array.copies().min(map.live_dies()));
    let end = first.saturating_add(pages);
    for number in first..end.min(map.geometry().pages) {
        let page = Page(number);
        if map.version(page).is_some() {
            counted.note(number, u64::from(map.copies_of(page)), wanted)?;
        }
    }
    Ok(())
}

/// Adds the slots of `blocks` blocks of a die from `first` on.
pub(crate) fn count_slots<M: Map>(
    array: &Array<M>,
    die: Die,
    first: u32,
    blocks: u32,
    counted: &mut SlotCounts,
) {
    if !array.is_die(die) {
        return;
    }
    let map = array.page_map();
    let end = first.saturating_add(blocks);
    for block in first..end.min(map.geometry().blocks) {
        let found = map.counts(die, Block(block));
        counted.erased = counted.erased.saturating_add(u64::from(found.erased));
        counted.current = counted.current.saturating_add(u64::from(found.current));
        counted.stale = counted.stale.saturating_add(u64::from(found.stale));
    }
}
