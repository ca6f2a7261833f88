//! Which pages of an array are lost.
ghost use Rattle.std.specs.Prelude.{◌≡◌, ◌&&◌};
ghost use Rattle.fa_core.specs.Array.{state_of};
ghost use Rattle.fa_machine.specs.Copies.{is_lost as rule_lost};
ghost use Rattle.fa_machine.specs.Step.{is_page};

use fa_core::Array;
use fa_map_calls::Map;
use fa_prog_host::LostPages;
use fa_types::Page;
use std::alloc::{AllocError, Global};

/// Whether this is a page that was written and stands on no live die.
fn is_lost<M: Map>(array: &Array<M>, page: Page) -> bool
    ensures { result ≡ (is_page (state_of M.view array.now) page.0 && rule_lost (state_of M.view array.now).page_map page.0) }
{
    array.is_page(page) && fa_core_read_pages::is_lost(array.page_map(), page)
}

/// Notes the lost ones of `pages` pages from `first` on. The error is out of memory.
pub(crate) fn note_lost<M: Map>(
    array: &Array<M>,
    first: u64,
    pages: u64,
    lost: &mut LostPages,
) -> Result<(), AllocError> {
    let end = first.saturating_add(pages);
    for page in first..end.min(array.geometry().pages) {
        if is_lost(array, Page(page)) {
            lost.note(page)?;
        }
    }
    Ok(())
}

/// How many of `pages` pages from `first` on are lost.
pub(crate) fn count_lost<M: Map>(array: &Array<M>, first: u64, pages: u64) -> u64 {
    let mut lost = 0u64;
    let end = first.saturating_add(pages);
    for page in first..end.min(array.geometry().pages) {
        if is_lost(array, Page(page)) {
            lost = lost.saturating_add(1);
        }
    }
    lost
}

/// The lines of the pages of an array that are lost. The error is out of memory.
pub fn lost_lines<M: Map>(global: Global, array: &Array<M>) -> Result<String, AllocError> {
    let mut lost = LostPages::new(global);
    note_lost(array, 0, array.geometry().pages, &mut lost)?;
    lost.lines()
}
