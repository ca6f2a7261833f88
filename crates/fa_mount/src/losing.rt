//! Which dies of an array are live, and which of its pages are lost where some of them are left.
ghost use Rattle.std.specs.Prelude.{◌≡◌, ◌<◌, ◌&&◌, ℕ, option_map};
ghost use Rattle.fa_core.specs.Array.{state_of};
ghost use Rattle.fa_mount_headers.specs.Rules.{is_in as rule_in};
ghost use Rattle.fa_machine.specs.Copies.{holds_page};
ghost use Rattle.fa_machine.specs.State.{is_live};
ghost use Rattle.fa_mount.specs.Closing.{is_held_in, is_lost_in, lowest_lost};

use crate::masks::{is_in, with};
use fa_core::Array;
use fa_map_calls::Map;
use fa_types::{Die, Page};
use std::alloc::Allocator;

/// The mask of the live dies.
pub(crate) fn live_mask<M: Map, A: Allocator + Clone>(array: &Array<M, A>) -> u64
    ensures live { (die : ℕ) → rule_in result die ≡ is_live (state_of M.view array.now).page_map die }
{
    let mut mask = 0;
    for die in 0..array.geometry().dies {
        if array.is_live(Die(die as u8)) {
            mask = with(mask, die);
        }
    }
    mask
}

/// The lowest page that was written and that no die of the mask holds.
pub(crate) fn lost_page<M: Map, A: Allocator + Clone>(
    array: &Array<M, A>,
    mask: u64,
) -> Option<Page>
    ensures { option_map (λ page. page.0) result ≡ lowest_lost (state_of M.view array.now).page_map mask }
{
    for page in 0..array.geometry().pages {
        if is_lost(array, mask, Page(page)) {
            return Some(Page(page));
        }
    }
    None
}

/// Whether the page was written and no die of the mask holds it.
fn is_lost<M: Map, A: Allocator + Clone>(array: &Array<M, A>, mask: u64, page: Page) -> bool
    requires { page.0 < (state_of M.view array.now).page_map.geometry.pages }
    ensures { result ≡ is_lost_in (state_of M.view array.now).page_map mask page.0 }
{
    array.version(page).is_some() && !is_held(array, mask, page)
}

/// Whether a die of the mask holds the page.
fn is_held<M: Map, A: Allocator + Clone>(array: &Array<M, A>, mask: u64, page: Page) -> bool
    requires { page.0 < (state_of M.view array.now).page_map.geometry.pages }
    ensures { result ≡ is_held_in (state_of M.view array.now).page_map mask page.0 }
{
    for die in 0..array.geometry().dies {
        if is_holder(array, mask, page, die) {
            return true;
        }
    }
    false
}

/// Whether the die is in the mask and holds the page.
fn is_holder<M: Map, A: Allocator + Clone>(
    array: &Array<M, A>,
    mask: u64,
    page: Page,
    die: u32,
) -> bool
    requires page { page.0 < (state_of M.view array.now).page_map.geometry.pages }
    requires die { die < (state_of M.view array.now).page_map.geometry.dies }
    requires few { die < 64 }
    ensures { result ≡ (rule_in mask die && holds_page (state_of M.view array.now).page_map page.0 die) }
{
    is_in(mask, die) && array.copy_on(page, Die(die as u8)).is_some()
}
