//! Pages that are lost.
ghost use Rattle.std.specs.Prelude.{◌≡◌, ◌<◌, find, map, option_map};
ghost use Rattle.std.specs.List.{All};
ghost use Rattle.fa_machine.specs.Copies.{is_lost as rule_lost};

use fa_map_calls::Map;
use fa_types::Page;

/// Whether the page was written, and no live die has a current copy.
pub fn is_lost<M: Map>(page_map: &M, page: Page) -> bool
    requires { page.0 < (M.view page_map.now).geometry.pages }
    ensures { result ≡ rule_lost (M.view page_map.now) page.0 }
{
    page_map.version(page).is_some() && page_map.first_copy(page).is_none()
}

/// The first of these pages that is lost.
pub fn first_lost<M: Map>(page_map: &M, pages: &[Page]) -> Option<Page>
    requires { All (λ page. page.0 < (M.view page_map.now).geometry.pages) pages.now }
    ensures { option_map (λ page. page.0) result ≡ find (rule_lost (M.view page_map.now)) (map (λ page. page.0) pages.now) }
{
    for page in pages {
        if is_lost(page_map, *page) {
            return Some(*page);
        }
    }
    None
}
