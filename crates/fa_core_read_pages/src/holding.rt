//! The dies that hold a page.
ghost use Rattle.std.specs.Prelude.{◌≡◌, ◌<◌, ◌++◌, [], ◌∷◌, OnOk};
ghost use Rattle.fa_machine.specs.Reading.{entries_for};

use fa_batch::Batch;
use fa_map_calls::Map;
use fa_types::Page;
use std::alloc::{AllocError, Allocator};

/// One page more, with the live dies that have a current copy of it, rising. It takes a step along the page's chain for each. The error is
/// out of memory.
pub fn add_page<M: Map, A: Allocator + Copy>(
    page_map: &M,
    batch: &mut Batch<A>,
    page: Page,
) -> Result<(), AllocError>
    requires { page.0 < (M.view page_map.now).geometry.pages }
    ensures { OnOk result (batch.new ≡ batch.old ++ entries_for (M.view page_map.now) (page.0 ∷ [])) }
{
    batch.push(page, &[])?;
    let mut copy = page_map.first_copy(page);
    while let Some((die, slot)) = copy {
        batch.hold(die)?;
        copy = page_map.next_copy(page, die, slot);
    }
    Ok(())
}
