//! Copies of a write in the place of those of older ones.
ghost use Rattle.std.specs.Prelude.{◌≡◌};
ghost use Rattle.fa_core_commit.specs.Holding.{MayHoldAll, live_of};
ghost use Rattle.fa_machine.specs.Writing.{with_targets};
ghost use Rattle.fa_machine.specs.declared.places.Used.TheVariants.{Held};
ghost use Rattle.fa_map_calls.specs.Changes.{renewed};

use fa_machine::{Target, Version};
use fa_map_calls::Map;
use fa_types::Page;

/// The write is the page's last: those of these slots that are on live dies hold it, and each copy that the page had is stale.
pub fn replace_copies<M: Map>(page_map: &mut M, page: Page, version: Version, slots: &[Target])
    requires { MayHoldAll (renewed page.0 version (M.view page_map.old)) page version slots.now }
    ensures { M.view page_map.new
        ≡ with_targets (Held page version) (live_of (M.view page_map.old) slots.now) (renewed page.0 version (M.view page_map.old)) }
{
    page_map.renew(page, version);
    hold_slots(page_map, page, version, slots);
}

/// Those of these slots that are on live dies hold the page's last write, which is this one.
fn hold_slots<M: Map>(page_map: &mut M, page: Page, version: Version, slots: &[Target])
    requires { MayHoldAll (M.view page_map.old) page version slots.now }
    ensures { M.view page_map.new ≡ with_targets (Held page version) (live_of (M.view page_map.old) slots.now) (M.view page_map.old) }
{
    for index in 0..slots.len() {
        let slot = slots[index];
        if page_map.is_live(slot.die) {
            page_map.hold(page, version, slot.die, slot.slot);
        }
    }
}
