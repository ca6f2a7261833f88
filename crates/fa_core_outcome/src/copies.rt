//! What a read gave.
ghost use Rattle.std.specs.Prelude.{◌≡◌, ℕ, List, if◌then◌else◌, None, Some};
ghost use Rattle.fa_core_outcome.specs.Outcomes.{cell_of};
ghost use Rattle.fa_machine.specs.Cells.{payload_of};

use fa_machine::Version;
use fa_tag::Opened;
use fa_types::{Die, Page, Slot};

/// Whether what a slot gave is a copy of this write of the page, sealed for this slot. The kind is not looked at.
pub fn is_copy(opened: Opened, page: Page, version: Version, die: Die, slot: Slot) -> bool
    ensures { (payload : List ℕ) → payload_of page.0 version die.0 slot.0 (cell_of opened payload)
        ≡ (if result then Some payload else None) }
{
    match opened {
        Opened::Good(tag) => {
            tag.page.0 == page.0
                && tag.seq.0 == version.seq.0
                && tag.die.0 == die.0
                && tag.slot.0 == slot.0
        }
        _ => false,
    }
}
