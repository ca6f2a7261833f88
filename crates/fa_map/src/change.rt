//! What one call did to a page map, as the map tells it, and what the map shows then.
ghost use Rattle.std.specs.Prelude.{◌≡◌};
ghost use Rattle.fa_map.specs.Changed.{changed};

use fa_ghost::History;
use fa_machine::{Block, Version};
use fa_types::{Die, Geometry, Page, Slot};
use std::marker::Model;

/// A call that changed a page map.
#[derive(Clone, Copy)]
pub enum Change {
    /// A slot was reserved.
    Take {
        die: Die,
        slot: Slot,
    },
    /// A slot came to hold a write of a page, its last.
    MakeCurrent {
        page: Page,
        version: Version,
        die: Die,
        slot: Slot,
    },
    /// A page has a last write of which there is no copy yet.
    Renew {
        page: Page,
        version: Version,
    },
    /// A slot came to hold the page's last write.
    Hold {
        page: Page,
        version: Version,
        die: Die,
        slot: Slot,
    },
    /// A slot became stale.
    MakeStale {
        die: Die,
        slot: Slot,
    },
    /// A die came in.
    BringIn {
        die: Die,
    },
    /// A die went out.
    DropDie {
        die: Die,
    },
    /// A block was erased.
    EraseBlock {
        die: Die,
        block: Block,
    },
}

/// The page map's part of the array's state, for a history that shows it. No value of it is made.
pub struct MapShown {
    geometry: Geometry,
}

impl Model for MapShown {
    ghost use Rattle.fa_machine.specs.State.{MapState};
    ghost use Rattle.fa_map_calls.specs.Changes.{new_map};
    ghost use Rattle.fa_map_calls.specs.Codes.{map_state_code};

    ghost Value = { MapState };

    ghost coded = { map_state_code };

    ghost view = { λ map. new_map map.geometry };
}

/// Tells a map's history of a change.
pub fn note(history: &mut History<MapShown>, change: Change)
    ensures { history.new.shown ≡ changed change history.old.shown }
{
    history.note(&change);
}
