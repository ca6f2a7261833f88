//! The slot that a copy takes.
ghost use Rattle.std.specs.Prelude.{◌≡◌};
ghost use Rattle.fa_machine.specs.Writing.{target_on};
ghost use Rattle.fa_mirror.specs.Chosen.{MayReserve, TakesWrites};

use fa_machine::Target;
use fa_map_calls::Map;
use fa_types::{Die, Slot};

/// The slot that a copy takes on a die that may be written to.
pub fn slot_on<M: Map>(page_map: &M, die: Die) -> Target
    requires { TakesWrites (M.view page_map.now) die.0 }
    ensures slot { result ≡ target_on (M.view page_map.now) die.0 }
    ensures free { MayReserve (M.view page_map.now) result }
{
    let slot = match page_map.writers_slot(die) {
        Some(slot) => slot,
        None => Slot(0),
    };
    Target {
        die,
        slot,
        programmed: false,
    }
}
