//! The slots that a write takes.
ghost use Rattle.std.specs.Prelude.{◌≡◌, ◌<◌, map};
ghost use Rattle.std.specs.List.{All};
ghost use Rattle.fa_core_tables.specs.Claims.{targets_of};
ghost use Rattle.fa_machine.specs.Placement.{targets as rule_targets};
ghost use Rattle.fa_machine.specs.Writing.{target_on, with_targets};
ghost use Rattle.fa_machine.specs.declared.places.Used.TheVariants.{Reserved};
ghost use Rattle.fa_mirror.specs.Chosen.{MayReserve};

use fa_core_tables::Targets;
use fa_machine::Target;
use fa_map_calls::Map;
use fa_mirror::{slot_on, targets};
use fa_types::{Copies, Page};

/// A slot for a write of the page on each die that it goes to.
pub fn slots_for<M: Map>(page_map: &M, copies: Copies, page: Page) -> Targets
    requires { page.0 < (M.view page_map.now).geometry.pages }
    ensures slots { targets_of result
        ≡ map (target_on (M.view page_map.now)) (rule_targets copies.number (M.view page_map.now) page.0) }
    ensures free { All (MayReserve (M.view page_map.now)) (targets_of result) }
{
    let placing = targets(page_map, copies, page);
    let dies = placing.as_slice();
    let mut slots = Targets::new();
    for index in 0..dies.len() {
        slots.push(slot_on(page_map, dies[index]));
    }
    slots
}

/// These slots are reserved.
pub fn reserve_slots<M: Map>(page_map: &mut M, slots: &[Target])
    requires { All (MayReserve (M.view page_map.old)) slots.now }
    ensures { M.view page_map.new ≡ with_targets Reserved slots.now (M.view page_map.old) }
{
    for index in 0..slots.len() {
        let slot = slots[index];
        page_map.reserve_slot(slot.die, slot.slot);
    }
}
