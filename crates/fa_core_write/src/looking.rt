//! Looks at the slots of a reservation.
ghost use Rattle.std.specs.Prelude.{◌≡◌, ◌&&◌, filter, not};
ghost use Rattle.std.specs.List.{list_any};
ghost use Rattle.fa_machine.specs.State.{is_live};

use fa_machine::Target;
use fa_map_calls::Map;

/// Whether a copy was programmed in one of the slots of live dies.
pub fn are_programmed<M: Map>(page_map: &M, slots: &[Target]) -> bool
    ensures { result ≡ list_any (λ slot. slot.programmed) (filter (λ slot. is_live (M.view page_map.now) slot.die.0) slots.now) }
{
    is_any_programmed(page_map, slots)
}

/// Whether one of the slots of live dies has no copy that was programmed.
pub fn are_pending<M: Map>(page_map: &M, slots: &[Target]) -> bool
    ensures { result ≡ list_any (λ slot. not slot.programmed) (filter (λ slot. is_live (M.view page_map.now) slot.die.0) slots.now) }
{
    is_any_pending(page_map, slots)
}

/// Whether one of the slots is on a live die and programmed.
fn is_any_programmed<M: Map>(page_map: &M, slots: &[Target]) -> bool
    ensures { result ≡ list_any (λ slot. is_live (M.view page_map.now) slot.die.0 && slot.programmed) slots.now }
{
    slots
        .iter()
        .any(|slot| page_map.is_live(slot.die) && slot.programmed)
}

/// Whether one of the slots is on a live die and not programmed.
fn is_any_pending<M: Map>(page_map: &M, slots: &[Target]) -> bool
    ensures { result ≡ list_any (λ slot. is_live (M.view page_map.now) slot.die.0 && not slot.programmed) slots.now }
{
    slots
        .iter()
        .any(|slot| page_map.is_live(slot.die) && !slot.programmed)
}
