//! Reads that end.
ghost use Rattle.std.specs.Prelude.{◌≡◌, ℕ, List, false, true, length, if◌then◌else◌, None, Some};
ghost use Rattle.std.specs.FinMap.{get, remove};
ghost use Rattle.std.specs.Option.{option_map_or};
ghost use Rattle.fa_core_outcome.specs.Outcomes.{cell_of};
ghost use Rattle.fa_machine.specs.Cells.{DidRead, is_of_kind, payload_of};
ghost use Rattle.fa_machine.specs.Taking.{EndsJob, with_answer};
ghost use Rattle.fa_machine.specs.declared.jobs.Flight.TheVariants.{Read};
ghost use Rattle.fa_sound.specs.Sound.{IsSound};
ghost use Rattle.fa_core_state.specs.Core.{core_of};
ghost use Rattle.fa_core_state.specs.Fitted.{IsFitted};

use crate::dropping::lose_die;
use fa_core_outcome::is_copy;
use fa_core_state::State;
use fa_machine::{BatchId, Flight, Version};
use fa_map_calls::Map;
use fa_tag::Opened;
use fa_types::{Die, Page, Slot};
use std::alloc::Allocator;

/// The die's read gave this. Where that is the page, it answers its batch, if that is open still; the buffer and the batch's own
/// change places then. Else the die goes out.
pub fn read_done<M: Map, A: Allocator + Clone>(
    state: &mut State<M, A>,
    die: Die,
    opened: Opened,
    buffer: &mut Vec<u8, A>,
)
    requires kind { option_map_or (λ job. is_of_kind job (DidRead (cell_of opened buffer.old.items)))
        (get (core_of M.view state.old).jobs die.0) false ≡ true }
    requires whole { length buffer.old.items ≡ (M.view state.old.page_map).geometry.page_bytes }
    requires fitted { IsFitted M.view state.old }
    requires sound { IsSound (core_of M.view state.old) }
    ensures ends { EndsJob (core_of M.view state.old) die.0 (get (core_of M.view state.old).jobs die.0)
        (DidRead (cell_of opened buffer.old.items)) (core_of M.view state.new) }
    ensures fitted { IsFitted M.view state.new }
    ensures buffer { length buffer.new.items ≡ length buffer.old.items }
{
    match state.jobs.get(die) {
        None => {}
        Some(flight) => match flight {
            Flight::Read {
                batch,
                page,
                version,
                slot,
            } => {
                if is_copy(opened, page, version, die, slot) {
                    answer(state, die, batch, page, version, slot, buffer);
                } else {
                    lose_die(state, die);
                }
            }
            _ => {}
        },
    }
}

/// The die's read of a page for a batch is over, and the buffer has the page's answer. The batch may be open no more.
fn answer<M: Map, A: Allocator + Clone>(
    state: &mut State<M, A>,
    die: Die,
    batch: BatchId,
    page: Page,
    version: Version,
    slot: Slot,
    buffer: &mut Vec<u8, A>,
)
    requires job { get (core_of M.view state.old).jobs die.0 ≡ Some (Read batch page version slot) }
    requires whole { length buffer.old.items ≡ (M.view state.old.page_map).geometry.page_bytes }
    requires fitted { IsFitted M.view state.old }
    ensures answered { core_of M.view state.new ≡ with_answer batch.0 page.0 buffer.old.items
        (get (core_of M.view state.old).batches batch.0)
        (record (core_of M.view state.old) { jobs = remove (core_of M.view state.old).jobs die.0 }) }
    ensures fitted { IsFitted M.view state.new }
    ensures buffer { length buffer.new.items ≡ length buffer.old.items }
{
    state.jobs.remove(die);
    match state.batches.state(batch, page) {
        Some(_) => state.batches.answer(batch, page, buffer),
        None => {}
    }
}
