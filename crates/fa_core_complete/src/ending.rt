//! The end of a die's job.
ghost use Rattle.std.specs.Prelude.{◌≡◌, length, true, false};
ghost use Rattle.std.specs.FinMap.{get};
ghost use Rattle.std.specs.Option.{option_map_or};
ghost use Rattle.fa_core_outcome.specs.Outcomes.{outcome_of};
ghost use Rattle.fa_machine.specs.Cells.{is_of_kind};
ghost use Rattle.fa_machine.specs.Taking.{EndsJob};
ghost use Rattle.fa_sound.specs.Sound.{IsSound};
ghost use Rattle.fa_core_state.specs.Core.{core_of};
ghost use Rattle.fa_core_state.specs.Fitted.{IsFitted};

use crate::collecting::{erase_done, move_done};
use crate::dropping::lose_die;
use crate::programming::program_done;
use crate::reading::read_done;
use crate::telling::{header_done, sync_done};
use fa_core_outcome::Outcome;
use fa_core_state::State;
use fa_map_calls::Map;
use fa_types::Die;
use std::alloc::Allocator;

/// The job of the die has ended so. What a read gave is in the buffer, of a page's bytes; where it answers a batch, the buffer and the
/// batch's own change places. The die goes out at a fault, and where a slot was not the one asked for.
pub fn done<M: Map, A: Allocator + Clone>(
    state: &mut State<M, A>,
    die: Die,
    outcome: Outcome,
    buffer: &mut Vec<u8, A>,
)
    requires kind { option_map_or (λ job. is_of_kind job (outcome_of outcome buffer.old.items)) (get (core_of M.view state.old).jobs die.0)
        false ≡ true }
    requires whole { length buffer.old.items ≡ (M.view state.old.page_map).geometry.page_bytes }
    requires fitted { IsFitted M.view state.old }
    requires sound { IsSound (core_of M.view state.old) }
    ensures ends { EndsJob (core_of M.view state.old) die.0 (get (core_of M.view state.old).jobs die.0)
        (outcome_of outcome buffer.old.items)
        (core_of M.view state.new) }
    ensures fitted { IsFitted M.view state.new }
    ensures buffer { length buffer.new.items ≡ length buffer.old.items }
{
    match outcome {
        Outcome::Read(opened) => read_done(state, die, opened, buffer),
        Outcome::Programmed => program_done(state, die),
        Outcome::Moved => move_done(state, die),
        Outcome::Erased => erase_done(state, die),
        Outcome::HeaderWritten => header_done(state, die),
        Outcome::Synced => sync_done(state, die),
        Outcome::Fault(_) => lose_die(state, die),
        Outcome::Wrong => lose_die(state, die),
    }
}
