//! Programs that end.
ghost use Rattle.std.specs.Prelude.{◌≡◌, false, true, option_map};
ghost use Rattle.std.specs.FinMap.{get};
ghost use Rattle.std.specs.Option.{option_map_or};
ghost use Rattle.fa_machine.specs.Cells.{DidProgram, is_of_kind};
ghost use Rattle.fa_machine.specs.Taking.{EndsJob, mark as rule_mark, program_ends};
ghost use Rattle.fa_machine.specs.declared.places.Copying.{Copying as RuleCopying};
ghost use Rattle.fa_core_state.specs.Core.{core_of};
ghost use Rattle.fa_core_state.specs.Fitted.{IsFitted};

use crate::dropping::end_job;
use fa_core_state::State;
use fa_machine::{Copying, Flight, Target};
use fa_map_calls::Map;
use fa_types::{Die, Page, Slot};
use std::alloc::Allocator;

/// The die's program was done: the reservation of its page has its copy there.
pub fn program_done<M: Map, A: Allocator + Clone>(state: &mut State<M, A>, die: Die)
    requires kind { option_map_or (λ job. is_of_kind job DidProgram) (get (core_of M.view state.old).jobs die.0) false ≡ true }
    requires fitted { IsFitted M.view state.old }
    ensures ends { EndsJob (core_of M.view state.old) die.0 (get (core_of M.view state.old).jobs die.0) DidProgram
        (core_of M.view state.new) }
    ensures fitted { IsFitted M.view state.new }
{
    match state.jobs.get(die) {
        None => {}
        Some(flight) => match flight {
            Flight::Program { page, slot, .. } => {
                end_job(state, die);
                mark(state, die, page, slot);
            }
            _ => {}
        },
    }
}

/// The copy of the page in this slot was programmed.
fn mark<M: Map, A: Allocator + Clone>(state: &mut State<M, A>, die: Die, page: Page, slot: Slot)
    requires { IsFitted M.view state.old }
    ensures marked { core_of M.view state.new ≡ program_ends page.0 die.0 slot.0 (core_of M.view state.old) }
    ensures fitted { IsFitted M.view state.new }
{
    state.claims.mark(page, die, slot);
    state.copying = marked_copy(state.copying, die, slot);
}

/// The copy under way after one in this slot was programmed.
fn marked_copy(copying: Option<Copying>, die: Die, slot: Slot) -> Option<Copying>
    ensures { result ≡ option_map {T = RuleCopying} (λ c. record c { target = rule_mark die.0 slot.0 c.target }) copying }
{
    match copying {
        None => None,
        Some(copying) => Some(Copying {
            target: marked(copying.target, die, slot),
            ..copying
        }),
    }
}

/// A slot that is kept for a copy, after one in this slot was programmed.
fn marked(target: Target, die: Die, slot: Slot) -> Target
    ensures { result ≡ rule_mark die.0 slot.0 target }
{
    Target {
        programmed: target.programmed || target.die.0 == die.0 && target.slot.0 == slot.0,
        ..target
    }
}
