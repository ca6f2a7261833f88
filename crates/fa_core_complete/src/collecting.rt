//! Steps of the collector that end.
ghost use Rattle.std.specs.Prelude.{◌≡◌, ◌*◌, ◌<◌, false, true, if◌then◌else◌};
ghost use Rattle.std.specs.FinMap.{get};
ghost use Rattle.std.specs.Option.{option_map_or};
ghost use Rattle.fa_machine.specs.Cells.{DidErase, DidMove, is_of_kind};
ghost use Rattle.fa_machine.specs.Copies.{is_current as rule_current};
ghost use Rattle.fa_machine.specs.Maps.{keep};
ghost use Rattle.fa_machine.specs.State.{is_live};
ghost use Rattle.fa_machine.specs.Taking.{EndsJob, erase_ends, move_ends, stays, stepped_on};
ghost use Rattle.fa_machine.specs.declared.places.Used.TheVariants.{Held, Stale};
ghost use Rattle.fa_map_calls.specs.Changes.{MayKeep, with_used};
ghost use Rattle.fa_sound.specs.Sound.{IsSound};
ghost use Rattle.fa_core_state.specs.Core.{core_of};
ghost use Rattle.fa_core_state.specs.Fitted.{IsFitted};

use crate::dropping::end_job;
use fa_core_state::State;
use fa_machine::{Block, Flight, Version};
use fa_map_calls::Map;
use fa_types::{Die, Page, Slot};
use std::alloc::Allocator;

/// The die's move was done: the new slot is current and the old one stale where the copy still has the page's number, else both are
/// stale. The collector's step of this round is done.
pub fn move_done<M: Map, A: Allocator + Clone>(state: &mut State<M, A>, die: Die)
    requires kind { option_map_or (λ job. is_of_kind job DidMove) (get (core_of M.view state.old).jobs die.0) false ≡ true }
    requires fitted { IsFitted M.view state.old }
    requires sound { IsSound (core_of M.view state.old) }
    ensures ends { EndsJob (core_of M.view state.old) die.0 (get (core_of M.view state.old).jobs die.0) DidMove
        (core_of M.view state.new) }
    ensures fitted { IsFitted M.view state.new }
{
    match state.jobs.get(die) {
        None => {}
        Some(flight) => match flight {
            Flight::Move {
                page,
                version,
                from,
                to,
            } => {
                end_job(state, die);
                settle(state, die, page, version, from, to);
            }
            _ => {}
        },
    }
}

/// The copy of the page has moved from one slot to another, and the collector's step of this round is done.
fn settle<M: Map, A: Allocator + Clone>(
    state: &mut State<M, A>,
    die: Die,
    page: Page,
    version: Version,
    from: Slot,
    to: Slot,
)
    requires live { is_live (M.view state.old.page_map) die.0 ≡ true }
    requires from { from.0 < (M.view state.old.page_map).geometry.blocks * (M.view state.old.page_map).geometry.slots }
    requires to { to.0 < (M.view state.old.page_map).geometry.blocks * (M.view state.old.page_map).geometry.slots }
    requires keeps { rule_current (M.view state.old.page_map) page.0 die.0 from.0 ≡ true
        → MayKeep (with_used die.0 from.0 Stale (M.view state.old.page_map)) page version die.0 to.0 }
    requires fitted { IsFitted M.view state.old }
    ensures moved { core_of M.view state.new
        ≡ stepped_on die.0 (move_ends die.0 page.0 version from.0 to.0 (core_of M.view state.old)) }
    ensures fitted { IsFitted M.view state.new }
{
    let current = is_current(&state.page_map, page, die, from);
    state.page_map.make_stale(die, from);
    put(&mut state.page_map, page, version, die, to, current);
    state.stepped.insert(die.0 as usize);
}

/// Whether the slot of the live die holds the page's last write.
fn is_current<M: Map>(page_map: &M, page: Page, die: Die, slot: Slot) -> bool
    requires live { is_live (M.view page_map.now) die.0 ≡ true }
    requires slot { slot.0 < (M.view page_map.now).geometry.blocks * (M.view page_map.now).geometry.slots }
    ensures { result ≡ rule_current (M.view page_map.now) page.0 die.0 slot.0 }
{
    match page_map.copy_in(die, slot) {
        Some((held, _)) => held.0 == page.0,
        None => false,
    }
}

/// The slot holds the page's last write if it is wanted, and is stale if not.
fn put<M: Map>(page_map: &mut M, page: Page, version: Version, die: Die, slot: Slot, wanted: bool)
    requires live { is_live (M.view page_map.old) die.0 ≡ true }
    requires slot { slot.0 < (M.view page_map.old).geometry.blocks * (M.view page_map.old).geometry.slots }
    requires keeps { wanted ≡ true → MayKeep (M.view page_map.old) page version die.0 slot.0 }
    ensures { M.view page_map.new
        ≡ with_used die.0 slot.0 (if wanted then Held page version else Stale) (M.view page_map.old) }
{
    if wanted {
        page_map.hold(page, version, die, slot);
    } else {
        page_map.make_stale(die, slot);
    }
}

/// The die's erase was done: the slots of the block are erased, save those that were reserved meanwhile. The collector's step of
/// this round is done.
pub fn erase_done<M: Map, A: Allocator + Clone>(state: &mut State<M, A>, die: Die)
    requires kind { option_map_or (λ job. is_of_kind job DidErase) (get (core_of M.view state.old).jobs die.0) false ≡ true }
    requires fitted { IsFitted M.view state.old }
    requires sound { IsSound (core_of M.view state.old) }
    ensures ends { EndsJob (core_of M.view state.old) die.0 (get (core_of M.view state.old).jobs die.0) DidErase
        (core_of M.view state.new) }
    ensures fitted { IsFitted M.view state.new }
{
    match state.jobs.get(die) {
        None => {}
        Some(flight) => match flight {
            Flight::Erase { block } => {
                end_job(state, die);
                empty(state, die, block);
            }
            _ => {}
        },
    }
}

/// The block is erased, and the collector's step of this round is done.
fn empty<M: Map, A: Allocator + Clone>(state: &mut State<M, A>, die: Die, block: Block)
    requires live { is_live (M.view state.old.page_map) die.0 ≡ true }
    requires fitted { IsFitted M.view state.old }
    ensures emptied { core_of M.view state.new ≡ stepped_on die.0 (erase_ends die.0 block.0 (core_of M.view state.old)) }
    ensures fitted { IsFitted M.view state.new }
{
    erase(&mut state.page_map, die, block);
    state.stepped.insert(die.0 as usize);
}

/// The slots of the block are erased, save those that are reserved. A block outside of the array has no slots.
fn erase<M: Map>(page_map: &mut M, die: Die, block: Block)
    requires { is_live (M.view page_map.old) die.0 ≡ true }
    ensures { M.view page_map.new ≡ record (M.view page_map.old) {
      used = keep (stays (M.view page_map.old) die.0 block.0) (M.view page_map.old).used;
    } }
{
    if block.0 < page_map.geometry().blocks {
        page_map.block_erased(die, block);
    }
}
