//! Writes of headers and syncs that end.
ghost use Rattle.std.specs.Prelude.{◌≡◌, ◌==◌, ◌<◌, false, true, if◌then◌else◌};
ghost use Rattle.std.specs.FinMap.{get, insert, remove};
ghost use Rattle.std.specs.Option.{option_map_or};
ghost use Rattle.fa_machine.specs.Cells.{DidSync, DidWriteHeader, is_of_kind};
ghost use Rattle.fa_machine.specs.Taking.{EndsJob};
ghost use Rattle.fa_sound.specs.Sound.{IsSound};
ghost use Rattle.fa_core_state.specs.Core.{core_of};
ghost use Rattle.fa_core_state.specs.Fitted.{IsFitted};

use crate::dropping::end_job;
use fa_core_state::State;
use fa_machine::Flight;
use fa_map_calls::Map;
use fa_types::Die;
use std::alloc::Allocator;

/// The die's header was written: it is not behind any more where its epoch is still the current one.
pub fn header_done<M: Map, A: Allocator + Clone>(state: &mut State<M, A>, die: Die)
    requires kind { option_map_or (λ job. is_of_kind job DidWriteHeader) (get (core_of M.view state.old).jobs die.0) false ≡ true }
    requires fitted { IsFitted M.view state.old }
    requires sound { IsSound (core_of M.view state.old) }
    ensures ends { EndsJob (core_of M.view state.old) die.0 (get (core_of M.view state.old).jobs die.0) DidWriteHeader
        (core_of M.view state.new) }
    ensures fitted { IsFitted M.view state.new }
{
    match state.jobs.get(die) {
        None => {}
        Some(flight) => match flight {
            Flight::Header { epoch, .. } => {
                end_job(state, die);
                catch_up(state, die, epoch);
            }
            _ => {}
        },
    }
}

/// The header of the die tells this epoch.
fn catch_up<M: Map, A: Allocator + Clone>(state: &mut State<M, A>, die: Die, epoch: u64)
    requires inside { die.0 < (M.view state.old.page_map).geometry.dies }
    requires fitted { IsFitted M.view state.old }
    ensures told { core_of M.view state.new ≡ (if epoch == state.old.epoch
        then record (core_of M.view state.old) { behind = remove (core_of M.view state.old).behind die.0 }
        else core_of M.view state.old) }
    ensures fitted { IsFitted M.view state.new }
{
    if epoch == state.epoch {
        state.behind.remove(die.0 as usize);
    }
}

/// The die's sync was done: what flushes that were begun before it wait for is on the die.
pub fn sync_done<M: Map, A: Allocator + Clone>(state: &mut State<M, A>, die: Die)
    requires kind { option_map_or (λ job. is_of_kind job DidSync) (get (core_of M.view state.old).jobs die.0) false ≡ true }
    requires fitted { IsFitted M.view state.old }
    requires sound { IsSound (core_of M.view state.old) }
    ensures ends { EndsJob (core_of M.view state.old) die.0 (get (core_of M.view state.old).jobs die.0) DidSync
        (core_of M.view state.new) }
    ensures fitted { IsFitted M.view state.new }
{
    match state.jobs.get(die) {
        None => {}
        Some(flight) => match flight {
            Flight::Sync { flushes } => {
                end_job(state, die);
                note_sync(state, die, flushes);
            }
            _ => {}
        },
    }
}

/// The last sync of the die that ended was taken after so many flushes were begun.
fn note_sync<M: Map, A: Allocator + Clone>(state: &mut State<M, A>, die: Die, flushes: u64)
    requires inside { die.0 < (M.view state.old.page_map).geometry.dies }
    requires fitted { IsFitted M.view state.old }
    ensures noted { core_of M.view state.new
        ≡ record (core_of M.view state.old) { synced = insert (core_of M.view state.old).synced die.0 flushes } }
    ensures fitted { IsFitted M.view state.new }
{
    state.synced.insert(die, flushes);
}
