//! Programs and syncs as jobs.
ghost use Rattle.std.specs.Prelude.{◌≡◌, ◌<◌, false, None, option_map, unwrap_or};
ghost use Rattle.std.specs.FinMap.{get};
ghost use Rattle.fa_machine.specs.Taking.{begins, handed, is_lasting as rule_lasting, other_job as rule_other, sync_job as rule_sync};
ghost use Rattle.fa_sound.specs.Ready.{AreReady};
ghost use Rattle.fa_core_tables.specs.Dies.{by_die};
ghost use Rattle.fa_core_state.specs.Core.{core_of};
ghost use Rattle.fa_core_state.specs.Fitted.{IsFitted};
ghost use Rattle.fa_core_outcome.specs.Handed.{handed_of};

use crate::jobs::set_job;
use fa_core_outcome::Job;
use fa_core_state::State;
use fa_core_tables::ByDie;
use fa_machine::Flight;
use fa_map_calls::Map;
use fa_types::{Die, Page};
use std::alloc::Allocator;

/// The oldest program that waits for the die is what it is at, else a sync that a flush asked for. None where there is neither.
pub fn begin_other<M: Map, A: Allocator + Clone>(
    state: &mut State<M, A>,
    die: Die,
    seat: u32,
) -> Option<Job<A>>
    requires inside { die.0 < (M.view state.old.page_map).geometry.dies }
    requires idle { get (by_die state.old.jobs) die.0 ≡ None }
    requires ready { AreReady (core_of M.view state.old) }
    requires fitted { IsFitted M.view state.old }
    ensures begins { (option_map handed_of result, core_of M.view state.new)
        ≡ begins die.0 seat (core_of M.view state.old) (rule_other (core_of M.view state.old) die.0) }
    ensures fitted { IsFitted M.view state.new }
{
    match state.waiting.next(die) {
        Some(program) => {
            let flight = Flight::Program {
                page: program.page,
                version: program.version,
                slot: program.slot,
            };
            let lasting = is_lasting(&state.page_map, program.page, program.die);
            set_job(state, die, flight);
            Some(Job {
                flight,
                payload: Some(program.payload),
                lasting,
            })
        }
        None => begin_sync(state, die, seat),
    }
}

/// Whether a program of the page on the die is lasting: the page was written before, and the die holds no current copy of it.
fn is_lasting<M: Map>(page_map: &M, page: Page, die: Die) -> bool
    requires page { page.0 < (M.view page_map.now).geometry.pages }
    requires die { die.0 < (M.view page_map.now).geometry.dies }
    ensures { result ≡ rule_lasting (M.view page_map.now) page.0 die.0 }
{
    page_map.version(page).is_some() && page_map.copy_on(page, die).is_none()
}

/// Whether a program waits for the die, or a flush asked for a sync that was not taken since.
pub fn has_other<M: Map, A: Allocator + Clone>(state: &State<M, A>, die: Die) -> bool
    ensures none { result ≡ false → rule_other (core_of M.view state.now) die.0 ≡ None }
{
    state.waiting.has(die) || sync_job(state, die).is_some()
}

/// A sync that a flush asked for is what the die is at. None where no flush asked for one.
fn begin_sync<M: Map, A: Allocator + Clone>(
    state: &mut State<M, A>,
    die: Die,
    seat: u32,
) -> Option<Job<A>>
    requires inside { die.0 < (M.view state.old.page_map).geometry.dies }
    requires idle { get (by_die state.old.jobs) die.0 ≡ None }
    requires fitted { IsFitted M.view state.old }
    ensures begins { (option_map handed_of result, core_of M.view state.new)
        ≡ begins die.0 seat (core_of M.view state.old) (option_map handed (rule_sync (core_of M.view state.old) die.0)) }
    ensures fitted { IsFitted M.view state.new }
{
    match sync_job(state, die) {
        None => None,
        Some(flight) => {
            set_job(state, die, flight);
            Some(Job {
                flight,
                payload: None,
                lasting: false,
            })
        }
    }
}

/// A sync, where a flush asked for one that was not taken since.
fn sync_job<M: Map, A: Allocator + Clone>(state: &State<M, A>, die: Die) -> Option<Flight>
    ensures { result ≡ rule_sync (core_of M.view state.now) die.0 }
{
    if number_of(&state.synced, die) < number_of(&state.asked, die) {
        Some(Flight::Sync {
            flushes: state.flushes,
        })
    } else {
        None
    }
}

/// The number of the die, and 0 where it has none.
fn number_of<A: Allocator>(numbers: &ByDie<u64, A>, die: Die) -> u64
    ensures { result ≡ unwrap_or (get (by_die numbers.now) die.0) 0 }
{
    match numbers.get(die) {
        Some(number) => number,
        None => 0,
    }
}
