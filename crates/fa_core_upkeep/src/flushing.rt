//! How a flush begins.
ghost use Rattle.std.specs.Prelude.{◌≡◌, ◌<◌, ◌≤◌, ◌^◌, if◌then◌else◌, map};
ghost use Rattle.std.specs.FinMap.{insert, keys};
ghost use Rattle.fa_machine.specs.Flushing.{BeginsFlush};
ghost use Rattle.fa_machine.specs.Maps.{below, insert_all};
ghost use Rattle.fa_machine.specs.State.{is_live};
ghost use Rattle.fa_core_tables.specs.Dies.{bound_of, by_die};
ghost use Rattle.fa_core_state.specs.Core.{core_of};
ghost use Rattle.fa_core_state.specs.Fitted.{IsFitted};

use fa_core_state::State;
use fa_core_tables::ByDie;
use fa_machine::{Flush, FlushRefused};
use fa_map_calls::Map;
use fa_types::Die;
use std::alloc::Allocator;

/// How many flushes may be begun.
const MAX_FLUSHES: u64 = 1 << 62;

/// Each live die is asked for a sync. The error is that 2^62 flushes were begun, and changes nothing.
pub fn flush_begin<M: Map, A: Allocator + Clone>(
    state: &mut State<M, A>,
) -> Result<Flush, FlushRefused>
    requires fitted { IsFitted M.view state.old }
    ensures begun { BeginsFlush (core_of M.view state.old) result (core_of M.view state.new) }
    ensures fitted { IsFitted M.view state.old → IsFitted M.view state.new }
{
    if state.flushes == MAX_FLUSHES {
        return Err(FlushRefused::Spent);
    }
    let number = state.flushes + 1;
    let live = ask_live_dies(&state.page_map, &mut state.asked, number);
    state.flushes = number;
    Ok(Flush { number, live })
}

/// This flush is the last that asked each live die for a sync. Which dies these are.
fn ask_live_dies<M: Map, A: Allocator>(
    page_map: &M,
    asked: &mut ByDie<u64, A>,
    number: u64,
) -> [bool; 64]
    requires { bound_of asked.old ≡ (M.view page_map.now).geometry.dies }
    ensures bound { bound_of asked.new ≡ bound_of asked.old }
    ensures asked { by_die asked.new ≡ insert_all (keys (M.view page_map.now).live) number (by_die asked.old) }
    ensures live { result ≡ map (is_live (M.view page_map.now)) (below 64) }
{
    let mut live = [false; 64];
    for die in 0..page_map.geometry().dies {
        live[die as usize] = ask_if_live(page_map, asked, Die(die as u8), number);
    }
    live
}

/// This flush is the last that asked the die for a sync, if it is live. Whether it is.
fn ask_if_live<M: Map, A: Allocator>(
    page_map: &M,
    asked: &mut ByDie<u64, A>,
    die: Die,
    number: u64,
) -> bool
    requires { die.0 < bound_of asked.old }
    ensures live { result ≡ is_live (M.view page_map.now) die.0 }
    ensures bound { bound_of asked.new ≡ bound_of asked.old }
    ensures asked { by_die asked.new ≡ (if result then insert (by_die asked.old) die.0 number else by_die asked.old) }
{
    let is_live = page_map.is_live(die);
    if is_live {
        asked.insert(die, number);
    }
    is_live
}
