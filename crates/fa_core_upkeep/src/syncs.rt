//! How a flush stands.
ghost use Rattle.std.specs.Prelude.{◌≡◌, ◌<◌, ◌&&◌, false, slice_index_or};
ghost use Rattle.std.specs.List.{list_all, list_any};
ghost use Rattle.fa_machine.specs.Flushing.{flush_state as rule_state, has_synced as rule_synced};
ghost use Rattle.fa_machine.specs.State.{dies_of, is_live};
ghost use Rattle.fa_core_state.specs.Core.{core_of};

use fa_core_state::State;
use fa_machine::{Flush, FlushState};
use fa_map_calls::Map;
use fa_types::Die;
use std::alloc::Allocator;

/// How the flush stands.
pub fn flush_state<M: Map, A: Allocator + Clone>(state: &State<M, A>, flush: &Flush) -> FlushState
    ensures { result ≡ rule_state (core_of M.view state.now) flush.now }
{
    if !has_live_die(&state.page_map, flush) {
        FlushState::NoDie
    } else if have_synced(state, flush) {
        FlushState::Synced
    } else {
        FlushState::Waiting
    }
}

/// Whether a die that was live when the flush began is live still.
fn has_live_die<M: Map>(page_map: &M, flush: &Flush) -> bool
    ensures { result ≡ list_any (λ die. slice_index_or flush.now.live die false && is_live (M.view page_map.now) die)
        (dies_of (M.view page_map.now)) }
{
    for die in 0..page_map.geometry().dies {
        if flush.live[die as usize] && page_map.is_live(Die(die as u8)) {
            return true;
        }
    }
    false
}

/// Whether the flush waits for no die.
fn have_synced<M: Map, A: Allocator + Clone>(state: &State<M, A>, flush: &Flush) -> bool
    ensures { result ≡ list_all (rule_synced (core_of M.view state.now) flush.now) (dies_of (M.view state.now.page_map)) }
{
    for die in 0..state.page_map.geometry().dies {
        if !has_synced(state, flush, Die(die as u8)) {
            return false;
        }
    }
    true
}

/// Whether the flush does not wait for the die: it was not live then, is out, or has ended a sync taken since.
fn has_synced<M: Map, A: Allocator + Clone>(state: &State<M, A>, flush: &Flush, die: Die) -> bool
    requires { die.0 < 64 }
    ensures { result ≡ rule_synced (core_of M.view state.now) flush.now die.0 }
{
    flush.number <= state.synced.get(die).unwrap_or(0)
        || !flush.live[die.0 as usize]
        || !state.page_map.is_live(die)
}
