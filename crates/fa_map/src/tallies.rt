//! How many slots of a block are in each state, kept as slots change.
ghost use Rattle.std.specs.Prelude.{◌≡◌, ℕ, ◌+◌, ◌-◌, ◌<◌, ◌≤◌, ◌^◌, true, if◌then◌else◌};
ghost use Rattle.fa_map_calls.specs.declared.slots.SlotState.{SlotState};
ghost use Rattle.fa_map.specs.Entries.{count_of, one_if, is_same_state, state_of_entry};

use crate::entries::Entry;
use fa_map_calls::{BlockCounts, SlotState};

/// The state of an entry, without its page.
pub fn state_of(entry: Entry) -> SlotState
    ensures { result ≡ state_of_entry entry }
{
    match entry {
        Entry::Erased => SlotState::Erased,
        Entry::Reserved => SlotState::Reserved,
        Entry::Current { .. } => SlotState::Current,
        Entry::Stale => SlotState::Stale,
    }
}

/// Whether a slot with this entry is erased.
pub fn is_erased(entry: Entry) -> bool
    ensures { result ≡ is_same_state (state_of_entry entry) SlotState.Erased }
{
    match entry {
        Entry::Erased => true,
        _ => false,
    }
}

/// The counts with one slot less in a state.
fn lowered(mut counts: BlockCounts, state: SlotState) -> BlockCounts
    requires { 0 < count_of state counts }
    ensures { (x : SlotState) → count_of x result + one_if (is_same_state state x) ≡ count_of x counts }
{
    match state {
        SlotState::Erased => counts.erased -= 1,
        SlotState::Reserved => counts.reserved -= 1,
        SlotState::Current => counts.current -= 1,
        SlotState::Stale => counts.stale -= 1,
    }
    counts
}

/// The counts with one slot more in a state.
fn raised(mut counts: BlockCounts, state: SlotState) -> BlockCounts
    requires { count_of state counts + 1 < 2 ^ 32 }
    ensures { (x : SlotState) → count_of x result ≡ count_of x counts + one_if (is_same_state state x) }
{
    match state {
        SlotState::Erased => counts.erased += 1,
        SlotState::Reserved => counts.reserved += 1,
        SlotState::Current => counts.current += 1,
        SlotState::Stale => counts.stale += 1,
    }
    counts
}

/// The counts once a slot has left a state for another.
pub fn moved(counts: BlockCounts, from: SlotState, to: SlotState) -> BlockCounts
    requires from { 0 < count_of from counts }
    requires to { count_of to counts + 1 < 2 ^ 32 }
    ensures { (x : SlotState) → count_of x result + one_if (is_same_state from x) ≡ count_of x counts + one_if (is_same_state to x) }
{
    raised(lowered(counts, from), to)
}

/// One less where the fact is true.
pub fn less_one(count: u32, fact: bool) -> u32
    requires { fact ≡ true → 1 ≤ count }
    ensures { result ≡ (if fact then count - 1 else count) }
{
    if fact { count - 1 } else { count }
}
