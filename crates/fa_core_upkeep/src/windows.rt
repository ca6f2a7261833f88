//! Windows of the collector.
ghost use Rattle.std.specs.Prelude.{◌≡◌, ◌≤◌, true, false, None};
ghost use Rattle.std.specs.FinMap.{get};
ghost use Rattle.fa_core_bookings.specs.Bookings.{calendar_of};
ghost use Rattle.fa_machine.specs.Reading.{is_late as rule_late};
ghost use Rattle.fa_machine.specs.State.{is_live};
ghost use Rattle.fa_machine.specs.Step.{is_die};
ghost use Rattle.fa_machine.specs.Turning.{TakesWindow};
ghost use Rattle.fa_core_state.specs.Core.{core_of};
ghost use Rattle.fa_core_state.specs.Fitted.{IsFitted};

use fa_calendar::CalendarRefused;
use fa_core_bookings::Bookings;
use fa_core_state::State;
use fa_machine::WindowRefused;
use fa_map_calls::Map;
use fa_types::{Die, Round};
use std::alloc::Allocator;

/// The first run of `rounds` open rounds of a die after the current one is its window: 1 to 64 rounds. Busy where the die is not
/// live, few rounds are left, or its calendar has no room for them, and HasOne where a window of it has not passed. Refused,
/// nothing has changed.
pub fn window<M: Map, A: Allocator + Clone>(
    state: &mut State<M, A>,
    die: Die,
    rounds: u64,
) -> Result<Round, WindowRefused>
    requires die { is_die (core_of M.view state.old) die.0 ≡ true }
    requires some { 1 ≤ rounds }
    requires few { rounds ≤ 64 }
    requires fitted { IsFitted M.view state.old }
    ensures window { TakesWindow (core_of M.view state.old) die.0 rounds result (core_of M.view state.new) }
    ensures fitted { IsFitted M.view state.new }
{
    if !state.page_map.is_live(die) {
        return Err(WindowRefused::Busy);
    }
    if is_late(&state.bookings) {
        return Err(WindowRefused::Busy);
    }
    window_of_live(state, die, rounds)
}

/// The same for a live die, where rounds are left.
fn window_of_live<M: Map, A: Allocator + Clone>(
    state: &mut State<M, A>,
    die: Die,
    rounds: u64,
) -> Result<Round, WindowRefused>
    requires live { is_live (M.view state.old.page_map) die.0 ≡ true }
    requires early { rule_late (core_of M.view state.old).calendar ≡ false }
    requires some { 1 ≤ rounds }
    requires few { rounds ≤ 64 }
    requires fitted { IsFitted M.view state.old }
    ensures window { TakesWindow (core_of M.view state.old) die.0 rounds result (core_of M.view state.new) }
    ensures fitted { IsFitted M.view state.new }
{
    match state.bookings.window(die) {
        Some(_) => {
            if state.bookings.has_room(die, rounds) {
                Err(WindowRefused::HasOne)
            } else {
                Err(WindowRefused::Busy)
            }
        }
        None => keep_window(state, die, rounds),
    }
}

/// Whether so few rounds are left that nothing is planned.
fn is_late<A: Allocator + Clone>(bookings: &Bookings<A>) -> bool
    ensures { result ≡ rule_late (calendar_of bookings.now) }
{
    bookings.now().0 > (1 << 56) - (1 << 24)
}

/// The same for a live die that has no window, where rounds are left.
fn keep_window<M: Map, A: Allocator + Clone>(
    state: &mut State<M, A>,
    die: Die,
    rounds: u64,
) -> Result<Round, WindowRefused>
    requires live { is_live (M.view state.old.page_map) die.0 ≡ true }
    requires early { rule_late (core_of M.view state.old).calendar ≡ false }
    requires none { get (core_of M.view state.old).calendar.windows die.0 ≡ None }
    requires some { 1 ≤ rounds }
    requires few { rounds ≤ 64 }
    requires fitted { IsFitted M.view state.old }
    ensures window { TakesWindow (core_of M.view state.old) die.0 rounds result (core_of M.view state.new) }
    ensures fitted { IsFitted M.view state.new }
{
    match state.bookings.reserve_window(die, rounds) {
        Ok(first) => Ok(first),
        Err(CalendarRefused::Full) => Err(WindowRefused::Busy),
        Err(CalendarRefused::NoMemory) => Err(WindowRefused::NoMemory),
    }
}
