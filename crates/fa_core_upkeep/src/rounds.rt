//! Rounds that pass.
ghost use Rattle.std.specs.Prelude.{◌≡◌, ◌<◌, ◌==◌, ◌&&◌, not, true, false, None, Ok};
ghost use Rattle.std.specs.FinMap.{empty, get, len};
ghost use Rattle.std.specs.List.{list_any};
ghost use Rattle.fa_core_bookings.specs.Bookings.{calendar_of};
ghost use Rattle.fa_machine.specs.State.{dies_of};
ghost use Rattle.fa_machine.specs.Turning.{Advances, advance_refusal, is_collecting as rule_collecting, is_read_pending as rule_read};
ghost use Rattle.fa_machine.specs.Turning.{is_reading as rule_reading, is_round_pending as rule_round, is_step_pending as rule_step};
ghost use Rattle.fa_set.specs.Members.{bound_of, members};
ghost use Rattle.fa_core_state.specs.Core.{core_of};
ghost use Rattle.fa_core_state.specs.Fitted.{IsFitted};
ghost use Rattle.fa_types.specs.Windows.{is_in_window as rule_window};

use fa_collect::victim;
use fa_core_bookings::Bookings;
use fa_core_state::State;
use fa_machine::{AdvanceRefused, Booking, Flight};
use fa_map_calls::Map;
use fa_set::NumberSet;
use fa_types::{Die, Round, Window};
use std::alloc::Allocator;

/// The next round is the current one, and it is answered. Pending where a read or a collector's step of this round has not ended, Idle
/// where nothing is booked and no die has a window, Spent where no round is left. Refused, nothing has changed.
pub fn advance<M: Map, A: Allocator + Clone>(
    state: &mut State<M, A>,
) -> Result<Round, AdvanceRefused>
    requires fitted { IsFitted M.view state.old }
    ensures advances { Advances (core_of M.view state.old) result (core_of M.view state.new) }
    ensures fitted { IsFitted M.view state.new }
{
    match refusal(state) {
        Some(refused) => Err(refused),
        None => Ok(pass(state)),
    }
}

/// The next round is the current one.
fn pass<M: Map, A: Allocator + Clone>(state: &mut State<M, A>) -> Round
    requires ready { advance_refusal (core_of M.view state.old) ≡ None }
    requires fitted { IsFitted M.view state.old }
    ensures advances { Advances (core_of M.view state.old) (Ok result) (core_of M.view state.new) }
    ensures fitted { IsFitted M.view state.new }
{
    state.bookings.advance();
    clear(&mut state.stepped);
    state.bookings.now()
}

/// The set has no members from now on. It takes a few steps for each that it had.
fn clear<A: Allocator>(set: &mut NumberSet<A>)
    ensures bound { bound_of set.new ≡ bound_of set.old }
    ensures empty { members set.new ≡ empty }
{
    while let Some(number) = set.lowest_from(0) {
        set.remove(number);
    }
}

/// Why the round does not pass.
fn refusal<M: Map, A: Allocator + Clone>(state: &State<M, A>) -> Option<AdvanceRefused>
    ensures { result ≡ advance_refusal (core_of M.view state.now) }
{
    if is_pending(state) {
        return Some(AdvanceRefused::Pending);
    }
    if is_idle(&state.bookings) {
        return Some(AdvanceRefused::Idle);
    }
    if state.bookings.now().0 == 1 << 56 {
        return Some(AdvanceRefused::Spent);
    }
    None
}

/// Whether a read or a collector's step of this round has not ended. It looks at each die that may have a booking or a window.
fn is_pending<M: Map, A: Allocator + Clone>(state: &State<M, A>) -> bool
    ensures { result ≡ list_any (rule_round (core_of M.view state.now)) (dies_of (M.view state.now.page_map)) }
{
    let dies = state.page_map.geometry().dies as usize;
    let mut die = state.bookings.busy_from(0);
    while die < dies {
        if is_round_pending(state, Die(die as u8)) {
            return true;
        }
        die = state.bookings.busy_from(die + 1);
    }
    false
}

/// Whether a read or the collector's step of this round has not ended at the die.
fn is_round_pending<M: Map, A: Allocator + Clone>(state: &State<M, A>, die: Die) -> bool
    requires { die.0 < (M.view state.now.page_map).geometry.dies }
    ensures { result ≡ rule_round (core_of M.view state.now) die.0 }
{
    let job = state.jobs.get(die);
    let booking = state.bookings.booking(die, state.bookings.now());
    is_read_pending(job, booking) || is_step_pending(state, die, job)
}

/// Whether the read of a booking of this round has not ended, at a die with this job.
fn is_read_pending(job: Option<Flight>, booking: Option<Booking>) -> bool
    ensures { result ≡ rule_read job booking }
{
    match booking {
        Some(booking) => !booking.started || is_reading(job),
        None => false,
    }
}

fn is_reading(job: Option<Flight>) -> bool
    ensures { result ≡ rule_reading job }
{
    match job {
        Some(Flight::Read { .. }) => true,
        _ => false,
    }
}

/// Whether the collector's step of this round is in flight at a die with this job, or is not done while there is one.
fn is_step_pending<M: Map, A: Allocator + Clone>(
    state: &State<M, A>,
    die: Die,
    job: Option<Flight>,
) -> bool
    requires inside { die.0 < (M.view state.now.page_map).geometry.dies }
    requires job { job ≡ get (core_of M.view state.now).jobs die.0 }
    ensures { result ≡ rule_step (core_of M.view state.now) die.0 }
{
    is_in_window(state.bookings.window(die), state.bookings.now())
        && (is_collecting(job)
            || !state.stepped.contains(die.0 as usize) && victim(&state.page_map, die).is_some())
}

fn is_in_window(window: Option<Window>, round: Round) -> bool
    ensures { result ≡ rule_window window round.0 }
{
    match window {
        Some(window) => window.first.0 <= round.0 && round.0 <= window.last.0,
        None => false,
    }
}

fn is_collecting(job: Option<Flight>) -> bool
    ensures { result ≡ rule_collecting job }
{
    match job {
        Some(Flight::Move { .. }) => true,
        Some(Flight::Erase { .. }) => true,
        _ => false,
    }
}

/// Whether nothing is booked, and no die has a window.
fn is_idle<A: Allocator + Clone>(bookings: &Bookings<A>) -> bool
    ensures { result ≡ (len (calendar_of bookings.now).bookings == 0 && len (calendar_of bookings.now).windows == 0) }
{
    bookings.is_empty() && !has_window(bookings)
}

/// Whether a die has a window that has not passed.
fn has_window<A: Allocator + Clone>(bookings: &Bookings<A>) -> bool
    ensures { result ≡ not (len (calendar_of bookings.now).windows == 0) }
{
    let mut die = bookings.busy_from(0);
    while die < 256 {
        if bookings.window(Die(die as u8)).is_some() {
            return true;
        }
        die = bookings.busy_from(die + 1);
    }
    false
}
