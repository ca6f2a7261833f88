//! The booked read as a job, and a booking that is dropped.
ghost use Rattle.std.specs.Prelude.{◌≡◌, ◌+◌, ◌<◌, ◌++◌, [], ◌∷◌, true, false, IfSome, None, Some, length};
ghost use Rattle.std.specs.FinMap.{get, insert};
ghost use Rattle.fa_core_bookings.specs.Bookings.{calendar_of};
ghost use Rattle.fa_machine.specs.Conditions.{history_full};
ghost use Rattle.fa_machine.specs.Taking.{begun, read_job as rule_read, without_stale_booking};
ghost use Rattle.fa_machine.specs.declared.jobs.Flight.TheVariants.{Read};
ghost use Rattle.fa_core_tables.specs.Dies.{by_die};
ghost use Rattle.fa_core_state.specs.Core.{core_of};
ghost use Rattle.fa_core_state.specs.Fitted.{IsFitted};
ghost use Rattle.fa_core_state.specs.Tracked.{unstarted};
ghost use Rattle.fa_core_dispatch.specs.Begins.{MayBegin};

use fa_core_batches::PageState;
use fa_core_read_pages::read_of;
use fa_core_state::State;
use fa_machine::{BatchId, Booking, Flight, Version};
use fa_map_calls::Map;
use fa_types::{Die, Page, Round, Slot};
use std::alloc::Allocator;

/// The read that is booked in this round and was not started, where the die holds its page.
pub fn read_job<M: Map, A: Allocator + Clone>(state: &State<M, A>, die: Die) -> Option<Flight>
    requires { die.0 < (M.view state.now.page_map).geometry.dies }
    ensures job { result ≡ rule_read (core_of M.view state.now) die.0 }
    ensures may { IfSome result (λ flight. MayBegin (core_of M.view state.now) die.0 flight) }
{
    match state.bookings.booking(die, state.bookings.now()) {
        None => None,
        Some(booking) => read_of(&state.page_map, die, booking),
    }
}

/// The booked read has started: it is in the history, and it is what the die is at.
pub fn begin_read<M: Map, A: Allocator + Clone>(
    state: &mut State<M, A>,
    die: Die,
    seat: u32,
    batch: BatchId,
    page: Page,
    version: Version,
    slot: Slot,
)
    requires inside { die.0 < (M.view state.old.page_map).geometry.dies }
    requires idle { get (by_die state.old.jobs) die.0 ≡ None }
    requires room { history_full (core_of M.view state.old) ≡ false }
    requires booked { get (calendar_of state.old.bookings).bookings (die.0, (calendar_of state.old.bookings).round)
        ≡ Some (unstarted batch.0 page.0) }
    requires fitted { IsFitted M.view state.old }
    ensures begun { core_of M.view state.new ≡ begun die.0 seat (Read batch page version slot) (core_of M.view state.old) }
    ensures fitted { IsFitted M.view state.new }
{
    let round = state.bookings.now();
    state.bookings.start(die, round, batch, page);
    state.log.note_start(seat, page, version.seq);
    state.batches.set(batch, page, PageState::InFlight(die));
    state.jobs.insert(
        die,
        Flight::Read {
            batch,
            page,
            version,
            slot,
        },
    );
}

/// The booking of this round is dropped, if it was not started, and its batch is torn.
pub fn drop_stale_booking<M: Map, A: Allocator + Clone>(state: &mut State<M, A>, die: Die)
    requires { IsFitted M.view state.old }
    ensures dropped { core_of M.view state.new ≡ without_stale_booking die.0 (core_of M.view state.old) }
    ensures fitted { IsFitted M.view state.new }
{
    let round = state.bookings.now();
    match state.bookings.booking(die, round) {
        None => {}
        Some(booking) => drop_unstarted(state, die, round, booking),
    }
}

/// The booking of this round is dropped, unless it was started, and its batch is torn.
fn drop_unstarted<M: Map, A: Allocator + Clone>(
    state: &mut State<M, A>,
    die: Die,
    round: Round,
    booking: Booking,
)
    requires round { round.0 ≡ (calendar_of state.old.bookings).round }
    requires booked { get (calendar_of state.old.bookings).bookings (die.0, round.0) ≡ Some booking }
    requires fitted { IsFitted M.view state.old }
    ensures dropped { core_of M.view state.new ≡ without_stale_booking die.0 (core_of M.view state.old) }
    ensures fitted { IsFitted M.view state.new }
{
    if booking.started {
        return;
    }
    state.bookings.release(die, round);
    state
        .batches
        .set(booking.batch, booking.page, PageState::Torn);
}
