//! The next job of a die.
ghost use Rattle.std.specs.Prelude.{◌≡◌, ◌<◌, ℕ, true, false, option_map, IfSome, None};
ghost use Rattle.std.specs.FinMap.{get};
ghost use Rattle.fa_machine.specs.Conditions.{history_full};
ghost use Rattle.fa_machine.specs.State.{is_live};
ghost use Rattle.fa_machine.specs.Step.{is_die};
ghost use Rattle.fa_machine.specs.Taking.{Takes, after_urgent, begun, is_idle as rule_idle, taken, urgent_job as rule_urgent};
ghost use Rattle.fa_machine.specs.Taking.{without_stale_booking};
ghost use Rattle.fa_sound.specs.Ready.{AreReady};
ghost use Rattle.fa_core_tables.specs.Dies.{by_die};
ghost use Rattle.fa_core_state.specs.Core.{core_of};
ghost use Rattle.fa_core_state.specs.Fitted.{IsFitted};
ghost use Rattle.fa_core_dispatch.specs.Begins.{MayBegin};
ghost use Rattle.fa_core_outcome.specs.Handed.{handed_of};

use crate::collecting::{begin_move, step_job};
use crate::header::header_job;
use crate::jobs::set_job;
use crate::programs::{begin_other, has_other};
use crate::reading::{begin_read, drop_stale_booking, read_job};
use fa_core_outcome::Job;
use fa_core_state::State;
use fa_machine::Flight;
use fa_map_calls::Map;
use fa_types::Die;
use std::alloc::Allocator;

/// The next job of a live die that is at none: its header where that is behind, else the collector's next step in a round of its
/// window in which none was done, else the read that is booked in this round, else the oldest program that waits for it, else a sync
/// that a flush asked for. None where there is none of these. A booking of a page that the die does not hold is dropped on the way,
/// and its batch is torn.
pub fn take<M: Map, A: Allocator + Clone>(
    state: &mut State<M, A>,
    die: Die,
    seat: u32,
) -> Option<Job<A>>
    requires die { is_die (core_of M.view state.old) die.0 ≡ true }
    requires room { history_full (core_of M.view state.old) ≡ false }
    requires ready { AreReady (core_of M.view state.old) }
    requires fitted { IsFitted M.view state.old }
    ensures takes { Takes (core_of M.view state.old) die.0 seat (option_map handed_of result) (core_of M.view state.new) }
    ensures fitted { IsFitted M.view state.new }
{
    if is_idle(state, die) {
        take_idle(state, die, seat)
    } else {
        None
    }
}

/// Whether a Take of the die would hand out a job, or drop a booking. Where it says no, a Take answers nothing and changes nothing, whoever
/// makes it.
pub fn has_job<M: Map, A: Allocator + Clone>(state: &State<M, A>, die: Die) -> bool
    requires { die.0 < (M.view state.now.page_map).geometry.dies }
    ensures nothing { result ≡ false → (seat : ℕ) → taken (core_of M.view state.now) die.0 seat ≡ (None, core_of M.view state.now) }
{
    if !is_idle(state, die) {
        return false;
    }
    match urgent_job(state, die) {
        Some(_) => true,
        None => is_booked(state, die) || has_other(state, die),
    }
}

/// Whether a read is booked at the die in this round that was not started.
fn is_booked<M: Map, A: Allocator + Clone>(state: &State<M, A>, die: Die) -> bool
    ensures { result ≡ false → without_stale_booking die.0 (core_of M.view state.now) ≡ core_of M.view state.now }
{
    match state.bookings.booking(die, state.bookings.now()) {
        Some(booking) => !booking.started,
        None => false,
    }
}

/// The next job of a live die that is at none.
fn take_idle<M: Map, A: Allocator + Clone>(
    state: &mut State<M, A>,
    die: Die,
    seat: u32,
) -> Option<Job<A>>
    requires inside { die.0 < (M.view state.old.page_map).geometry.dies }
    requires live { is_live (M.view state.old.page_map) die.0 ≡ true }
    requires idle { get (by_die state.old.jobs) die.0 ≡ None }
    requires room { history_full (core_of M.view state.old) ≡ false }
    requires ready { AreReady (core_of M.view state.old) }
    requires fitted { IsFitted M.view state.old }
    ensures takes { (option_map handed_of result, core_of M.view state.new)
        ≡ after_urgent die.0 seat (core_of M.view state.old) (rule_urgent (core_of M.view state.old) die.0) }
    ensures fitted { IsFitted M.view state.new }
{
    match urgent_job(state, die) {
        Some(flight) => {
            begin(state, die, seat, flight);
            Some(Job {
                flight,
                payload: None,
                lasting: false,
            })
        }
        None => {
            drop_stale_booking(state, die);
            begin_other(state, die, seat)
        }
    }
}

/// Whether the die is live and at no job.
fn is_idle<M: Map, A: Allocator + Clone>(state: &State<M, A>, die: Die) -> bool
    ensures { result ≡ rule_idle (core_of M.view state.now) die.0 }
{
    state.page_map.is_live(die) && state.jobs.get(die).is_none()
}

/// The header where it is behind, else the collector's step, else the booked read.
fn urgent_job<M: Map, A: Allocator + Clone>(state: &State<M, A>, die: Die) -> Option<Flight>
    requires { die.0 < (M.view state.now.page_map).geometry.dies }
    ensures job { result ≡ rule_urgent (core_of M.view state.now) die.0 }
    ensures may { IfSome result (λ flight. MayBegin (core_of M.view state.now) die.0 flight) }
{
    match header_job(state, die) {
        Some(flight) => Some(flight),
        None => match step_job(state, die) {
            Some(flight) => Some(flight),
            None => read_job(state, die),
        },
    }
}

/// The job is what the die is at.
fn begin<M: Map, A: Allocator + Clone>(state: &mut State<M, A>, die: Die, seat: u32, flight: Flight)
    requires inside { die.0 < (M.view state.old.page_map).geometry.dies }
    requires live { is_live (M.view state.old.page_map) die.0 ≡ true }
    requires idle { get (by_die state.old.jobs) die.0 ≡ None }
    requires room { history_full (core_of M.view state.old) ≡ false }
    requires may { MayBegin (core_of M.view state.old) die.0 flight }
    requires fitted { IsFitted M.view state.old }
    ensures begun { core_of M.view state.new ≡ begun die.0 seat flight (core_of M.view state.old) }
    ensures fitted { IsFitted M.view state.new }
{
    match flight {
        Flight::Move {
            page,
            version,
            from,
            to,
        } => begin_move(state, die, page, version, from, to),
        Flight::Read {
            batch,
            page,
            version,
            slot,
        } => begin_read(state, die, seat, batch, page, version, slot),
        _ => set_job(state, die, flight),
    }
}
