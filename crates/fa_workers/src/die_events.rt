//! What a die's worker does while it holds the array's lock.
ghost use Rattle.std.specs.Prelude.{◌≡◌, [], true, false, IfSome, option_map};
ghost use Rattle.fa_machine.specs.Conditions.{history_full};
ghost use Rattle.fa_machine.specs.Step.{Step, Take, is_die};
ghost use Rattle.fa_shared_lock.specs.Only.{TakesJobs};
ghost use Rattle.fa_shared_lock.specs.Seats.{number_of};
ghost use Rattle.fa_core_outcome.specs.Handed.{handed_of};
ghost use Rattle.fa_workers.specs.DieTurns.{Ends, Rests, TakesNext, Turns};
ghost use Rattle.fa_workers.specs.DieTurns.{after_look as rule_look, noted};
ghost use Rattle.fa_workers.specs.Held.{die_taken, order_in as rule_order};
ghost use Rattle.fa_shared_lock.specs.Rest.{LeavesRest};

use fa_core_calls::{Events, Looks};
use fa_core_outcome::Outcome;
use fa_faults::{Fault, fault_of};
use fa_machine::AdvanceRefused;
use fa_shared::{advance, done, take};
use fa_shared_lock::{Locked, Seat};
use fa_shared_turns::make_room;
use fa_types::{Die, Round};
use fa_workers_making::{Order, order_of};
use std::alloc::{Allocator, Global};
use std::sync::ledger::Ledger;

/// What a die's worker does next.
#[derive(Drop)]
pub(crate) enum Next<A: Allocator = Global> {
    /// It makes a job's calls.
    Run(Order<A>),
    /// Others are told of a change, and the die looks again.
    Again,
    /// The die has nothing to do.
    Rest,
}

/// A job is over.
#[derive(Drop)]
pub(crate) struct Ended<A: Allocator = Global> {
    /// The buffer that came with its end, or the one that it changed places with.
    pub(crate) buffer: Vec<u8, A>,
    /// Why the die went out, if it did.
    pub(crate) fault: Option<Fault>,
}

/// A turn of a die: the round rises, if it may, or else the die takes its next job.
///
/// A Take drops a booking that cannot be read, and then answers no job. The round was pending before and may be so no longer, and whoever
/// waits for that read is to be told.
pub(crate) fn turn<L: Ledger, E: Events<A>, A: Allocator + Copy>(
    alloc: A,
    locked: &mut Locked<L, E, A>,
    seat: &mut Seat<L>,
    die: Die,
) -> Next<A>
    ensures turns { Turns die.0 (number_of seat.old) locked.old.core result locked.new.core }
    ensures account { LeavesRest locked.old seat.old locked.new seat.new }
{
    if !locked.array().is_die(die) {
        return Next::Rest;
    }
    match advance(alloc, locked, seat) {
        Ok(_) => Next::Again,
        Err(refused) => take_next(alloc, locked, seat, die, refused),
    }
}

/// The next job of a die, if it has one that nobody is at.
pub(crate) fn take_job<L: Ledger, E: Events<A>, A: Allocator + Copy>(
    alloc: A,
    locked: &mut Locked<L, E, A>,
    seat: &mut Seat<L>,
    die: Die,
) -> Option<Order<A>>
    ensures takes { TakesJobs (number_of seat.old) locked.old.core [] locked.new.core (die_taken result) }
    ensures account { LeavesRest locked.old seat.old locked.new seat.new }
{
    if !has_job(locked.array(), die) {
        return None;
    }
    if !locked.array().is_die(die) {
        return None;
    }
    order_in(take_next(alloc, locked, seat, die, AdvanceRefused::Idle))
}

/// The job that is to be run, if one is.
fn order_in<A: Allocator>(next: Next<A>) -> Option<Order<A>>
    ensures { result ≡ rule_order next }
{
    match next {
        Next::Run(order) => Some(order),
        Next::Again | Next::Rest => None,
    }
}

/// Whether the die is one of the array and has a job that nobody is at.
fn has_job<E: Looks>(array: &E, die: Die) -> bool {
    array.is_die(die) && array.has_job(die)
}

/// The die takes its next job, where the round was refused so.
fn take_next<L: Ledger, E: Events<A>, A: Allocator + Copy>(
    alloc: A,
    locked: &mut Locked<L, E, A>,
    seat: &mut Seat<L>,
    die: Die,
    refused: AdvanceRefused,
) -> Next<A>
    requires die { is_die locked.old.core die.0 ≡ true }
    ensures takes { TakesNext die.0 (number_of seat.old) refused locked.old.core result locked.new.core }
    ensures account { LeavesRest locked.old seat.old locked.new seat.new }
{
    make_room(alloc, locked, seat);
    match take_order(alloc, locked, seat, die) {
        Some(order) => Next::Run(order),
        None => rest(alloc, locked, seat, refused),
    }
}

/// The die has no job. Where the round was pending and is so no longer, a booking was dropped.
fn rest<L: Ledger, E: Events<A>, A: Allocator + Copy>(
    alloc: A,
    locked: &mut Locked<L, E, A>,
    seat: &mut Seat<L>,
    refused: AdvanceRefused,
) -> Next<A>
    ensures rests { Rests refused locked.old.core result locked.new.core }
    ensures account { LeavesRest locked.old seat.old locked.new seat.new }
{
    match refused {
        AdvanceRefused::Idle | AdvanceRefused::Spent => Next::Rest,
        AdvanceRefused::Pending => after_look(advance(alloc, locked, seat)),
    }
}

/// What the die does behind a second Advance.
fn after_look<A: Allocator>(answer: Result<Round, AdvanceRefused>) -> Next<A>
    ensures { result ≡ rule_look answer }
{
    match answer {
        Err(AdvanceRefused::Pending) => Next::Rest,
        Err(AdvanceRefused::Idle | AdvanceRefused::Spent) => Next::Again,
        Ok(_) => Next::Again,
    }
}

/// A Take of a die of the array, with all that its job's calls want. The history has room for it.
fn take_order<L: Ledger, E: Events<A>, A: Allocator + Copy>(
    alloc: A,
    locked: &mut Locked<L, E, A>,
    seat: &mut Seat<L>,
    die: Die,
) -> Option<Order<A>>
    requires die { is_die locked.old.core die.0 ≡ true }
    requires room { history_full locked.old.core ≡ false }
    ensures event { Step locked.old.core (Take die.0 (number_of seat.old) (option_map (λ order. handed_of order.job) result))
        locked.new.core }
    ensures die { IfSome result (λ order. order.die ≡ die) }
    ensures account { LeavesRest locked.old seat.old locked.new seat.new }
{
    let geometry = locked.array().geometry();
    let array = locked.array().array_id();
    let job = take(alloc, locked, seat, die);
    order_of(die, geometry, array, job)
}

/// A Done, with the buffer that has what a read gave.
pub(crate) fn end_job<L: Ledger, E: Events<A>, A: Allocator + Copy>(
    alloc: A,
    locked: &mut Locked<L, E, A>,
    seat: &mut Seat<L>,
    die: Die,
    outcome: Outcome,
    buffer: Vec<u8, A>,
) -> Ended<A>
    ensures ends { Ends die.0 outcome buffer.items locked.old.core locked.new.core }
    ensures fault { result.fault ≡ noted locked.old.core locked.new.core die outcome }
    ensures account { LeavesRest locked.old seat.old locked.new seat.new }
{
    let was_live = locked.array().is_live(die);
    let buffer = either(done(alloc, locked, seat, die, outcome, buffer));
    let is_live = locked.array().is_live(die);
    if changes_more(outcome) {
        locked.note_change();
    }
    let fault = fault_of(was_live, is_live, die, outcome, locked.array().now());
    Ended { buffer, fault }
}

/// Whether a job that ended so may change more than what waits for it.
fn changes_more(outcome: Outcome) -> bool {
    !matches!(outcome, Outcome::Read(_))
}

/// The buffer of a Done, whether it was made or not.
fn either<A: Allocator>(ended: Result<Vec<u8, A>, Vec<u8, A>>) -> Vec<u8, A> {
    match ended {
        Ok(left) => left,
        Err(back) => back,
    }
}
