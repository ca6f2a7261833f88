//! The events by which a die takes a job and ends it.
ghost use Rattle.std.specs.FinMap.{get};
ghost use Rattle.std.specs.Option.{option_map_or};
ghost use Rattle.std.specs.Prelude.{◌≡◌, ◌&&◌, true, false, option_map, IfErr, IfOk, IfSome};
ghost use Rattle.fa_core_outcome.specs.Outcomes.{outcome_of};
ghost use Rattle.fa_core_outcome.specs.Fits.{IsJobFor};
ghost use Rattle.fa_core_outcome.specs.Handed.{handed_of};
ghost use Rattle.fa_machine.specs.Cells.{is_of_kind};
ghost use Rattle.fa_machine.specs.Conditions.{history_full};
ghost use Rattle.fa_machine.specs.Step.{Done, Step, Take, is_die, is_sized};
ghost use Rattle.fa_shared_lock.specs.Seats.{commits_with, number_of};
ghost use Rattle.fa_shared_lock.specs.Accounts.{IsAccounted};
ghost use Rattle.fa_shared_lock.specs.Rest.{LeavesRest};

use fa_core_calls::{Answer, Call, Events};
use fa_core_outcome::{Job, Outcome};
use fa_shared_lock::{Locked, Seat, make, plain};
use fa_types::Die;
use std::alloc::Allocator;
use std::sync::ledger::Ledger;

/// A Take of a die of the array. The history has room for it.
pub fn take<L: Ledger, E: Events<A>, A: Allocator + Copy>(
    alloc: A,
    locked: &mut Locked<L, E, A>,
    seat: &mut Seat<L>,
    die: Die,
) -> Option<Job<A>>
    requires die { is_die locked.old.core die.0 ≡ true }
    requires room { history_full locked.old.core ≡ false }
    ensures event { Step locked.old.core (Take die.0 (number_of seat.old) (option_map handed_of result)) locked.new.core }
    ensures fits { IfSome result (λ job. IsJobFor locked.old.core.page_map.geometry locked.old.number die.0 (handed_of job)) }
    ensures commits { commits_with seat.new ≡ commits_with seat.old }
    ensures account { IsAccounted locked.old seat.old locked.new seat.new }
    ensures rest { LeavesRest locked.old seat.old locked.new seat.new }
{
    let Answer::Take(job) = make(locked, seat, plain(&alloc, Call::Take(die))) else {
        unreachable!()
    };
    job
}

/// A Done, with the buffer that has what a read gave. The buffer is handed back, or the one that it changed places with. The error is the
/// buffer where the die is at no job that can end so, or the buffer has not the bytes of a page.
pub fn done<L: Ledger, E: Events<A>, A: Allocator + Copy>(
    alloc: A,
    locked: &mut Locked<L, E, A>,
    seat: &mut Seat<L>,
    die: Die,
    outcome: Outcome,
    buffer: Vec<u8, A>,
) -> Result<Vec<u8, A>, Vec<u8, A>>
    ensures made { IfOk result (λ left. Step locked.old.core (Done die.0 (outcome_of outcome buffer.items)) locked.new.core) }
    ensures none { IfErr result (λ back. ((option_map_or (λ job. is_of_kind job (outcome_of outcome buffer.items))
        (get locked.old.core.jobs die.0) false && is_sized locked.old.core buffer.items) ≡ false) × (locked.new.core ≡ locked.old.core)) }
    ensures commits { commits_with seat.new ≡ commits_with seat.old }
    ensures account { IsAccounted locked.old seat.old locked.new seat.new }
    ensures rest { LeavesRest locked.old seat.old locked.new seat.new }
{
    match make(
        locked,
        seat,
        plain(&alloc, Call::Done(die, outcome, buffer)),
    ) {
        Answer::Done(left) => Ok(left),
        Answer::Stranger(Some(back)) => Err(back),
        _ => Err(Vec::new(alloc)),
    }
}
