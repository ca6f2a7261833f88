//! The events of flushes.
ghost use Rattle.std.specs.Prelude.{◌≡◌};
ghost use Rattle.fa_machine.specs.Step.{FlushBegin, FlushState as StateFlush, Step};
ghost use Rattle.fa_shared_lock.specs.Seats.{commits_with};
ghost use Rattle.fa_shared_lock.specs.Accounts.{IsAccounted};
ghost use Rattle.fa_shared_lock.specs.Rest.{LeavesRest};

use fa_core_calls::{Answer, Call, Events};
use fa_machine::{Flush, FlushRefused, FlushState};
use fa_shared_lock::{Locked, Seat, make, plain};
use std::alloc::Allocator;
use std::sync::ledger::Ledger;

/// A FlushBegin.
pub(crate) fn flush_begin<L: Ledger, E: Events<A>, A: Allocator + Copy>(
    alloc: A,
    locked: &mut Locked<L, E, A>,
    seat: &mut Seat<L>,
) -> Result<Flush, FlushRefused>
    ensures event { Step locked.old.core (FlushBegin result) locked.new.core }
    ensures commits { commits_with seat.new ≡ commits_with seat.old }
    ensures account { IsAccounted locked.old seat.old locked.new seat.new }
    ensures rest { LeavesRest locked.old seat.old locked.new seat.new }
{
    let Answer::FlushBegin(answer) = make(locked, seat, plain(&alloc, Call::FlushBegin)) else {
        unreachable!()
    };
    answer
}

/// A FlushState.
pub(crate) fn flush_state<L: Ledger, E: Events<A>, A: Allocator + Copy>(
    alloc: A,
    locked: &mut Locked<L, E, A>,
    seat: &mut Seat<L>,
    flush: Flush,
) -> FlushState
    ensures event { Step locked.old.core (StateFlush flush result) locked.new.core }
    ensures commits { commits_with seat.new ≡ commits_with seat.old }
    ensures account { IsAccounted locked.old seat.old locked.new seat.new }
    ensures rest { LeavesRest locked.old seat.old locked.new seat.new }
{
    let Answer::FlushState(answer) = make(locked, seat, plain(&alloc, Call::FlushState(flush)))
    else {
        unreachable!()
    };
    answer
}
