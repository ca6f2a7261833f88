//! What all events have in common that are no Commits.
ghost use Rattle.std.specs.Prelude.{◌≡◌};
ghost use Rattle.fa_core_calls.specs.Calls.{FitsAnswer, Makes};
ghost use Rattle.fa_shared_lock.specs.Seats.{commits_with, number_of};
ghost use Rattle.fa_shared_lock.specs.Accounts.{IsAccounted};
ghost use Rattle.fa_shared_lock.specs.Rest.{IsNoCommit, LeavesRest};

use crate::locked::Locked;
use crate::seat::Seat;
use fa_core_calls::{Answer, Call, Events};
use std::alloc::Allocator;
use std::sync::ledger::Ledger;

/// An event that is no Commit.
pub fn make<L: Ledger, E: Events<A>, A: Allocator + Copy>(
    locked: &mut Locked<L, E, A>,
    seat: &mut Seat<L>,
    call: Call<'_, A>,
) -> Answer<A>
    requires { IsNoCommit call }
    ensures event { Makes locked.old.core (number_of seat.old) call.entry result locked.new.core }
    ensures fits { FitsAnswer locked.old.core.page_map.geometry locked.old.number call.entry result }
    ensures commits { commits_with seat.new ≡ commits_with seat.old }
    ensures account { IsAccounted locked.old seat.old locked.new seat.new }
    ensures rest { LeavesRest locked.old seat.old locked.new seat.new }
{
    locked.step(seat, call)
}
