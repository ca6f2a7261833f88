//! The events that fold the history.
ghost use Rattle.std.specs.Prelude.{◌≡◌, false};
ghost use Rattle.fa_machine.specs.Conditions.{history_full};
ghost use Rattle.fa_machine.specs.Step.{Fold, Step};
ghost use Rattle.fa_shared_lock.specs.Seats.{commits_with};
ghost use Rattle.fa_shared_lock.specs.Accounts.{IsAccounted};
ghost use Rattle.fa_shared_lock.specs.Rest.{Folds, LeavesRest};

use fa_core_calls::{Call, Events};
use fa_shared_lock::{Locked, Seat, make, plain};
use std::alloc::Allocator;
use std::sync::ledger::Ledger;

/// A Fold.
pub(crate) fn fold<L: Ledger, E: Events<A>, A: Allocator + Copy>(
    alloc: A,
    locked: &mut Locked<L, E, A>,
    seat: &mut Seat<L>,
)
    ensures event { Step locked.old.core Fold locked.new.core }
    ensures commits { commits_with seat.new ≡ commits_with seat.old }
    ensures account { IsAccounted locked.old seat.old locked.new seat.new }
    ensures rest { LeavesRest locked.old seat.old locked.new seat.new }
{
    make(locked, seat, plain(&alloc, Call::Fold));
}

/// The history is folded, if it is full.
pub fn make_room<L: Ledger, E: Events<A>, A: Allocator + Copy>(
    alloc: A,
    locked: &mut Locked<L, E, A>,
    seat: &mut Seat<L>,
)
    ensures folds { Folds locked.old.core locked.new.core }
    ensures room { history_full locked.new.core ≡ false }
    ensures commits { commits_with seat.new ≡ commits_with seat.old }
    ensures account { IsAccounted locked.old seat.old locked.new seat.new }
    ensures rest { LeavesRest locked.old seat.old locked.new seat.new }
{
    if locked.array().history_full() {
        fold(alloc, locked, seat);
    }
}
