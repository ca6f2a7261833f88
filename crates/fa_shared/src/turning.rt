//! The events by which windows are given, rounds pass, spares come in and thin pages get one more copy.
ghost use Rattle.std.specs.Prelude.{◌≡◌, ◌<◌, ◌&&◌, nat_le, false, IfNone, IfSome};
ghost use Rattle.fa_machine.specs.Conditions.{copy_open};
ghost use Rattle.fa_machine.specs.Step.{Advance, CommitCopy, ReserveCopy, SpareIn, Step, Window, is_die, is_page, is_sized};
ghost use Rattle.fa_shared_lock.specs.Seats.{commits_with};
ghost use Rattle.fa_shared_lock.specs.Accounts.{IsAccounted};
ghost use Rattle.fa_shared_lock.specs.Rest.{LeavesRest};

use fa_core_calls::{Answer, Call, Events};
use fa_machine::{
    AdvanceRefused, CommitCopyRefused, Copied, ReserveCopyRefused, SpareRefused, WindowRefused,
};
use fa_shared_lock::{Locked, Seat, make, plain};
use fa_tag::Payload;
use fa_types::{Die, Page, Round, Seq};
use std::alloc::Allocator;
use std::sync::ledger::Ledger;

/// A Window. None where the die is none of the array, or no window has so many rounds.
pub fn window<L: Ledger, E: Events<A>, A: Allocator + Copy>(
    alloc: A,
    locked: &mut Locked<L, E, A>,
    seat: &mut Seat<L>,
    die: Die,
    rounds: u64,
) -> Option<Result<Round, WindowRefused>>
    ensures some { IfSome result (λ answer. Step locked.old.core (Window die.0 rounds answer) locked.new.core) }
    ensures none { IfNone result (((is_die locked.old.core die.0 && nat_le 1 rounds && nat_le rounds 64) ≡ false)
        × (locked.new.core ≡ locked.old.core)) }
    ensures commits { commits_with seat.new ≡ commits_with seat.old }
    ensures account { IsAccounted locked.old seat.old locked.new seat.new }
    ensures rest { LeavesRest locked.old seat.old locked.new seat.new }
{
    let Answer::Window(answer) = make(locked, seat, plain(&alloc, Call::Window(die, rounds))) else {
        return None;
    };
    Some(answer)
}

/// An Advance.
pub fn advance<L: Ledger, E: Events<A>, A: Allocator + Copy>(
    alloc: A,
    locked: &mut Locked<L, E, A>,
    seat: &mut Seat<L>,
) -> Result<Round, AdvanceRefused>
    ensures event { Step locked.old.core (Advance result) locked.new.core }
    ensures commits { commits_with seat.new ≡ commits_with seat.old }
    ensures account { IsAccounted locked.old seat.old locked.new seat.new }
    ensures rest { LeavesRest locked.old seat.old locked.new seat.new }
{
    let Answer::Advance(answer) = make(locked, seat, plain(&alloc, Call::Advance)) else {
        unreachable!()
    };
    answer
}

/// A SpareIn of a die of the array.
pub fn spare_in<L: Ledger, E: Events<A>, A: Allocator + Copy>(
    alloc: A,
    locked: &mut Locked<L, E, A>,
    seat: &mut Seat<L>,
    die: Die,
) -> Result<(), SpareRefused>
    requires { die.0 < locked.old.core.page_map.geometry.dies }
    ensures event { Step locked.old.core (SpareIn die.0 result) locked.new.core }
    ensures commits { commits_with seat.new ≡ commits_with seat.old }
    ensures account { IsAccounted locked.old seat.old locked.new seat.new }
    ensures rest { LeavesRest locked.old seat.old locked.new seat.new }
{
    let Answer::SpareIn(answer) = make(locked, seat, plain(&alloc, Call::SpareIn(die))) else {
        unreachable!()
    };
    answer
}

/// A ReserveCopy. None where the payload has not a page's bytes, or the page is none of the array.
pub fn reserve_copy<L: Ledger, E: Events<A>, A: Allocator + Copy>(
    locked: &mut Locked<L, E, A>,
    seat: &mut Seat<L>,
    page: Page,
    seq: Seq,
    payload: &Payload<A>,
) -> Option<Result<(), ReserveCopyRefused>>
    ensures some { IfSome result (λ answer. Step locked.old.core (ReserveCopy page.0 seq.0 payload.now answer) locked.new.core) }
    ensures none { IfNone result (((is_page locked.old.core page.0 && is_sized locked.old.core payload.now) ≡ false)
        × (locked.new.core ≡ locked.old.core)) }
    ensures commits { commits_with seat.new ≡ commits_with seat.old }
    ensures account { IsAccounted locked.old seat.old locked.new seat.new }
    ensures rest { LeavesRest locked.old seat.old locked.new seat.new }
{
    let Answer::ReserveCopy(answer) = make(locked, seat, Call::ReserveCopy(page, seq, payload))
    else {
        return None;
    };
    Some(answer)
}

/// A CommitCopy. None where no copy is under way.
pub fn commit_copy<L: Ledger, E: Events<A>, A: Allocator + Copy>(
    alloc: A,
    locked: &mut Locked<L, E, A>,
    seat: &mut Seat<L>,
) -> Option<Result<Copied, CommitCopyRefused>>
    ensures some { IfSome result (λ answer. Step locked.old.core (CommitCopy answer) locked.new.core) }
    ensures none { IfNone result ((copy_open locked.old.core ≡ false) × (locked.new.core ≡ locked.old.core)) }
    ensures commits { commits_with seat.new ≡ commits_with seat.old }
    ensures account { IsAccounted locked.old seat.old locked.new seat.new }
    ensures rest { LeavesRest locked.old seat.old locked.new seat.new }
{
    let Answer::CommitCopy(answer) = make(locked, seat, plain(&alloc, Call::CommitCopy)) else {
        return None;
    };
    Some(answer)
}
