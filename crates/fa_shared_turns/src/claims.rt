//! The events by which pages are claimed, written and released.
ghost use Rattle.std.specs.Prelude.{◌≡◌, ◌+◌, ◌&&◌, not, false, IfNone, IfSome};
ghost use Rattle.fa_machine.specs.Conditions.{claim_open, history_full, is_reserved};
ghost use Rattle.fa_machine.specs.Step.{Step, is_page, is_sized};
ghost use Rattle.fa_machine.specs.Step.{Abandon, Claim, Commit, Release, Reserve, ReserveFewer, ReserveHole};
ghost use Rattle.fa_shared_lock.specs.Seats.{commits_with, number_of};
ghost use Rattle.fa_shared_lock.specs.Accounts.{IsAccounted, commits_in};
ghost use Rattle.fa_shared_lock.specs.Rest.{LeavesRest};

use fa_core_calls::{Answer, Call, Events};
use fa_machine::{AbandonRefused, ClaimId, ClaimRefused, CommitRefused, ReserveRefused};
use fa_shared_lock::{Locked, Seat, make, plain};
use fa_tag::Payload;
use fa_types::{Page, Seq};
use std::alloc::Allocator;
use std::sync::ledger::Ledger;

/// A Claim. None of a page that is none of the array.
pub(crate) fn claim<L: Ledger, E: Events<A>, A: Allocator + Copy>(
    alloc: A,
    locked: &mut Locked<L, E, A>,
    seat: &mut Seat<L>,
    page: Page,
) -> Option<Result<ClaimId, ClaimRefused>>
    ensures some { IfSome result (λ answer. Step locked.old.core (Claim page.0 answer) locked.new.core) }
    ensures none { IfNone result ((is_page locked.old.core page.0 ≡ false) × (locked.new.core ≡ locked.old.core)) }
    ensures commits { commits_with seat.new ≡ commits_with seat.old }
    ensures account { IsAccounted locked.old seat.old locked.new seat.new }
    ensures rest { LeavesRest locked.old seat.old locked.new seat.new }
{
    let Answer::Claim(answer) = make(locked, seat, plain(&alloc, Call::Claim(page))) else {
        return None;
    };
    Some(answer)
}

/// A Release. Whether it was made: it is not where the claim is not open, or something is reserved under it.
pub(crate) fn release<L: Ledger, E: Events<A>, A: Allocator + Copy>(
    alloc: A,
    locked: &mut Locked<L, E, A>,
    seat: &mut Seat<L>,
    claim: ClaimId,
) -> Option<()>
    ensures some { IfSome result (λ answer. Step locked.old.core (Release claim.0) locked.new.core) }
    ensures none { IfNone result (((claim_open locked.old.core claim.0 && not (is_reserved locked.old.core claim.0)) ≡ false)
        × (locked.new.core ≡ locked.old.core)) }
    ensures commits { commits_with seat.new ≡ commits_with seat.old }
    ensures account { IsAccounted locked.old seat.old locked.new seat.new }
    ensures rest { LeavesRest locked.old seat.old locked.new seat.new }
{
    let Answer::Release = make(locked, seat, plain(&alloc, Call::Release(claim))) else {
        return None;
    };
    Some(())
}

/// A Reserve of a payload.
pub(crate) fn reserve<L: Ledger, E: Events<A>, A: Allocator + Copy>(
    locked: &mut Locked<L, E, A>,
    seat: &mut Seat<L>,
    claim: ClaimId,
    payload: &Payload<A>,
) -> Option<Result<Seq, ReserveRefused>>
    ensures some { IfSome result (λ answer. Step locked.old.core (Reserve claim.0 payload.now answer) locked.new.core) }
    ensures none { IfNone result (((claim_open locked.old.core claim.0 && not (is_reserved locked.old.core claim.0)
        && is_sized locked.old.core payload.now) ≡ false) × (locked.new.core ≡ locked.old.core)) }
    ensures commits { commits_with seat.new ≡ commits_with seat.old }
    ensures account { IsAccounted locked.old seat.old locked.new seat.new }
    ensures rest { LeavesRest locked.old seat.old locked.new seat.new }
{
    let Answer::Reserve(answer) = make(locked, seat, Call::Reserve(claim, payload)) else {
        return None;
    };
    Some(answer)
}

/// A Reserve of a payload on fewer dies.
pub(crate) fn reserve_fewer<L: Ledger, E: Events<A>, A: Allocator + Copy>(
    locked: &mut Locked<L, E, A>,
    seat: &mut Seat<L>,
    claim: ClaimId,
    payload: &Payload<A>,
) -> Option<Result<Seq, ReserveRefused>>
    ensures some { IfSome result (λ answer. Step locked.old.core (ReserveFewer claim.0 payload.now answer) locked.new.core) }
    ensures none { IfNone result (((claim_open locked.old.core claim.0 && not (is_reserved locked.old.core claim.0)
        && is_sized locked.old.core payload.now) ≡ false) × (locked.new.core ≡ locked.old.core)) }
    ensures commits { commits_with seat.new ≡ commits_with seat.old }
    ensures account { IsAccounted locked.old seat.old locked.new seat.new }
    ensures rest { LeavesRest locked.old seat.old locked.new seat.new }
{
    let Answer::Reserve(answer) = make(locked, seat, Call::ReserveFewer(claim, payload)) else {
        return None;
    };
    Some(answer)
}

/// A Reserve of a hole.
pub(crate) fn reserve_hole<L: Ledger, E: Events<A>, A: Allocator + Copy>(
    alloc: A,
    locked: &mut Locked<L, E, A>,
    seat: &mut Seat<L>,
    claim: ClaimId,
) -> Option<Result<Seq, ReserveRefused>>
    ensures some { IfSome result (λ answer. Step locked.old.core (ReserveHole claim.0 answer) locked.new.core) }
    ensures none { IfNone result (((claim_open locked.old.core claim.0 && not (is_reserved locked.old.core claim.0)) ≡ false)
        × (locked.new.core ≡ locked.old.core)) }
    ensures commits { commits_with seat.new ≡ commits_with seat.old }
    ensures account { IsAccounted locked.old seat.old locked.new seat.new }
    ensures rest { LeavesRest locked.old seat.old locked.new seat.new }
{
    let Answer::Reserve(answer) = make(locked, seat, plain(&alloc, Call::ReserveHole(claim))) else {
        return None;
    };
    Some(answer)
}

/// A Commit. None where nothing is reserved under the claim; the history has room for it.
pub(crate) fn commit<L: Ledger, E: Events<A>, A: Allocator + Copy>(
    alloc: A,
    locked: &mut Locked<L, E, A>,
    seat: &mut Seat<L>,
    claim: ClaimId,
) -> Option<Result<Seq, CommitRefused>>
    requires { history_full locked.old.core ≡ false }
    ensures some { IfSome result (λ answer. Step locked.old.core (Commit claim.0 (number_of seat.old) answer) locked.new.core) }
    ensures none { IfNone result ((is_reserved locked.old.core claim.0 ≡ false) × (locked.new.core ≡ locked.old.core)) }
    ensures made { IfSome result (λ answer. commits_with seat.new
        ≡ commits_with seat.old + commits_in (Commit claim.0 (number_of seat.old) answer)) }
    ensures kept { IfNone result (commits_with seat.new ≡ commits_with seat.old) }
    ensures account { IsAccounted locked.old seat.old locked.new seat.new }
{
    let Answer::Commit(answer) = locked.step(seat, plain(&alloc, Call::Commit(claim))) else {
        return None;
    };
    Some(answer)
}

/// An Abandon. None where nothing is reserved under the claim.
pub(crate) fn abandon<L: Ledger, E: Events<A>, A: Allocator + Copy>(
    alloc: A,
    locked: &mut Locked<L, E, A>,
    seat: &mut Seat<L>,
    claim: ClaimId,
) -> Option<Result<(), AbandonRefused>>
    ensures some { IfSome result (λ answer. Step locked.old.core (Abandon claim.0 answer) locked.new.core) }
    ensures none { IfNone result ((is_reserved locked.old.core claim.0 ≡ false) × (locked.new.core ≡ locked.old.core)) }
    ensures commits { commits_with seat.new ≡ commits_with seat.old }
    ensures account { IsAccounted locked.old seat.old locked.new seat.new }
    ensures rest { LeavesRest locked.old seat.old locked.new seat.new }
{
    let Answer::Abandon(answer) = make(locked, seat, plain(&alloc, Call::Abandon(claim))) else {
        return None;
    };
    Some(answer)
}
