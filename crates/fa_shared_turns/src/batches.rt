//! The events by which batches of pages are read.
ghost use Rattle.std.specs.Prelude.{◌≡◌, ◌&&◌, false, nat_le, length, map, IfNone, IfSome};
ghost use Rattle.std.specs.List.{list_all};
ghost use Rattle.fa_core_calls.specs.Answers.{admit_answer, plan_answer};
ghost use Rattle.fa_machine.specs.Conditions.{batch_open};
ghost use Rattle.fa_machine.specs.Step.{Admit, EndBatch, Replan, Step, is_distinct, is_page};
ghost use Rattle.fa_shared_lock.specs.Seats.{commits_with};
ghost use Rattle.fa_shared_lock.specs.Accounts.{IsAccounted};
ghost use Rattle.fa_shared_lock.specs.Rest.{LeavesRest};

use fa_core_calls::{Admitted, Answer, Call, Events};
use fa_machine::{AdmitRefused, BatchId};
use fa_plan::Planned;
use fa_shared_lock::{Locked, Seat, make, plain};
use fa_types::Page;
use std::alloc::Allocator;
use std::sync::ledger::Ledger;

/// An Admit. None where these pages are no batch of the array.
pub fn admit<L: Ledger, E: Events<A>, A: Allocator + Copy>(
    locked: &mut Locked<L, E, A>,
    seat: &mut Seat<L>,
    pages: &[Page],
) -> Option<Result<Admitted<A>, AdmitRefused>>
    ensures some { IfSome result (λ answer. Step locked.old.core (Admit (map (λ page. page.0) pages.now) (admit_answer answer))
        locked.new.core) }
    ensures none { IfNone result (((is_distinct (map (λ page. page.0) pages.now)
        && list_all (is_page locked.old.core) (map (λ page. page.0) pages.now)
        && nat_le (length (map (λ page. page.0) pages.now)) 1024) ≡ false) × (locked.new.core ≡ locked.old.core)) }
    ensures commits { commits_with seat.new ≡ commits_with seat.old }
    ensures account { IsAccounted locked.old seat.old locked.new seat.new }
    ensures rest { LeavesRest locked.old seat.old locked.new seat.new }
{
    let Answer::Admit(answer) = make(locked, seat, Call::Admit(pages)) else {
        return None;
    };
    Some(answer)
}

/// A Replan. None where the batch is not open.
pub(crate) fn replan<L: Ledger, E: Events<A>, A: Allocator + Copy>(
    alloc: A,
    locked: &mut Locked<L, E, A>,
    seat: &mut Seat<L>,
    batch: BatchId,
) -> Option<Result<Planned<A>, AdmitRefused>>
    ensures some { IfSome result (λ answer. Step locked.old.core (Replan batch.0 (plan_answer answer)) locked.new.core) }
    ensures none { IfNone result ((batch_open locked.old.core batch.0 ≡ false) × (locked.new.core ≡ locked.old.core)) }
    ensures commits { commits_with seat.new ≡ commits_with seat.old }
    ensures account { IsAccounted locked.old seat.old locked.new seat.new }
    ensures rest { LeavesRest locked.old seat.old locked.new seat.new }
{
    let Answer::Replan(answer) = make(locked, seat, plain(&alloc, Call::Replan(batch))) else {
        return None;
    };
    Some(answer)
}

/// An EndBatch. None where the batch is not open.
pub fn end_batch<L: Ledger, E: Events<A>, A: Allocator + Copy>(
    alloc: A,
    locked: &mut Locked<L, E, A>,
    seat: &mut Seat<L>,
    batch: BatchId,
) -> Option<Vec<(Page, Vec<u8, A>), A>>
    ensures some { IfSome result (λ answers. Step locked.old.core (EndBatch batch.0 (map (λ e. (e.0.0, e.1.items)) answers.items))
        locked.new.core) }
    ensures none { IfNone result ((batch_open locked.old.core batch.0 ≡ false) × (locked.new.core ≡ locked.old.core)) }
    ensures commits { commits_with seat.new ≡ commits_with seat.old }
    ensures account { IsAccounted locked.old seat.old locked.new seat.new }
    ensures rest { LeavesRest locked.old seat.old locked.new seat.new }
{
    let Answer::EndBatch(answers) = make(locked, seat, plain(&alloc, Call::EndBatch(batch))) else {
        return None;
    };
    Some(answers)
}
