//! One turn of a request.
ghost use Rattle.std.specs.Prelude.{◌≡◌};
ghost use Rattle.fa_shared_lock.specs.Accounts.{IsAccounted};
ghost use Rattle.fa_shared_lock.specs.Moves.{Turned};
ghost use Rattle.fa_shared_request.specs.Ops.{answer_of, stage_of, task_in};

use crate::kinds::{kind_of, turn_from};
use crate::stages::turn_stage;
use fa_core_calls::Events;
use fa_shared_lock::{Locked, Seat};
use fa_shared_request::Op;
use std::alloc::Allocator;
use std::sync::ledger::Ledger;

/// What a turn of a request came to.
#[derive(Clone, Copy)]
pub enum Turn {
    /// The next turn may be made at once.
    More,
    /// [`Op::prepare`] is next, with no lock held.
    Prepare,
    /// The request waits for what others do.
    Wait,
    /// The request has ended.
    End,
}

/// A turn, with a seat of the array. Where the request has something to prepare, or has ended, nothing is done. What is answered says whom
/// to ask next, and is in no clause.
pub fn make_turn<L: Ledger, E: Events<A>, A: Allocator + Copy, B: Allocator>(
    op: &mut Op<A, B>,
    locked: &mut Locked<L, E, A>,
    seat: &mut Seat<L>,
) -> Turn
    ensures turned { Turned (task_in op.old) seat.old seat.new locked.old.core (stage_of op.old) locked.new.core (stage_of op.new) }
    ensures task { task_in op.new ≡ task_in op.old }
    ensures answer { answer_of op.new ≡ answer_of op.old }
    ensures account { IsAccounted locked.old seat.old locked.new seat.new }
{
    let (alloc, task) = (op.alloc(), op.task());
    let stage = op.take_stage();
    let before = kind_of(&stage);
    let next = turn_stage(alloc, locked, seat, task, stage);
    let after = kind_of(&next);
    op.put_stage(next);
    turn_from(before, after)
}
