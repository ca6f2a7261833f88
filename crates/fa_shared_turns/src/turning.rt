//! Turns of a request while each leads to the next.
ghost use Rattle.fa_shared_request.specs.Counts.{GoesOn};

use crate::turn::{Turn, make_turn};
use fa_core_calls::Events;
use fa_shared_lock::{Locked, Seat};
use fa_shared_request::Op;
use std::alloc::Allocator;
use std::sync::Wait;
use std::sync::ledger::Ledger;

/// Gives back what a batch of the request handed out, and makes its turns while each leads to the next.
pub fn turn_on<R: Wait, L: Ledger, E: Events<A>, A: Allocator + Copy, B: Allocator>(
    rt: &R,
    op: &mut Op<A, B>,
    locked: &mut Locked<L, E, A>,
    seat: &mut Seat<L>,
) -> Turn
    ensures { GoesOn seat.old op.old seat.new op.new }
{
    op.give_back(locked);
    turn_further(rt, op, locked, seat)
}

/// Makes turns of a request while each leads to the next. It waits before it reserves where a die gets room before long that its page's
/// copy belongs on.
fn turn_further<R: Wait, L: Ledger, E: Events<A>, A: Allocator + Copy, B: Allocator>(
    rt: &R,
    op: &mut Op<A, B>,
    locked: &mut Locked<L, E, A>,
    seat: &mut Seat<L>,
) -> Turn
    ensures { GoesOn seat.old op.old seat.new op.new }
{
    if op.ended().is_some() {
        return Turn::End;
    }
    for _ in rt.forever() {
        if op.may_wait_for_home(locked, seat.number()) {
            return Turn::Wait;
        }
        let turn = make_turn(op, locked, seat);
        if matches!(turn, Turn::Wait) {
            return turn;
        }
        locked.note_change();
        if !matches!(turn, Turn::More) {
            return turn;
        }
    }
    unreachable!()
}
