//! A request on several pages, done in parts side by side.
ghost use Rattle.std.specs.Prelude.{◌≡◌, ◌≤◌, ◌^◌, true, is_ok, OnOk};
ghost use Rattle.std.specs.List.{list_all, sum_by};
ghost use Rattle.fa_shared_request.specs.Counts.{IsMade};
ghost use Rattle.fa_shared_request.specs.PartCounts.{PartsGoOn, has_ended as rule_ended, refusals_in};
ghost use Rattle.fa_shared_request.specs.Tallies.{pages_in};
ghost use Rattle.fa_shared_steps.specs.Tasks.{end_of, task_of};

use crate::context::Context;
use crate::running::pass_time;
use fa_core_calls::Events;
use fa_shared_lock::{Hands, Seat};
use fa_shared_request::{Part, fault_of, has_ended, parts_of, prepare};
use fa_shared_steps::Request;
use fa_shared_turns::{Turn, awaits_of, turn_all};
use fa_types::BlockFault;
use std::alloc::Allocator;
use std::sync::Wait;
use std::sync::ledger::Ledger;
use std::time::Clock;

/// A request that answers no bytes, in parts of whole pages, without its flush. Where parts are refused the fault is the first one's.
pub(crate) fn run_parts<
    R: Wait + Clock,
    L: Ledger,
    E: Events<A>,
    A: Allocator + Copy,
    H: Hands<L, E, A>,
>(
    context: &Context<'_, R, L, E, A>,
    seat: &mut Seat<L>,
    hands: &mut H,
    request: Request,
    bytes: &[u8],
) -> Result<(), BlockFault>
    requires inside { end_of request ≤ 2 ^ 32 }
    ensures { IsMade (pages_in (task_of context.now.page_bytes request)) seat.old (is_ok result) seat.new }
{
    let Ok(mut parts) = parts_of(context.alloc, u64::from(context.page_bytes), request) else {
        return Err(BlockFault::NoMemory);
    };
    finish_parts(context, seat, hands, parts.as_mut_slice(), bytes)
}

/// Goes on with parts until all have ended. The fault is that of the first one that was refused.
fn finish_parts<R: Wait + Clock, L: Ledger, E: Events<A>, A: Allocator + Copy, H: Hands<L, E, A>>(
    context: &Context<'_, R, L, E, A>,
    seat: &mut Seat<L>,
    hands: &mut H,
    parts: &mut [Part<A>],
    bytes: &[u8],
) -> Result<(), BlockFault>
    ensures goes_on { PartsGoOn seat.old parts.old seat.new parts.new }
    ensures ended { list_all rule_ended parts.new ≡ true }
    ensures well { OnOk result (sum_by refusals_in parts.new ≡ 0) }
{
    for _ in context.rt.forever() {
        if has_ended(parts) {
            return fault_of(parts);
        }
        prepare(context.alloc, parts, bytes);
        make_turns(context, seat, hands, parts);
    }
    unreachable!()
}

/// Makes turns until a part has something to prepare, or all have ended. The lock is free while all wait, and behind.
fn make_turns<R: Wait + Clock, L: Ledger, E: Events<A>, A: Allocator + Copy, H: Hands<L, E, A>>(
    context: &Context<'_, R, L, E, A>,
    seat: &mut Seat<L>,
    hands: &mut H,
    parts: &mut [Part<A>],
)
    ensures { PartsGoOn seat.old parts.old seat.new parts.new }
{
    let mut guard = context.shared.lock(context.rt);
    for _ in context.rt.forever() {
        if !matches!(turn_all(context.rt, parts, &mut guard, seat), Turn::Wait) {
            break;
        }
        let awaits = awaits_of(parts, &guard, seat.number());
        guard = pass_time(context, seat, hands, awaits, guard);
    }
    context.shared.release(seat, guard);
    hands.note();
}
