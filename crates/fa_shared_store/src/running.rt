//! Requests over an array that is shared, from their beginning to their end.
ghost use Rattle.std.specs.Prelude.{◌≡◌, ◌+◌, ◌*◌, ◌^◌, ◌≤◌, length, true, is_ok, Err, IfOk, IfErr, IfSome, None};
ghost use Rattle.fa_shared_request.specs.Counts.{GoesOn, IsMade};
ghost use Rattle.fa_shared_request.specs.Ops.{ended, stage_of};
ghost use Rattle.fa_shared_request.specs.Tallies.{pages_in};
ghost use Rattle.fa_shared_steps.specs.Tasks.{end_of, task_of};
ghost use Rattle.fa_shared_lock.specs.Seats.{commits_with, number_of};
ghost use Rattle.fa_types.specs.declared.blocks.BlockFault.TheVariants.{NoRoom};

use crate::context::Context;
use crate::parts::run_parts;
use fa_core_calls::Events;
use fa_shared_lock::{Hands, Locked, Seat};
use fa_shared_request::{Lent, Op};
use fa_shared_sleepers::Awaits;
use fa_shared_steps::Request;
use fa_shared_turns::{Turn, turn_on};
use fa_types::{BlockFault, Geometry};
use std::alloc::Allocator;
use std::mem::replace;
use std::sync::ledger::Ledger;
use std::sync::{MutexGuard, Wait};
use std::time::Clock;

/// How many bytes the store of an array has, and how many a page of it.
pub(crate) fn store_bytes(geometry: Geometry) -> (u64, u32)
    ensures bytes { result.0 ≡ geometry.pages * geometry.page_bytes }
    ensures most { result.0 ≤ 2 ^ 32 }
    ensures page { result.1 ≡ geometry.page_bytes }
    ensures some { 1 ≤ result.1 }
    ensures small { result.1 ≤ 4096 }
{
    let bytes = geometry.pages * u64::from(geometry.page_bytes);
    (bytes, geometry.page_bytes)
}

/// A request that answers no bytes, done page by page.
fn run_whole<R: Wait + Clock, L: Ledger, E: Events<A>, A: Allocator + Copy, H: Hands<L, E, A>>(
    context: &Context<'_, R, L, E, A>,
    seat: &mut Seat<L>,
    hands: &mut H,
    request: Request,
    bytes: &[u8],
) -> Result<(), BlockFault>
    requires inside { end_of request ≤ 2 ^ 32 }
    ensures { IsMade (pages_in (task_of context.now.page_bytes request)) seat.old (is_ok result) seat.new }
{
    let mut op = match Op::new(
        context.alloc,
        context.alloc,
        request,
        u64::from(context.page_bytes),
    ) {
        Ok(op) => op,
        Err(_) => return Err(BlockFault::NoMemory),
    };
    result_of(finish(context, seat, hands, &mut op, bytes))
}

/// What is told of a request that has ended so.
fn result_of(end: Option<BlockFault>) -> Result<(), BlockFault>
    ensures ended { is_ok result ≡ true → end ≡ None }
    ensures well { end ≡ None → is_ok result ≡ true }
    ensures refused { IfSome end (λ fault. result ≡ Err fault) }
{
    match end {
        None => Ok(()),
        Some(fault) => Err(fault),
    }
}

/// A request that answers no bytes. One on several pages is done in parts, side by side, and then flushed, if it is to be.
pub(crate) fn run<R: Wait + Clock, L: Ledger, E: Events<A>, A: Allocator + Copy, H: Hands<L, E, A>>(
    context: &Context<'_, R, L, E, A>,
    seat: &mut Seat<L>,
    hands: &mut H,
    request: Request,
    bytes: &[u8],
) -> Result<(), BlockFault>
    requires inside { end_of request ≤ 2 ^ 32 }
    ensures { IsMade (pages_in (task_of context.now.page_bytes request)) seat.old (is_ok result) seat.new }
{
    if request.extent().1 <= u64::from(context.page_bytes) {
        return run_whole(context, seat, hands, request, bytes);
    }
    run_parts(context, seat, hands, request, bytes)?;
    if request.has_flush() {
        return run_whole(context, seat, hands, Request::Flush, &[]);
    }
    Ok(())
}

/// A read. It is never refused for want of room. It gives back what an earlier one was lent, and leaves what it was lent itself.
pub(crate) fn run_read<
    R: Wait + Clock,
    L: Ledger,
    E: Events<A>,
    A: Allocator + Copy,
    H: Hands<L, E, A>,
    B: Allocator,
>(
    context: &Context<'_, R, L, E, A>,
    seat: &mut Seat<L>,
    hands: &mut H,
    lent: &mut Lent<A>,
    offset: u64,
    len: u64,
    into: B,
) -> Result<Vec<u8, B>, BlockFault>
    requires inside { offset + len ≤ 2 ^ 32 }
    ensures length { IfOk result (λ answer. length answer.items ≡ len) }
    ensures room { IfErr result (λ fault. fault ≡ NoRoom → ⊥) }
    ensures made { IsMade 0 seat.old (is_ok result) seat.new }
{
    let request = Request::Read { offset, len };
    let mut op = match Op::new(context.alloc, into, request, u64::from(context.page_bytes)) {
        Ok(op) => op,
        Err(_) => return Err(BlockFault::NoMemory),
    };
    op.lend(replace(lent, Vec::new(context.alloc)));
    let end = finish(context, seat, hands, &mut op, &[]);
    *lent = op.take_lent();
    answer_of(op, end, len)
}

/// The answer of a read that has ended so.
fn answer_of<A: Allocator + Copy, B: Allocator>(
    op: Op<A, B>,
    end: Option<BlockFault>,
    len: u64,
) -> Result<Vec<u8, B>, BlockFault>
    ensures length { IfOk result (λ answer. length answer.items ≡ len) }
    ensures room { IfErr result (λ fault. fault ≡ NoRoom → ⊥) }
    ensures none { is_ok result ≡ true → end ≡ None }
{
    match end {
        None => handed_out(op, len),
        Some(fault) => Err(of_read(fault)),
    }
}

/// The answer of a read, if it has so many bytes.
fn handed_out<A: Allocator + Copy, B: Allocator>(
    op: Op<A, B>,
    len: u64,
) -> Result<Vec<u8, B>, BlockFault>
    ensures length { IfOk result (λ answer. length answer.items ≡ len) }
    ensures room { IfErr result (λ fault. fault ≡ NoRoom → ⊥) }
{
    let answer = op.into_answer();
    if answer.len() as u64 != len {
        return Err(BlockFault::Lost);
    }
    Ok(answer)
}

/// Why a read was refused. No read wants room.
fn of_read(fault: BlockFault) -> BlockFault
    ensures { result ≡ NoRoom → ⊥ }
{
    match fault {
        BlockFault::NoRoom => BlockFault::Lost,
        fault => fault,
    }
}

/// Goes on with a request until it has ended, and tells how.
pub(crate) fn finish<
    R: Wait + Clock,
    L: Ledger,
    E: Events<A>,
    A: Allocator + Copy,
    B: Allocator,
    H: Hands<L, E, A>,
>(
    context: &Context<'_, R, L, E, A>,
    seat: &mut Seat<L>,
    hands: &mut H,
    op: &mut Op<A, B>,
    bytes: &[u8],
) -> Option<BlockFault>
    ensures goes_on { GoesOn seat.old op.old seat.new op.new }
    ensures ended { ended (stage_of op.new) ≡ Some result }
{
    for _ in context.rt.forever() {
        if let Some(end) = op.ended() {
            return end;
        }
        op.prepare(bytes);
        go_on(context, seat, hands, op);
    }
    unreachable!()
}

/// Makes turns of a request that was prepared. One that has ended makes none, unless it has many buffers to give back: a few wait for the
/// next read, so that a read of a page or two takes the lock no time more for them.
fn go_on<
    R: Wait + Clock,
    L: Ledger,
    E: Events<A>,
    A: Allocator + Copy,
    B: Allocator,
    H: Hands<L, E, A>,
>(context: &Context<'_, R, L, E, A>, seat: &mut Seat<L>, hands: &mut H, op: &mut Op<A, B>)
    ensures { GoesOn seat.old op.old seat.new op.new }
{
    if op.ended().is_some() && !op.lends_many() {
        return;
    }
    make_turns(context, seat, hands, op);
}

/// Makes turns until the request has something to prepare, or has ended. The lock is free while it waits, and behind. What it waits for is
/// made by these hands, as far as they can.
fn make_turns<
    R: Wait + Clock,
    L: Ledger,
    E: Events<A>,
    A: Allocator + Copy,
    B: Allocator,
    H: Hands<L, E, A>,
>(context: &Context<'_, R, L, E, A>, seat: &mut Seat<L>, hands: &mut H, op: &mut Op<A, B>)
    ensures { GoesOn seat.old op.old seat.new op.new }
{
    let mut guard = context.shared.lock(context.rt);
    for _ in context.rt.forever() {
        if !matches!(turn_on(context.rt, op, &mut guard, seat), Turn::Wait) {
            break;
        }
        let awaits = op.awaits(&guard, seat.number());
        guard = pass_time(context, seat, hands, awaits, guard);
    }
    context.shared.release(seat, guard);
    hands.note();
}

/// Works for dies until what is awaited has come, or sleeps until then where nobody wants that work done.
pub(crate) fn pass_time<
    'a,
    R: Wait + Clock,
    L: Ledger,
    E: Events<A>,
    A: Allocator + Copy,
    H: Hands<L, E, A>,
>(
    context: &Context<'a, R, L, E, A>,
    seat: &mut Seat<L>,
    hands: &mut H,
    awaits: Awaits,
    guard: MutexGuard<'a, Locked<L, E, A>>,
) -> MutexGuard<'a, Locked<L, E, A>>
    ensures commits { commits_with seat.new ≡ commits_with seat.old }
    ensures number { number_of seat.new ≡ number_of seat.old }
{
    let mut guard = guard;
    for _ in context.rt.forever() {
        if !hands.take(&mut guard, seat) {
            return context.shared.sleep(context.rt, seat, awaits, true, guard);
        }
        context.shared.release(seat, guard);
        hands.work();
        guard = context.shared.lock(context.rt);
        hands.end(&mut guard, seat);
        if guard.is_due(awaits) {
            return guard;
        }
    }
    unreachable!()
}
