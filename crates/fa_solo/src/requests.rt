//! Requests, from their beginning to their end.
ghost use Rattle.std.specs.Prelude.{◌≡◌, ◌+◌, ◌-◌, ◌^◌, ◌≤◌, ℕ, IsTrue, List, [], length, is_ok, true, false, IfOk, IfErr, IfSome, Some};
ghost use Rattle.std.specs.Prelude.{None};
ghost use Rattle.fa_shared_request.specs.Counts.{IsMade};
ghost use Rattle.fa_machine.specs.Reading.{is_late as rule_late};
ghost use Rattle.fa_shared_request.specs.Ops.{answer_of, ended, stage_of, task_in};
ghost use Rattle.fa_shared_request.specs.Tallies.{pages_in};
ghost use Rattle.fa_shared_steps.specs.Tasks.{end_of, task_of};
ghost use Rattle.fa_shared_request.specs.Waiting.{HasNoWindow, awaits_flush, waits};
ghost use Rattle.fa_shared_steps.specs.declared.request.Request.TheVariants.{Read};
ghost use Rattle.fa_solo.specs.Calls.{IsOfRead, MakesRequest, answer_by};
ghost use Rattle.fa_solo_job.specs.Deeds.{IsForDies, IsMeanwhile};
ghost use Rattle.fa_solo_job.specs.Inner.{Does};
ghost use Rattle.fa_solo.specs.Turns.{RunsOn};
ghost use Rattle.fa_types.specs.Store.{Gave, Refused};
ghost use Rattle.fa_types.specs.declared.blocks.BlockFault.TheVariants.{Lost, NoMemory, NoRoom, Spent};

use crate::collecting::{Windows, give_windows};
use crate::jobs::{bring_in, work, work_for};
use fa_core_calls::{Events, Looks};
use fa_image::Image;
use fa_machine::{BatchId, WindowRefused};
use fa_shared_request::Op;
use fa_shared_sleepers::Awaits;
use fa_shared_steps::Request;
use fa_shared_turns::Turn;
use fa_solo_job::Inner;
use fa_types::BlockFault;
use std::alloc::Allocator;
use std::sync::ledger::Ledger;

/// The last round in which something is planned.
const LAST_ROUND: u64 = (1 << 56) - (1 << 24);

/// A request that answers no bytes.
pub(crate) fn run<L: Ledger, E: Events<A>, I: Image, A: Allocator + Copy>(
    inner: &mut Inner<L, E, I, A>,
    page_bytes: u32,
    request: Request,
    bytes: &[u8],
) -> Result<(), BlockFault>
    requires some { 1 ≤ page_bytes }
    requires small { page_bytes ≤ 4096 }
    requires inside { end_of request ≤ 2 ^ 32 }
    ensures made { IsMade (pages_in (task_of page_bytes request)) inner.old.seat (is_ok result) inner.new.seat }
    ensures request { MakesRequest I.made (task_of page_bytes request) bytes.now (answer_by result) inner.old inner.new }
{
    let mut op = match Op::new(inner.alloc, inner.alloc, request, u64::from(page_bytes)) {
        Ok(op) => op,
        Err(_) => return Err(BlockFault::NoMemory),
    };
    match finish(inner, &mut op, bytes) {
        Some(None) => Ok(()),
        Some(Some(fault)) => Err(fault),
        None => Err(BlockFault::Lost),
    }
}

/// A read. It is never refused for want of room.
pub(crate) fn run_read<L: Ledger, E: Events<A>, I: Image, A: Allocator + Copy, B: Allocator>(
    inner: &mut Inner<L, E, I, A>,
    page_bytes: u32,
    offset: u64,
    len: u64,
    into: B,
) -> Result<Vec<u8, B>, BlockFault>
    requires some { 1 ≤ page_bytes }
    requires small { page_bytes ≤ 4096 }
    requires inside { offset + len ≤ 2 ^ 32 }
    ensures length { IfOk result (λ answer. length answer.items ≡ len) }
    ensures room { IfErr result (λ fault. fault ≡ NoRoom → ⊥) }
    ensures made { IsMade 0 inner.old.seat (is_ok result) inner.new.seat }
    ensures gave { IfOk result (λ answer. MakesRequest I.made (task_of page_bytes (Read offset len)) [] (Gave answer.items) inner.old
        inner.new) }
    ensures refused { IfErr result (λ fault. MakesRequest I.made (task_of page_bytes (Read offset len)) [] (Refused fault) inner.old
        inner.new) }
{
    let request = Request::Read { offset, len };
    let mut op = match Op::new(inner.alloc, into, request, u64::from(page_bytes)) {
        Ok(op) => op,
        Err(_) => return Err(BlockFault::NoMemory),
    };
    match finish(inner, &mut op, &[]) {
        Some(None) => handed_out(op, len),
        Some(Some(fault)) => Err(of_read(fault)),
        None => Err(BlockFault::Lost),
    }
}

/// The answer of a read, if it has so many bytes.
fn handed_out<A: Allocator + Copy, B: Allocator>(
    op: Op<A, B>,
    len: u64,
) -> Result<Vec<u8, B>, BlockFault>
    ensures length { IfOk result (λ answer. length answer.items ≡ len) }
    ensures answer { IfOk result (λ answer. answer.items ≡ answer_of op) }
    ensures refused { IfErr result (λ fault. (fault ≡ Lost) × (length (answer_of op) ≡ len → ⊥)) }
{
    let answer = op.into_answer();
    if answer.len() as u64 != len {
        return Err(BlockFault::Lost);
    }
    Ok(answer)
}

/// Why a read is refused that ended so. No read wants room.
fn of_read(fault: BlockFault) -> BlockFault
    ensures { IsOfRead fault result }
{
    match fault {
        BlockFault::NoRoom => BlockFault::Lost,
        fault => fault,
    }
}

/// Goes on with a request until it has ended, and tells how. None where it has not ended within 2^64 - 1 turns.
fn finish<L: Ledger, E: Events<A>, I: Image, A: Allocator + Copy, B: Allocator>(
    inner: &mut Inner<L, E, I, A>,
    op: &mut Op<A, B>,
    bytes: &[u8],
) -> Option<Option<BlockFault>>
    ensures runs { (runs : RunsOn I.made bytes.now inner.old op.old inner.new op.new) × (result ≡ None → 2 ^ 64 - 1 ≤ runs.turns) }
    ensures ended { IfSome result (λ end. ended (stage_of op.new) ≡ Some end) }
{
    for turns in 0..u64::MAX {
        if let Some(end) = op.ended() {
            return Some(end);
        }
        op.prepare(bytes);
        step(inner, op);
    }
    None
}

/// A turn of a request. Where it comes to waiting, what there is to be done for dies is made.
fn step<L: Ledger, E: Events<A>, I: Image, A: Allocator + Copy, B: Allocator>(
    inner: &mut Inner<L, E, I, A>,
    op: &mut Op<A, B>,
)
    ensures { (bytes : List ℕ) → (runs : RunsOn I.made bytes inner.old op.old inner.new op.new) × (1 ≤ runs.turns) }
{
    wait_for_home(inner, op);
    let came = turn(inner, op);
    if came == Turn::Wait {
        pass_time(inner, op);
    }
}

/// Has dies collected that have no room, where the request is about to reserve and its page's copies belong on such a die. Where that gives
/// none the request reserves at once.
fn wait_for_home<L: Ledger, E: Events<A>, I: Image, A: Allocator + Copy, B: Allocator>(
    inner: &mut Inner<L, E, I, A>,
    op: &Op<A, B>,
)
    ensures { (bytes : List ℕ) → RunsOn I.made bytes inner.old op.now inner.new op.now }
{
    if !op.may_wait() {
        return;
    }
    if op.awaits_flush() {
        return;
    }
    collect_home(inner, op);
}

/// The same for a request that may have to wait.
fn collect_home<L: Ledger, E: Events<A>, I: Image, A: Allocator + Copy, B: Allocator>(
    inner: &mut Inner<L, E, I, A>,
    op: &Op<A, B>,
)
    ensures { Does I.made (IsMeanwhile false) inner.old inner.new }
{
    for looks in 0..u64::MAX {
        if !op.lacks_home(&inner.locked) {
            return;
        }
        if !collect_more(inner, op) {
            return;
        }
    }
}

/// Gives windows to dies without room, and makes what there is to be done then. Whether a die may get room that the request waits for.
fn collect_more<L: Ledger, E: Events<A>, I: Image, A: Allocator + Copy, B: Allocator>(
    inner: &mut Inner<L, E, I, A>,
    op: &Op<A, B>,
) -> bool
    ensures { Does I.made (IsMeanwhile false) inner.old inner.new }
{
    let windows = give_windows(inner, true);
    let seat = inner.seat.number();
    if matches!(windows, Windows::Refused(_)) || !op.may_wait_for_home(&inner.locked, seat) {
        return false;
    }
    work_at_once(inner, None)
}

/// A turn of a request. What its last batch handed out is given back first.
fn turn<L: Ledger, E: Events<A>, I: Image, A: Allocator + Copy, B: Allocator>(
    inner: &mut Inner<L, E, I, A>,
    op: &mut Op<A, B>,
) -> Turn
    ensures { (bytes : List ℕ) → (runs : RunsOn I.made bytes inner.old op.old inner.new op.new) × (1 ≤ runs.turns) }
{
    op.give_back(&mut inner.locked);
    fa_shared_turns::make_turn(op, &mut inner.locked, &mut inner.seat)
}

/// Makes what there is to be done for dies, where the request may have to wait. Where there is nothing, and it wants room, dies without
/// room are collected.
fn pass_time<L: Ledger, E: Events<A>, I: Image, A: Allocator + Copy, B: Allocator>(
    inner: &mut Inner<L, E, I, A>,
    op: &mut Op<A, B>,
)
    ensures { (bytes : List ℕ) → RunsOn I.made bytes inner.old op.old inner.new op.new }
{
    if !op.may_wait() {
        return;
    }
    if op.awaits_flush() {
        work(inner, None);
        return;
    }
    let batch = batch_of(op, inner);
    if work_at_once(inner, batch) {
        return;
    }
    if op.wants_room() {
        collect_for(inner, op);
    }
}

/// The batch that a request waits for, if it waits for one.
fn batch_of<L: Ledger, E: Events<A>, I: Image, A: Allocator + Copy, B: Allocator>(
    op: &Op<A, B>,
    inner: &Inner<L, E, I, A>,
) -> Option<BatchId> {
    match op.awaits(&inner.locked, inner.seat.number()) {
        Awaits::Batch(batch) => Some(batch),
        _ => None,
    }
}

/// Makes what there is to be done for dies. Behind jobs a spare is brought in, where one is wanted. Whether anything was done.
fn work_at_once<L: Ledger, E: Events<A>, I: Image, A: Allocator + Copy>(
    inner: &mut Inner<L, E, I, A>,
    batch: Option<BatchId>,
) -> bool
    ensures { Does I.made (IsMeanwhile false) inner.old inner.new }
{
    let worked = work_for(inner, batch);
    bring_in(inner);
    worked
}

/// Gives windows to dies without room, for a request that wants some. Where that is refused, so is the request.
fn collect_for<L: Ledger, E: Events<A>, I: Image, A: Allocator + Copy, B: Allocator>(
    inner: &mut Inner<L, E, I, A>,
    op: &mut Op<A, B>,
)
    requires waits { waits (stage_of op.old) ≡ true }
    requires flush { awaits_flush (stage_of op.old) ≡ false }
    ensures { (bytes : List ℕ) → RunsOn I.made bytes inner.old op.old inner.new op.new }
{
    if let Some(fault) = give_room(inner) {
        op.refuse_room(fault);
    }
}

/// Gives windows to dies without room. Why a request is refused that waits for room, if none was given.
fn give_room<L: Ledger, E: Events<A>, I: Image, A: Allocator + Copy>(
    inner: &mut Inner<L, E, I, A>,
) -> Option<BlockFault>
    ensures does { Does I.made IsForDies inner.old inner.new }
    ensures cause { IfSome result (λ fault. HasNoWindow inner.new.locked.core fault) }
{
    match give_windows(inner, true) {
        Windows::Refused(WindowRefused::NoMemory) => Some(BlockFault::NoMemory),
        Windows::Refused(_) => {
            if is_late(inner.locked.array()) {
                Some(BlockFault::Spent)
            } else {
                None
            }
        }
        Windows::Given | Windows::Unwanted => None,
    }
}

/// Whether so few rounds are left that no window is given.
fn is_late<E: Looks>(array: &E) -> bool
    ensures { result ≡ rule_late (E.core array.now).calendar }
{
    LAST_ROUND < array.now().0
}
