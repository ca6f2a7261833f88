//! Whole calls: what is for dies before a request, the request, and what the array wants behind it.
ghost use Rattle.std.specs.Prelude.{◌≡◌, ◌+◌, ◌^◌, ◌≤◌, [], length, is_ok, true, false, IfOk, IfErr, OnOk};
ghost use Rattle.fa_shared_request.specs.Counts.{IsMade};
ghost use Rattle.fa_shared_request.specs.Tallies.{pages_in};
ghost use Rattle.fa_shared_steps.specs.Tasks.{end_of, task_of};
ghost use Rattle.fa_shared_steps.specs.declared.request.Request.TheVariants.{Flush, Read};
ghost use Rattle.fa_solo.specs.Calls.{IsOfFlush, MakesRequest, MakesWhole, answer_by};
ghost use Rattle.fa_solo_job.specs.Inner.{Tidies, house_of};
ghost use Rattle.fa_shared_lock.specs.Seats.{number_of};
ghost use Rattle.fa_solo_job.specs.Orders.{IsDone};
ghost use Rattle.fa_types.specs.Store.{Done, Gave, Refused};
ghost use Rattle.fa_types.specs.declared.blocks.BlockFault.TheVariants.{NoMemory, NoRoom};

use crate::jobs::bring_in;
use crate::rebuilding::tidy;
use crate::requests::{run, run_read};
use fa_core_calls::Events;
use fa_image::Image;
use fa_shared_steps::Request;
use fa_solo_job::Inner;
use fa_types::BlockFault;
use std::alloc::Allocator;
use std::sync::ledger::Ledger;

/// A call that answers no bytes. Behind it all is done that the array wants, save where there was no room.
pub(crate) fn call<L: Ledger, E: Events<A>, I: Image, A: Allocator + Copy>(
    inner: &mut Inner<L, E, I, A>,
    page_bytes: u32,
    request: Request,
    bytes: &[u8],
) -> Result<(), BlockFault>
    requires some { 1 ≤ page_bytes }
    requires small { page_bytes ≤ 4096 }
    requires inside { end_of request ≤ 2 ^ 32 }
    ensures made { IsMade (pages_in (task_of page_bytes request)) inner.old.seat (is_ok result) inner.new.seat }
    ensures done { OnOk result (MakesWhole I.made (task_of page_bytes request) bytes.now Done inner.old inner.new) }
    ensures refused { IfErr result (λ fault. MakesWhole I.made (task_of page_bytes request) bytes.now (Refused fault) inner.old inner.new) }
{
    bring_in(inner);
    let answer = run(inner, page_bytes, request, bytes);
    let is_full = has_no_room(answer);
    tidy_unless(inner, is_full);
    answer
}

/// A read. Behind it all is done that the array wants.
pub(crate) fn call_read<L: Ledger, E: Events<A>, I: Image, A: Allocator + Copy, B: Allocator>(
    inner: &mut Inner<L, E, I, A>,
    page_bytes: u32,
    offset: u64,
    len: u64,
    into: B,
) -> Result<Vec<u8, B>, BlockFault>
    requires some { 1 ≤ page_bytes }
    requires small { page_bytes ≤ 4096 }
    requires inside { offset + len ≤ 2 ^ 32 }
    ensures length { IfOk result (λ answer. length answer.items ≡ len) }
    ensures room { IfErr result (λ fault. fault ≡ NoRoom → ⊥) }
    ensures made { IsMade 0 inner.old.seat (is_ok result) inner.new.seat }
    ensures gave { IfOk result (λ answer. MakesWhole I.made (task_of page_bytes (Read offset len)) [] (Gave answer.items) inner.old
        inner.new) }
    ensures refused { IfErr result (λ fault. MakesWhole I.made (task_of page_bytes (Read offset len)) [] (Refused fault) inner.old
        inner.new) }
{
    bring_in(inner);
    let answer = run_read(inner, page_bytes, offset, len, into);
    tidy(inner);
    answer
}

/// A flush. Behind it all is done that the array wants. It is never refused for want of room or memory.
pub(crate) fn call_flush<L: Ledger, E: Events<A>, I: Image, A: Allocator + Copy>(
    inner: &mut Inner<L, E, I, A>,
    page_bytes: u32,
) -> Result<(), BlockFault>
    requires some { 1 ≤ page_bytes }
    requires small { page_bytes ≤ 4096 }
    ensures room { IfErr result (λ fault. (fault ≡ NoRoom → ⊥) × (fault ≡ NoMemory → ⊥)) }
    ensures made { IsMade 0 inner.old.seat (is_ok result) inner.new.seat }
    ensures done { OnOk result (MakesWhole I.made (task_of page_bytes Flush) [] Done inner.old inner.new) }
    ensures refused { IfErr result (λ fault. MakesWhole I.made (task_of page_bytes Flush) [] (Refused fault) inner.old inner.new) }
{
    bring_in(inner);
    let answer = run_flush(inner, page_bytes);
    tidy(inner);
    answer
}

/// The request of a flush. It is never refused for want of room or memory.
fn run_flush<L: Ledger, E: Events<A>, I: Image, A: Allocator + Copy>(
    inner: &mut Inner<L, E, I, A>,
    page_bytes: u32,
) -> Result<(), BlockFault>
    requires some { 1 ≤ page_bytes }
    requires small { page_bytes ≤ 4096 }
    ensures room { IfErr result (λ fault. (fault ≡ NoRoom → ⊥) × (fault ≡ NoMemory → ⊥)) }
    ensures made { IsMade 0 inner.old.seat (is_ok result) inner.new.seat }
    ensures request { MakesRequest I.made (task_of page_bytes Flush) [] (answer_by result) inner.old inner.new }
{
    match run(inner, page_bytes, Request::Flush, &[]) {
        Ok(()) => Ok(()),
        Err(fault) => Err(of_flush(fault)),
    }
}

/// Why a flush is refused that ended so. No flush wants room or memory.
fn of_flush(fault: BlockFault) -> BlockFault
    ensures { IsOfFlush fault result }
{
    match fault {
        BlockFault::NoRoom => BlockFault::Lost,
        BlockFault::NoMemory => BlockFault::Lost,
        fault => fault,
    }
}

/// Whether there was no room.
fn has_no_room(answer: Result<(), BlockFault>) -> bool
    ensures full { answer_by answer ≡ Refused NoRoom → result ≡ true }
    ensures other { (answer_by answer ≡ Refused NoRoom → ⊥) → result ≡ false }
{
    match answer {
        Ok(()) => false,
        Err(fault) => fault == BlockFault::NoRoom,
    }
}

/// Does what the array wants, unless there was no room.
fn tidy_unless<L: Ledger, E: Events<A>, I: Image, A: Allocator + Copy>(
    inner: &mut Inner<L, E, I, A>,
    is_full: bool,
)
    ensures tidies { (tidies : Tidies I.made inner.old inner.new)
        × (is_full ≡ false → IsDone I.made inner.old.locked.number inner.old.dies.items
        (number_of inner.old.seat) (house_of inner.old) (house_of inner.new) tidies.orders) }
    ensures full { is_full ≡ true → inner.new ≡ inner.old }
{
    if is_full {
        return;
    }
    tidy(inner);
}
