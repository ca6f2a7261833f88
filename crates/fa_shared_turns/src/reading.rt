//! Batches of pages, asked for, waited for and ended.
ghost use Rattle.std.specs.Prelude.{◌≡◌};
ghost use Rattle.fa_machine.specs.Reading.{results as rule_results};
ghost use Rattle.fa_shared_lock.specs.Accounts.{IsAccounted};
ghost use Rattle.fa_shared_lock.specs.Moves.{Turned};
ghost use Rattle.fa_shared_steps.specs.Stages.{AfterAdmit, AfterPlanned};
ghost use Rattle.fa_core_calls.specs.Answers.{admit_answer, plan_answer};
ghost use Rattle.fa_shared_steps.specs.declared.request.Task.{Task};
ghost use Rattle.fa_shared_steps.specs.declared.stage.Stage.TheVariants.{Asking, Leaving, Reading};

use crate::batches::{admit, end_batch, replan};
use fa_core_calls::{Admitted, Events};
use fa_machine::{AdmitRefused, BatchId, ReadState};
use fa_plan::Planned;
use fa_shared_lock::{Locked, Seat};
use fa_shared_steps::{PageList, Purpose, Stage, stopped};
use fa_types::BlockFault;
use std::alloc::Allocator;
use std::sync::ledger::Ledger;

/// A batch of the pages is admitted.
pub(crate) fn ask<L: Ledger, E: Events<A>, A: Allocator + Copy>(
    locked: &mut Locked<L, E, A>,
    seat: &mut Seat<L>,
    purpose: Purpose,
    pages: PageList<A>,
) -> Stage<A>
    ensures turned { (t : Task) → Turned t seat.old seat.new locked.old.core (Asking purpose pages) locked.new.core result }
    ensures account { IsAccounted locked.old seat.old locked.new seat.new }
{
    let waits = locked.array().copy_open();
    match admit(locked, seat, pages.as_slice()) {
        None => stopped(purpose, BlockFault::Lost),
        Some(answer) => asked(locked, purpose, pages, answer, waits),
    }
}

/// What the request does behind its Admit. A page that is lost is waited for, if it is to be. The plan goes back to the array.
fn asked<L: Ledger, E: Events<A>, A: Allocator + Copy>(
    locked: &mut Locked<L, E, A>,
    purpose: Purpose,
    pages: PageList<A>,
    answer: Result<Admitted<A>, AdmitRefused>,
    waits: bool,
) -> Stage<A>
    ensures next { AfterAdmit purpose (Asking purpose pages) (admit_answer answer) result }
    ensures locked { locked.new ≡ locked.old }
{
    match answer {
        Ok(Admitted { batch, planned }) => {
            locked.give_back_plan(planned);
            Stage::Reading(purpose, batch)
        }
        Err(AdmitRefused::Lost(_)) => {
            if waits {
                Stage::Asking(purpose, pages)
            } else {
                stopped(purpose, BlockFault::Lost)
            }
        }
        Err(AdmitRefused::CalendarFull) => Stage::Asking(purpose, pages),
        Err(AdmitRefused::Spent) => stopped(purpose, BlockFault::Spent),
        Err(AdmitRefused::NoMemory) => stopped(purpose, BlockFault::NoMemory),
    }
}

/// The batch goes on as it stands: it is waited for, or planned anew, or ended.
pub(crate) fn read<L: Ledger, E: Events<A>, A: Allocator + Copy>(
    alloc: A,
    locked: &mut Locked<L, E, A>,
    seat: &mut Seat<L>,
    purpose: Purpose,
    batch: BatchId,
) -> Stage<A>
    ensures turned { (t : Task) → Turned t seat.old seat.new locked.old.core (Reading purpose batch) locked.new.core result }
    ensures account { IsAccounted locked.old seat.old locked.new seat.new }
{
    match locked.array().results(batch) {
        ReadState::Waiting => Stage::Reading(purpose, batch),
        ReadState::Ready => end(alloc, locked, seat, purpose, batch),
        ReadState::Torn => plan_anew(alloc, locked, seat, purpose, batch),
    }
}

/// The batch, which is ready, is ended, and its answers are to be sorted.
fn end<L: Ledger, E: Events<A>, A: Allocator + Copy>(
    alloc: A,
    locked: &mut Locked<L, E, A>,
    seat: &mut Seat<L>,
    purpose: Purpose,
    batch: BatchId,
) -> Stage<A>
    requires { rule_results locked.old.core batch.0 ≡ ReadState.Ready }
    ensures turned { (t : Task) → Turned t seat.old seat.new locked.old.core (Reading purpose batch) locked.new.core result }
    ensures account { IsAccounted locked.old seat.old locked.new seat.new }
{
    match end_batch(alloc, locked, seat, batch) {
        Some(answers) => Stage::Sorting(purpose, answers),
        None => stopped(purpose, BlockFault::Lost),
    }
}

/// What is left of the batch, which is torn, is planned anew.
fn plan_anew<L: Ledger, E: Events<A>, A: Allocator + Copy>(
    alloc: A,
    locked: &mut Locked<L, E, A>,
    seat: &mut Seat<L>,
    purpose: Purpose,
    batch: BatchId,
) -> Stage<A>
    requires { rule_results locked.old.core batch.0 ≡ ReadState.Torn }
    ensures turned { (t : Task) → Turned t seat.old seat.new locked.old.core (Reading purpose batch) locked.new.core result }
    ensures account { IsAccounted locked.old seat.old locked.new seat.new }
{
    let waits = locked.array().copy_open();
    match replan(alloc, locked, seat, batch) {
        None => stopped(purpose, BlockFault::Lost),
        Some(answer) => planned_anew(locked, purpose, batch, answer, waits),
    }
}

/// What the request does behind its Replan. A page that is lost is waited for, if it is to be. The plan goes back to the array.
fn planned_anew<L: Ledger, E: Events<A>, A: Allocator + Copy>(
    locked: &mut Locked<L, E, A>,
    purpose: Purpose,
    batch: BatchId,
    answer: Result<Planned<A>, AdmitRefused>,
    waits: bool,
) -> Stage<A>
    ensures next { AfterPlanned (Reading purpose batch) (Reading purpose batch) (Leaving purpose batch) (plan_answer answer) result }
    ensures locked { locked.new ≡ locked.old }
{
    match answer {
        Ok(planned) => {
            locked.give_back_plan(planned);
            Stage::Reading(purpose, batch)
        }
        Err(AdmitRefused::Lost(_)) => {
            if waits {
                Stage::Reading(purpose, batch)
            } else {
                Stage::Leaving(purpose, batch, BlockFault::Lost)
            }
        }
        Err(AdmitRefused::CalendarFull) => Stage::Reading(purpose, batch),
        Err(AdmitRefused::Spent) => Stage::Leaving(purpose, batch, BlockFault::Spent),
        Err(AdmitRefused::NoMemory) => Stage::Leaving(purpose, batch, BlockFault::NoMemory),
    }
}

/// The batch is ended, whatever it answers.
pub(crate) fn leave<L: Ledger, E: Events<A>, A: Allocator + Copy>(
    alloc: A,
    locked: &mut Locked<L, E, A>,
    seat: &mut Seat<L>,
    purpose: Purpose,
    batch: BatchId,
    fault: BlockFault,
) -> Stage<A>
    ensures turned { (t : Task) → Turned t seat.old seat.new locked.old.core (Leaving purpose batch fault) locked.new.core result }
    ensures account { IsAccounted locked.old seat.old locked.new seat.new }
{
    let _answers = end_batch(alloc, locked, seat, batch);
    stopped(purpose, fault)
}
