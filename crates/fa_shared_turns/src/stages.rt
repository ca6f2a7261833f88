//! A turn at each stage.
ghost use Rattle.fa_shared_lock.specs.Accounts.{IsAccounted};
ghost use Rattle.fa_shared_lock.specs.Moves.{Turned};
ghost use Rattle.fa_shared_steps.specs.Ranges.{IsRange};

use crate::reading::{ask, leave, read};
use crate::syncing::{begin_flush, flush};
use crate::writing::{abandon_wish, claim_page, commit_wish, release_page, reserve_wish};
use fa_core_calls::Events;
use fa_shared_lock::{Locked, Seat};
use fa_shared_steps::{Stage, Task};
use std::alloc::Allocator;
use std::sync::ledger::Ledger;

/// A turn of a request that is so far.
pub(crate) fn turn_stage<L: Ledger, E: Events<A>, A: Allocator + Copy>(
    alloc: A,
    locked: &mut Locked<L, E, A>,
    seat: &mut Seat<L>,
    task: Task,
    stage: Stage<A>,
) -> Stage<A>
    requires { IsRange task.range }
    ensures turned { Turned task seat.old seat.new locked.old.core stage locked.new.core result }
    ensures account { IsAccounted locked.old seat.old locked.new seat.new }
{
    match stage {
        Stage::Asking(purpose, pages) => ask(locked, seat, purpose, pages),
        Stage::Reading(purpose, batch) => read(alloc, locked, seat, purpose, batch),
        Stage::Leaving(purpose, batch, fault) => leave(alloc, locked, seat, purpose, batch, fault),
        Stage::Claiming(page) => claim_page(alloc, locked, seat, task, page),
        Stage::Reserving(held, wish) => reserve_wish(alloc, locked, seat, held, wish),
        Stage::Committing(held, wish) => commit_wish(alloc, locked, seat, held, wish),
        Stage::Abandoning(held, wish) => abandon_wish(alloc, locked, seat, held, wish),
        Stage::Releasing(held, fault) => release_page(alloc, locked, seat, task, held, fault),
        Stage::BeginningFlush => begin_flush(alloc, locked, seat),
        Stage::Flushing(asked) => flush(alloc, locked, seat, asked),
        stage => stage,
    }
}
