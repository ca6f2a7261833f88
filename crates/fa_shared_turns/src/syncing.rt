//! Flushes, begun and waited for.
ghost use Rattle.fa_shared_lock.specs.Accounts.{IsAccounted};
ghost use Rattle.fa_shared_lock.specs.Moves.{Turned};
ghost use Rattle.fa_shared_steps.specs.declared.request.Task.{Task};
ghost use Rattle.fa_shared_steps.specs.declared.stage.Stage.TheVariants.{BeginningFlush, Flushing};

use crate::flushes::{flush_begin, flush_state};
use fa_core_calls::Events;
use fa_machine::Flush;
use fa_shared_lock::{Locked, Seat};
use fa_shared_steps::{Stage, begun, flushed};
use std::alloc::Allocator;
use std::sync::ledger::Ledger;

/// A flush is begun.
pub(crate) fn begin_flush<L: Ledger, E: Events<A>, A: Allocator + Copy>(
    alloc: A,
    locked: &mut Locked<L, E, A>,
    seat: &mut Seat<L>,
) -> Stage<A>
    ensures turned { (t : Task) → Turned t seat.old seat.new locked.old.core BeginningFlush locked.new.core result }
    ensures account { IsAccounted locked.old seat.old locked.new seat.new }
{
    begun(flush_begin(alloc, locked, seat))
}

/// The flush is waited for, until each die that was live when it began has synced or is out.
pub(crate) fn flush<L: Ledger, E: Events<A>, A: Allocator + Copy>(
    alloc: A,
    locked: &mut Locked<L, E, A>,
    seat: &mut Seat<L>,
    asked: Flush,
) -> Stage<A>
    ensures turned { (t : Task) → Turned t seat.old seat.new locked.old.core (Flushing asked) locked.new.core result }
    ensures account { IsAccounted locked.old seat.old locked.new seat.new }
{
    flushed(asked, flush_state(alloc, locked, seat, asked))
}
