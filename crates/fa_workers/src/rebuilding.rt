//! The worker that makes thin pages whole.
use crate::rebuild_events::{Came, turn};
use crate::rebuild_stage::{RebuildStage, ThinPage};
use fa_core_calls::Events;
use fa_shared::Shared;
use fa_shared_lock::Seat;
use fa_shared_sleepers::Awaits;
use fa_tag::Payload;
use fa_types::Page;
use std::alloc::Allocator;
use std::sync::Wait;
use std::sync::ledger::Ledger;
use std::time::Clock;

/// Brings in spares while a die is live, and gives each thin page one more copy, until the array is to end.
///
/// It reads a thin page by a batch of its own, hashes what it read with no lock held, reserves one more copy of the write that it saw
/// before the read, and waits until that copy is current. A batch that is open as the array is to end is ended at once; a copy that is
/// under way is seen through. Where it has nothing to do, or memory is refused, it waits for a change.
pub fn rebuild_worker<R: Wait + Clock, L: Ledger, E: Events<A>, A: Allocator + Copy>(
    rt: &R,
    alloc: A,
    shared: &Shared<L, E, A>,
    seat: &mut Seat<L>,
) {
    let mut stage = RebuildStage::Looking;
    for _ in rt.forever() {
        stage = match make_turns(rt, alloc, shared, seat, stage) {
            RebuildStage::Read(thin, answers) => prepare(thin, answers),
            RebuildStage::Ended => break,
            stage => stage,
        };
    }
}

/// Makes turns until there is a page to be hashed, or the rebuilder has ended. The lock is free while it waits, and behind.
fn make_turns<R: Wait + Clock, L: Ledger, E: Events<A>, A: Allocator + Copy>(
    rt: &R,
    alloc: A,
    shared: &Shared<L, E, A>,
    seat: &mut Seat<L>,
    stage: RebuildStage<A>,
) -> RebuildStage<A> {
    let mut guard = shared.lock(rt);
    let mut stage = stage;
    for _ in rt.forever() {
        let turned = turn(alloc, &mut guard, seat, stage);
        stage = turned.stage;
        match turned.came {
            Came::Told => guard.note_change(),
            Came::More => {}
            Came::Wait => {
                let awaits = awaits_of(&stage);
                guard = shared.sleep(rt, seat, awaits, false, guard);
            }
        }
        if matches!(stage, RebuildStage::Read(..) | RebuildStage::Ended) {
            break;
        }
    }
    shared.release(seat, guard);
    stage
}

/// What the rebuilder waits for, where it is so far.
fn awaits_of<A: Allocator>(stage: &RebuildStage<A>) -> Awaits {
    match stage {
        RebuildStage::Reading(_, batch) => Awaits::Batch(*batch),
        RebuildStage::Looking | RebuildStage::Pausing => Awaits::ThinPage,
        _ => Awaits::Change,
    }
}

/// Hashes the page that was read. Out of memory, the rebuilder waits for a change.
fn prepare<A: Allocator + Copy>(
    thin: ThinPage,
    answers: Vec<(Page, Vec<u8, A>), A>,
) -> RebuildStage<A> {
    let mut answers = answers;
    let Some((_, bytes)) = answers.pop() else {
        return RebuildStage::Pausing;
    };
    match Payload::new(bytes) {
        Ok(payload) => RebuildStage::Reserving(thin, payload),
        Err(_) => RebuildStage::Pausing,
    }
}
