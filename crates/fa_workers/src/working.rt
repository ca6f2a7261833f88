//! The worker of a die.
use crate::collecting::give_next_window;
use crate::die_events::{Ended, Next, end_job, turn};
use fa_core_calls::{Events, Looks};
use fa_core_outcome::Outcome;
use fa_image::Image;
use fa_jobs::Gate;
use fa_shared::Shared;
use fa_shared_lock::Seat;
use fa_shared_sleepers::Awaits;
use fa_types::Die;
use fa_workers_making::{
    Bench, ImageTable, JobMemory, Lain, MadeJob, OpenedMove, Order, open_alone, open_read,
};
use std::alloc::{Allocator, Global};
use std::mem::replace;
use std::sync::Wait;
use std::sync::ledger::Ledger;
use std::time::Clock;

/// How many turns of a die are made at most behind the first one in the hold that ends a job: one that begins a window, and one in it.
const MORE_TURNS: u32 = 2;

/// What a die's worker has behind a job.
#[derive(Drop)]
struct Behind<A: Allocator = Global> {
    buffer: Vec<u8, A>,
    next: Option<Order<A>>,
}

/// Works for a die until the array is to end and the die has nothing to do.
///
/// It takes the die's jobs one by one, makes the calls of each on the image with the array's lock free, and ends it: the end of a job and
/// the Take of the next are made in one hold of the lock. Where the die has no job it lets the round pass, if it may. Others may take the
/// die's jobs too: what they have not begun, or have made and not ended, is on the bench, and the worker makes or ends it. Else it waits.
/// It notes why the die went out, if it did; the worker of a die that is out, or of a spare, waits.
///
/// An image of another geometry than the array's refuses each job. A memory that was made for pages of another size ends no job.
pub fn die_worker<
    R: Wait + Clock,
    L: Ledger,
    E: Events<A>,
    A: Allocator + Copy,
    I: Image + Drop,
    G: Gate,
>(
    rt: &R,
    alloc: A,
    shared: &Shared<L, E, A>,
    seat: &mut Seat<L>,
    die: Die,
    image_table: &ImageTable<I, A>,
    memory: JobMemory<A>,
    window_rounds: u64,
    gate: &G,
) {
    let mut memory = memory;
    let mut next = None;
    for _ in rt.forever() {
        let bench = image_table.bench();
        let Some(lain) = next_job(rt, alloc, shared, seat, die, bench, &mut memory, next) else {
            break;
        };
        let outcome = match lain {
            Lain::Waiting(order) => image_table.run(rt, &order, &mut memory, gate),
            Lain::SlotRead(task) => end_begun(rt, image_table, open_alone(task), gate),
            Lain::Opened(opened) => end_begun(rt, image_table, opened, gate),
            Lain::Made(outcome) => open_read(&mut memory, outcome, None, 0),
        };
        let buffer = replace(&mut memory.buffer, Vec::new(alloc));
        let behind = finish(rt, alloc, shared, seat, die, window_rounds, outcome, buffer);
        memory.buffer = behind.buffer;
        next = behind.next;
    }
}

/// Goes on with a move that somebody else has begun, and gives the memory back that it was begun in. How it has ended.
fn end_begun<R: Wait, A: Allocator, I: Image + Drop, G: Gate>(
    rt: &R,
    image_table: &ImageTable<I, A>,
    opened: OpenedMove<A>,
    gate: &G,
) -> Outcome {
    let MadeJob {
        die,
        outcome,
        memory,
    } = image_table.end_move(rt, opened, gate);
    image_table.bench().give_back(rt, die, memory);
    outcome
}

/// The job that was taken already, or the next one, which is waited for. None where there is none and the array is to end.
fn next_job<R: Wait + Clock, L: Ledger, E: Events<A>, A: Allocator + Copy>(
    rt: &R,
    alloc: A,
    shared: &Shared<L, E, A>,
    seat: &mut Seat<L>,
    die: Die,
    bench: &Bench<A>,
    memory: &mut JobMemory<A>,
    taken: Option<Order<A>>,
) -> Option<Lain<A>> {
    match taken {
        Some(order) => Some(Lain::Waiting(order)),
        None => wait_for_job(rt, alloc, shared, seat, die, bench, memory),
    }
}

/// Waits for the die's next job, or for one that lies on the bench. None where there is none and the array is to end.
fn wait_for_job<R: Wait + Clock, L: Ledger, E: Events<A>, A: Allocator + Copy>(
    rt: &R,
    alloc: A,
    shared: &Shared<L, E, A>,
    seat: &mut Seat<L>,
    die: Die,
    bench: &Bench<A>,
    memory: &mut JobMemory<A>,
) -> Option<Lain<A>> {
    let mut guard = shared.lock(rt);
    for _ in rt.forever() {
        match turn(alloc, &mut guard, seat, die) {
            Next::Run(order) => {
                shared.release(seat, guard);
                return Some(Lain::Waiting(order));
            }
            Next::Again => guard.note_change(),
            Next::Rest => {
                let lain = bench.lift(rt, die, memory);
                if lain.is_some() || guard.is_stopping() {
                    shared.release(seat, guard);
                    return lain;
                }
                guard = shared.sleep(rt, seat, Awaits::Job(die), false, guard);
            }
        }
    }
    unreachable!()
}

/// Ends a job and makes the die's next turn, and more where the round has risen, in one hold. Where a window of the die has ended and it
/// wants another one, it has that at once, unless the array is to end. Behind the hold it notes why the die went out, if it did.
fn finish<R: Wait, L: Ledger, E: Events<A>, A: Allocator + Copy>(
    rt: &R,
    alloc: A,
    shared: &Shared<L, E, A>,
    seat: &mut Seat<L>,
    die: Die,
    window_rounds: u64,
    outcome: Outcome,
    buffer: Vec<u8, A>,
) -> Behind<A> {
    let mut guard = shared.lock(rt);
    let Ended { buffer, fault } = end_job(alloc, &mut guard, seat, die, outcome, buffer);
    let had_window = guard.array().has_window(die);
    let mut turned = turn(alloc, &mut guard, seat, die);
    for _ in 0..MORE_TURNS {
        if !matches!(turned, Next::Again) {
            break;
        }
        if had_window && !guard.is_stopping() {
            give_next_window(alloc, &mut guard, seat, die, window_rounds);
        }
        turned = turn(alloc, &mut guard, seat, die);
    }
    shared.release(seat, guard);
    if let Some(fault) = fault {
        shared.note_fault(rt, fault);
    }
    let next = match turned {
        Next::Run(order) => Some(order),
        Next::Again | Next::Rest => None,
    };
    Behind { buffer, next }
}
