//! Those who work for dies while they wait for something else.
ghost use Rattle.std.specs.Prelude.{◌≡◌, ◌∷◌, ◌++◌, [], ◌<◌, length, map, vec_capacity};
ghost use Rattle.fa_shared_lock.specs.Only.{EndsJob, IsPart, TakesJobs, dies_told};
ghost use Rattle.fa_shared_lock.specs.Seats.{number_of};
ghost use Rattle.fa_shared_lock.specs.Rest.{LeavesRest};
ghost use Rattle.fa_workers.specs.Held.{AddsPart, numbers_of, told_of};

use crate::die_events::{Ended, end_job, take_job};
use fa_core_calls::{Events, Looks};
use fa_faults::Fault;
use fa_image::Image;
use fa_jobs::Gate;
use fa_machine::JobKind;
use fa_shared::Shared;
use fa_shared_lock::{Hands, Locked, Seat};
use fa_types::Die;
use fa_workers_making::{
    Bench, ImageTable, JobMemory, MAX_JOBS, MadeJob, Task, begin_jobs, go_on_with_moves, open_reads,
};
use std::alloc::{AllocError, Allocator, Global};
use std::mem::replace;
use std::sync::Wait;
use std::sync::ledger::Ledger;
use std::time::{Clock, Duration, Instant};

/// How long the calls of a job take at most, in microseconds, that are said to take little time.
const QUICK_MICROSECONDS: u64 = 50;

/// Memory for what somebody who helps has taken and made. It is made before the helper's thread is started.
#[derive(Drop)]
pub struct HelperMemory<A: Allocator = Global> {
    // The dies whose jobs were taken.
    dies: Vec<Die, A>,
    // The moves whose slots were read, while these are opened.
    moves: Vec<Task<A>, A>,
    // The jobs that were made.
    made: Vec<MadeJob<A>, A>,
    faults: Vec<Fault, A>,
}

impl<A: Allocator + Copy> HelperMemory<A> {
    /// Memory for eight jobs, which is not that of their pages. The error is out of memory.
    pub fn new(alloc: A) -> Result<HelperMemory<A>, AllocError> {
        Ok(HelperMemory {
            dies: Vec::with_capacity(alloc, MAX_JOBS)?,
            moves: Vec::with_capacity(alloc, MAX_JOBS)?,
            made: Vec::with_capacity(alloc, MAX_JOBS)?,
            faults: Vec::with_capacity(alloc, MAX_JOBS)?,
        })
    }
}

/// Which jobs somebody who helps takes.
#[derive(Clone, Copy)]
struct Wanted {
    // How many at most in one hold.
    most: usize,
    // Those of dies that collect, and no other.
    collects: bool,
}

impl Wanted {
    /// Whether a job of a die that collects, or of one that does not, is among these, where the jobs of all dies are to be taken or not.
    fn has(self, takes_all: bool, has_window: bool) -> bool {
        if self.collects {
            has_window
        } else {
            takes_all || !has_window
        }
    }

    /// Whether no more jobs are wanted beside those of these dies. None are beside a long one: others make the next ones meanwhile.
    fn are_enough<E: Looks>(self, array: &E, dies: &[Die]) -> bool {
        dies.len() >= self.most || !are_short(array, dies)
    }
}

/// Somebody who makes jobs of dies, while a request waits for them, or for all dies that collect: one at a time where the images are slow,
/// so that others make those of the other dies beside it, and several in a row where they are quick. Jobs of several dies lie on the dies'
/// bench until they are made and until they are ended, moves between their two calls too, so that no die waits for another's image.
#[derive(Drop)]
pub struct Helper<
    'a,
    R: Wait + Clock,
    L: Ledger,
    E: Events<A>,
    A: Allocator + Copy,
    I: Image + Drop,
    G: Gate,
> {
    rt: &'a R,
    alloc: A,
    shared: &'a Shared<L, E, A>,
    image_table: &'a ImageTable<I, A>,
    gate: &'a G,
    memory: HelperMemory<A>,
    // Those of dies that collect alone.
    collects: bool,
    // The last calls of images took little time.
    is_quick: bool,
}

impl<
    'a,
    R: Wait + Clock,
    L: Ledger,
    E: Events<A>,
    A: Allocator + Copy,
    I: Image + Drop,
    G: Gate,
> Helper<'a, R, L, E, A, I, G> {
    /// Somebody who helps at the dies of this array, whose images are these.
    pub fn new(
        rt: &'a R,
        alloc: A,
        shared: &'a Shared<L, E, A>,
        image_table: &'a ImageTable<I, A>,
        gate: &'a G,
        memory: HelperMemory<A>,
    ) -> Helper<'a, R, L, E, A, I, G> {
        Helper {
            rt,
            alloc,
            shared,
            image_table,
            gate,
            memory,
            collects: false,
            is_quick: false,
        }
    }

    /// The same, who makes the jobs of dies that collect, and no other.
    pub fn collecting(self) -> Helper<'a, R, L, E, A, I, G> {
        let mut helper = self;
        helper.collects = true;
        helper
    }
}

impl<
    'a,
    R: Wait + Clock,
    L: Ledger,
    E: Events<A>,
    A: Allocator + Copy,
    I: Image + Drop,
    G: Gate,
> Hands<L, E, A> for Helper<'a, R, L, E, A, I, G> {
    ghost use Rattle.std.specs.Prelude.{map};
    ghost use Rattle.fa_workers.specs.Held.{numbers_of, told_of};

    ghost held = { λ helper. numbers_of helper.memory.dies.items };

    ghost told = { λ helper. map told_of helper.memory.made.items };

    fn take(&mut self, locked: &mut Locked<L, E, A>, seat: &mut Seat<L>) -> bool {
        let wanted = Wanted {
            most: if self.is_quick { MAX_JOBS } else { 1 },
            collects: self.collects,
        };
        let bench = self.image_table.bench();
        let dies = &mut self.memory.dies;
        if self.collects {
            take_in_round(self.rt, self.alloc, locked, seat, wanted, bench, dies);
        } else {
            take_behind_rounds(self.rt, self.alloc, locked, seat, wanted, bench, dies);
        }
        if self.collects {
            let leads = self.is_quick && are_short(locked.array(), self.memory.dies.as_slice());
            locked.lead(leads);
        }
        !self.memory.dies.is_empty()
    }

    fn work(&mut self) {
        let start = Instant::now(self.rt).ok();
        let dies = self.memory.dies.as_slice();
        if begin_jobs(self.rt, self.image_table, dies, self.gate) {
            let moves = &mut self.memory.moves;
            go_on_with_moves(self.rt, self.image_table, dies, moves, self.gate);
        }
        let is_quick = is_quick(self.rt, start, dies.len());
        let mut made = replace(&mut self.memory.made, Vec::new(self.alloc));
        let dies = self.memory.dies.as_slice();
        lift_all(self.rt, self.image_table.bench(), dies, &mut made);
        open_reads(made.as_mut_slice());
        self.is_quick = is_quick;
        self.memory.made = made;
    }

    fn end(&mut self, locked: &mut Locked<L, E, A>, seat: &mut Seat<L>) {
        let HelperMemory {
            dies,
            made,
            faults,
            ..
        } = &mut self.memory;
        let bench = self.image_table.bench();
        for _ in 0..made.len() {
            if let Some(job) = made.pop() {
                let fault = end_made(self.rt, self.alloc, locked, seat, bench, job);
                keep(faults, fault);
            }
        }
        dies.clear();
    }

    fn note(&mut self) {
        for fault in self.memory.faults.iter() {
            self.shared.note_fault(self.rt, *fault);
        }
        self.memory.faults.clear();
    }
}

/// Takes the jobs of these dies that were made and lie on the bench, in place of those that there are.
fn lift_all<R: Wait, A: Allocator>(
    rt: &R,
    bench: &Bench<A>,
    dies: &[Die],
    made: &mut Vec<MadeJob<A>, A>,
)
    ensures { IsPart (dies_told (map told_of made.new.items)) (numbers_of dies.now) }
{
    made.clear();
    for index in 0..dies.len() {
        lift_made(rt, bench, dies[index], made);
    }
}

/// Adds the job of a die that was made and lies on the bench, if one does and there is memory for it.
fn lift_made<R: Wait, A: Allocator>(
    rt: &R,
    bench: &Bench<A>,
    die: Die,
    made: &mut Vec<MadeJob<A>, A>,
)
    ensures { AddsPart die.0 (map told_of made.old.items) (map told_of made.new.items) }
{
    if made.len() >= made.capacity() {
        return;
    }
    if let Some(job) = bench.lift_made(rt, die) {
        add(made, job);
    }
}

/// Keeps why a die went out, if one did and there is memory.
fn keep<A: Allocator>(faults: &mut Vec<Fault, A>, fault: Option<Fault>) {
    if let Some(fault) = fault {
        let _ = faults.push(fault);
    }
}

/// Ends a job that was made, with the buffer of its memory, which goes back to its place. Why the die went out, if it did.
fn end_made<R: Wait, L: Ledger, E: Events<A>, A: Allocator + Copy>(
    rt: &R,
    alloc: A,
    locked: &mut Locked<L, E, A>,
    seat: &mut Seat<L>,
    bench: &Bench<A>,
    job: MadeJob<A>,
) -> Option<Fault>
    ensures job { EndsJob (told_of job) locked.old.core locked.new.core }
    ensures account { LeavesRest locked.old seat.old locked.new seat.new }
{
    let MadeJob {
        die,
        outcome,
        memory,
    } = job;
    let JobMemory { scratch, buffer } = memory;
    let Ended { buffer, fault } = end_job(alloc, locked, seat, die, outcome, buffer);
    bench.give_back(rt, die, JobMemory { scratch, buffer });
    fault
}

/// Whether the calls of so many jobs, begun then, took little time.
fn is_quick<R: Clock>(rt: &R, start: Option<Instant>, jobs: usize) -> bool {
    let Some(start) = start else {
        return false;
    };
    match start.elapsed(rt) {
        Ok(took) => took <= Duration::from_micros(QUICK_MICROSECONDS.saturating_mul(jobs as u64)),
        Err(_) => false,
    }
}

/// Whether none of these dies is at a long job.
fn are_short<E: Looks>(array: &E, dies: &[Die]) -> bool {
    dies.iter().all(|die| is_short(array, *die))
}

/// Whether the die is at no job, or at one that writes one slot at most and does not wait until that lasts.
fn is_short<E: Looks>(array: &E, die: Die) -> bool {
    matches!(
        array.job_kind(die),
        None | Some(JobKind::Read | JobKind::Program | JobKind::Move)
    )
}

/// Takes jobs of dies as [`take_jobs`] does, in this round if there are any, and else once the rounds have passed that may.
fn take_in_round<R: Wait, L: Ledger, E: Events<A>, A: Allocator + Copy>(
    rt: &R,
    alloc: A,
    locked: &mut Locked<L, E, A>,
    seat: &mut Seat<L>,
    wanted: Wanted,
    bench: &Bench<A>,
    dies: &mut Vec<Die, A>,
)
    ensures takes { TakesJobs (number_of seat.old) locked.old.core (numbers_of dies.old.items) locked.new.core (numbers_of dies.new.items) }
    ensures account { LeavesRest locked.old seat.old locked.new seat.new }
{
    take_jobs(rt, alloc, locked, seat, wanted, bench, dies);
    if dies.is_empty() {
        take_behind_rounds(rt, alloc, locked, seat, wanted, bench, dies);
    }
}

/// Takes jobs of dies as [`take_jobs`] does, once the rounds have passed that may.
fn take_behind_rounds<R: Wait, L: Ledger, E: Events<A>, A: Allocator + Copy>(
    rt: &R,
    alloc: A,
    locked: &mut Locked<L, E, A>,
    seat: &mut Seat<L>,
    wanted: Wanted,
    bench: &Bench<A>,
    dies: &mut Vec<Die, A>,
)
    ensures takes { TakesJobs (number_of seat.old) locked.old.core (numbers_of dies.old.items) locked.new.core (numbers_of dies.new.items) }
    ensures account { LeavesRest locked.old seat.old locked.new seat.new }
{
    locked.settle(seat);
    take_jobs(rt, alloc, locked, seat, wanted, bench, dies);
}

/// Takes the next jobs that are wanted of dies that have one, as long as there is memory for one more, and lays them on the bench. A die
/// that collects is left to its worker, or to whoever makes the jobs of all such dies, so that no request waits for its moves, unless many
/// who help sleep and nobody makes these.
fn take_jobs<R: Wait, L: Ledger, E: Events<A>, A: Allocator + Copy>(
    rt: &R,
    alloc: A,
    locked: &mut Locked<L, E, A>,
    seat: &mut Seat<L>,
    wanted: Wanted,
    bench: &Bench<A>,
    dies: &mut Vec<Die, A>,
)
    ensures takes { TakesJobs (number_of seat.old) locked.old.core (numbers_of dies.old.items) locked.new.core (numbers_of dies.new.items) }
    ensures account { LeavesRest locked.old seat.old locked.new seat.new }
{
    let takes_all = locked.do_many_help() && !locked.is_led();
    for number in 0..locked.array().geometry().dies {
        let die = Die(number as u8);
        if wanted.are_enough(locked.array(), dies.as_slice()) {
            return;
        }
        if dies.len() >= dies.capacity() || !bench.has_place(die) {
            return;
        }
        if !wanted.has(takes_all, locked.array().has_window(die)) {
            continue;
        }
        if let Some(order) = take_job(alloc, locked, seat, die) {
            add(dies, order.die());
            bench.lay(rt, order);
        }
    }
}

/// Adds an item, for which there is memory.
fn add<T: Drop, A: Allocator>(items: &mut Vec<T, A>, item: T)
    requires { length items.old.items < vec_capacity items.old }
    ensures { items.new.items ≡ items.old.items ++ item ∷ [] }
{
    let _ = items.push(item);
}
