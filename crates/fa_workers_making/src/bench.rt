//! Where jobs of dies lie that somebody took for several dies at once.
ghost use Rattle.std.specs.Prelude.{◌≡◌, IfSome};

use crate::job_memory::JobMemory;
use crate::moves::OpenedMove;
use crate::order::Order;
use fa_core_outcome::Outcome;
use fa_types::Die;
use std::alloc::{AllocError, Allocator, Global};
use std::mem::swap;
use std::sync::{Mutex, Wait};

/// A job that is to be made, with memory for it.
#[derive(Drop)]
pub struct Task<A: Allocator = Global> {
    /// The job.
    pub order: Order<A>,
    /// The memory that it is made in.
    pub memory: JobMemory<A>,
}

/// A job whose calls were made: how it has ended, and the memory that it was made in. A read's slot is not opened.
#[derive(Drop)]
pub struct MadeJob<A: Allocator = Global> {
    /// The die.
    pub die: Die,
    /// How it has ended.
    pub outcome: Outcome,
    /// The memory that it was made in.
    pub memory: JobMemory<A>,
}

/// What lies at a die's place for the die's own worker.
#[derive(Drop)]
pub enum Lain<A: Allocator = Global> {
    /// A job that nobody has begun.
    Waiting(Order<A>),
    /// A move whose slot was read.
    SlotRead(Task<A>),
    /// A move whose slot was read and opened.
    Opened(OpenedMove<A>),
    /// How a job has ended that was made, and that nobody has told the array of.
    Made(Outcome),
}

/// A die's place. At most one thing lies there beside the memory; what was begun has the memory within.
#[derive(Drop)]
struct Place<A: Allocator = Global> {
    // A job that nobody has begun.
    order: Option<Order<A>>,
    // A move whose slot was read.
    read: Option<Task<A>>,
    // A move whose slot was read and opened.
    opened: Option<OpenedMove<A>>,
    // How a job has ended that was made, and that nobody has told the array of.
    outcome: Option<Outcome>,
    // Memory for such a job. None while somebody makes one or tells of it, or one lies begun.
    memory: Option<JobMemory<A>>,
}

/// A place for each die of an array. Who takes jobs of several dies in one hold of the array's lock lays them there, and makes one after
/// the other; whoever comes first makes a job, the die's worker too, so that none waits for the calls of another die's image. So it is with
/// a move between its two calls, and with the end of a job that was made. A die has one job at a time, and its place has the memory for it:
/// where no job of the die is under way, the memory is there.
#[derive(Drop)]
pub struct Bench<A: Allocator = Global> {
    // By the numbers of the dies.
    places: Vec<Mutex<Place<A>>, A>,
}

impl<A: Allocator + Copy> Bench<A> {
    /// A bench for so many dies whose pages have so many bytes. The error is out of memory.
    pub(crate) fn new(alloc: A, dies: usize, page_bytes: u32) -> Result<Bench<A>, AllocError> {
        let mut places = Vec::with_capacity(alloc, dies)?;
        for _ in 0..dies {
            let memory = JobMemory::new(alloc, page_bytes)?;
            places.push(Mutex::new(Place {
                order: None,
                read: None,
                opened: None,
                outcome: None,
                memory: Some(memory),
            }))?;
        }
        Ok(Bench { places })
    }
}

impl<A: Allocator> Bench<A> {
    /// Whether the die has a place.
    pub fn has_place(&self, die: Die) -> bool {
        usize::from(die.0) < self.places.len()
    }

    /// Lays a job at the place of its die.
    pub fn lay<R: Wait>(&self, rt: &R, order: Order<A>) {
        if let Some(lock) = self.places.get(usize::from(order.die().0)) {
            lock.lock(rt).order = Some(order);
        }
    }

    /// The job that nobody has begun, with memory for it.
    pub(crate) fn lift_task<R: Wait>(&self, rt: &R, die: Die) -> Option<Task<A>> {
        let mut place = self.places.get(usize::from(die.0))?.lock(rt);
        if place.order.is_none() {
            return None;
        }
        let memory = place.memory.take()?;
        let order = place.order.take()?;
        Some(Task { order, memory })
    }

    /// Lays a move whose slot was read at the place of its die.
    pub(crate) fn lay_read<R: Wait>(&self, rt: &R, task: Task<A>) {
        if let Some(lock) = self.places.get(usize::from(task.order.die().0)) {
            lock.lock(rt).read = Some(task);
        }
    }

    /// The move whose slot was read, if that is what lies there.
    pub(crate) fn lift_read<R: Wait>(&self, rt: &R, die: Die) -> Option<Task<A>> {
        let mut place = self.places.get(usize::from(die.0))?.lock(rt);
        if place.read.is_none() {
            return None;
        }
        place.read.take()
    }

    /// Lays a move whose slot was read and opened at the place of its die.
    pub(crate) fn lay_opened<R: Wait>(&self, rt: &R, opened: OpenedMove<A>) {
        if let Some(lock) = self.places.get(usize::from(opened.die().0)) {
            lock.lock(rt).opened = Some(opened);
        }
    }

    /// The move whose slot was read and opened, if that is what lies there.
    pub(crate) fn lift_opened<R: Wait>(&self, rt: &R, die: Die) -> Option<OpenedMove<A>> {
        let mut place = self.places.get(usize::from(die.0))?.lock(rt);
        if place.opened.is_none() {
            return None;
        }
        place.opened.take()
    }

    /// Lays back how a job has ended, with the memory that it was made in.
    pub(crate) fn lay_made<R: Wait>(&self, rt: &R, made: MadeJob<A>) {
        let MadeJob {
            die,
            outcome,
            memory,
        } = made;
        if let Some(lock) = self.places.get(usize::from(die.0)) {
            let mut place = lock.lock(rt);
            place.outcome = Some(outcome);
            place.memory = Some(memory);
        }
    }

    /// How a job has ended that was made, with the memory that it was made in.
    pub fn lift_made<R: Wait>(&self, rt: &R, die: Die) -> Option<MadeJob<A>>
        ensures { IfSome result (λ job. job.die ≡ die) }
    {
        let mut place = self.places.get(usize::from(die.0))?.lock(rt);
        let outcome = place.outcome.take()?;
        let memory = place.memory.take()?;
        Some(MadeJob {
            die,
            outcome,
            memory,
        })
    }

    /// Gives a die's memory back to its place, before the array is told of the end of its job by anybody else.
    pub fn give_back<R: Wait>(&self, rt: &R, die: Die, memory: JobMemory<A>) {
        if let Some(lock) = self.places.get(usize::from(die.0)) {
            lock.lock(rt).memory = Some(memory);
        }
    }

    /// What lies at the place for the die's own worker. Where a job was made, this memory changes places with the one that it was made in.
    pub fn lift<R: Wait>(&self, rt: &R, die: Die, memory: &mut JobMemory<A>) -> Option<Lain<A>> {
        let mut place = self.places.get(usize::from(die.0))?.lock(rt);
        if let Some(order) = place.order.take() {
            return Some(Lain::Waiting(order));
        }
        if let Some(task) = place.read.take() {
            return Some(Lain::SlotRead(task));
        }
        if let Some(opened) = place.opened.take() {
            return Some(Lain::Opened(opened));
        }
        let outcome = place.outcome.take()?;
        if let Some(there) = &mut place.memory {
            swap(there, memory);
        }
        Some(Lain::Made(outcome))
    }
}
