//! Plans that wait for who checks them.
ghost use Rattle.std.specs.Prelude.{◌≡◌, ◌<◌, ◌≤◌};

use crate::note::PlanNote;
use crate::planner::Planned;
use fa_batch::Batch;
use fa_types::Rounds;
use std::alloc::{Allocator, Global};
use std::collections::VecDeque;

/// How many plans wait at most.
pub const MAX_WAITING: usize = 4_096;

/// How many pages the plans have at most that wait.
pub const MAX_PAGES_WAITING: usize = 131_072;

/// How many plans that were taken and came back are kept at most, for the memory that they have.
const MAX_SPARE: usize = 256;

/// The fewest pages of a batch whose plan is kept: where one page is read there is nothing to be spread.
const FEWEST_PAGES: usize = 2;

/// How many plans were kept, and how many were not.
#[derive(Clone, Copy)]
pub struct LogCounts {
    /// Plans that were put into the queue.
    pub kept: u64,
    /// Plans for which the queue had no room, or there was no memory.
    pub dropped: u64,
}

/// A queue of plans. Each n-th batch of at least two pages comes into it. One that finds no room is counted, and nobody waits for it. What
/// stands in it is in no clause: who takes a plan has it checked.
#[derive(Drop)]
pub struct PlanLog<A: Allocator = Global> {
    every: u64,
    // How many dies the array has.
    dies: u8,
    // How many batches come before the next one that is kept.
    skips: u64,
    queue: VecDeque<PlanNote<A>, A>,
    // Plans that nobody wants any more, for the memory of plans to come.
    spare: Vec<PlanNote<A>, A>,
    // The pages of all that wait.
    pages: usize,
    counts: LogCounts,
}

impl<A: Allocator> PlanLog<A> {
    /// How many were kept, and how many were not.
    pub fn counts(&self) -> LogCounts {
        self.counts
    }
}

impl<A: Allocator + Copy> PlanLog<A> {
    /// An empty queue for the plans of each n-th batch, from the first on, over so many dies.
    pub fn new(alloc: A, every: u64, dies: u8) -> PlanLog<A> {
        PlanLog {
            every,
            dies,
            skips: 0,
            queue: VecDeque::new(alloc),
            spare: Vec::new(alloc),
            pages: 0,
            counts: LogCounts {
                kept: 0,
                dropped: 0,
            },
        }
    }

    /// The plan that was just made of a batch, if it is to be kept: over a calendar in which none of it is booked yet. It is put into the
    /// queue by [`PlanLog::keep`].
    pub fn note<R: Rounds>(
        &mut self,
        alloc: A,
        batch: &Batch<A>,
        calendar: &R,
        planned: &Planned<A>,
    ) -> Option<PlanNote<A>> {
        if batch.len() < FEWEST_PAGES {
            return None;
        }
        if self.skips > 0 {
            self.skips -= 1;
            return None;
        }
        self.skips = self.every.saturating_sub(1);
        if !self.has_room(batch.len()) {
            self.count_dropped();
            return None;
        }
        let mut note = match self.spare.pop() {
            Some(note) => note,
            None => PlanNote::new(alloc),
        };
        match note.set(batch, calendar, self.dies, planned) {
            Ok(()) => Some(note),
            Err(_) => {
                self.count_dropped();
                None
            }
        }
    }

    /// Puts a plan behind those that wait.
    pub fn keep(&mut self, note: PlanNote<A>) {
        let pages = note.pages();
        match self.queue.push_back(note) {
            Ok(()) => {
                self.pages = self.pages.saturating_add(pages);
                self.counts.kept = self.counts.kept.saturating_add(1);
            }
            Err(_) => self.count_dropped(),
        }
    }

    /// The plan that waits longest.
    pub fn take(&mut self) -> Option<PlanNote<A>> {
        let note = self.queue.pop_front()?;
        self.pages = self.pages.saturating_sub(note.pages());
        Some(note)
    }

    /// A plan that was taken and that nobody wants any more comes back, and plans to come are kept in its memory.
    pub fn give_back(&mut self, note: PlanNote<A>) {
        if self.spare.len() < MAX_SPARE {
            let _ = self.spare.push(note);
        }
    }

    fn has_room(&self, pages: usize) -> bool {
        self.queue.len() < MAX_WAITING && self.pages.saturating_add(pages) <= MAX_PAGES_WAITING
    }

    fn count_dropped(&mut self) {
        self.counts.dropped = self.counts.dropped.saturating_add(1);
    }
}
