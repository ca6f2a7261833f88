//! What batches are planned with.
use crate::counting::PlanCounts;
use fa_batch::Batch;
use fa_plan::{LogCounts, PlanLog, PlanNote, Planned, Workspace};
use fa_types::Rounds;
use std::alloc::{Allocator, Global};

/// Memory that plans of batches are made in, kept from one to the next. What is in it is in no clause.
#[derive(Drop)]
pub struct Planner<A: Allocator = Global> {
    // The pages that were planned last, each with its holders.
    pub(crate) entries: Batch<A>,
    pub(crate) workspace: Workspace<A>,
    // What was planned so far.
    counts: PlanCounts,
    // The plans that wait for who checks them, where somebody does.
    log: Option<PlanLog<A>>,
}

/// What is kept of a plan where its batch is admitted.
#[derive(Drop)]
pub(crate) struct Noted<A: Allocator> {
    counts: PlanCounts,
    note: Option<PlanNote<A>>,
}

impl<A: Allocator> Planner<A> {
    /// What the plans of admitted batches came to.
    pub fn counts(&self) -> PlanCounts {
        self.counts
    }

    /// How many plans were kept for who checks them, and how many were dropped. None where nobody does.
    pub fn log_counts(&self) -> Option<LogCounts> {
        match &self.log {
            Some(log) => Some(log.counts()),
            None => None,
        }
    }
}

impl<A: Allocator + Copy> Planner<A> {
    /// A planner that has no memory yet.
    pub fn new(alloc: A) -> Planner<A> {
        Planner {
            entries: Batch::new(alloc),
            workspace: Workspace::new(alloc),
            counts: PlanCounts::NONE,
            log: None,
        }
    }

    /// From here on the plan of each n-th batch of at least two pages waits for who checks it, over so many dies.
    pub fn log_plans(&mut self, alloc: A, every: u64, dies: u8) {
        self.log = Some(PlanLog::new(alloc, every, dies));
    }

    /// The plan that waits longest for who checks it.
    pub fn take_plan(&mut self) -> Option<PlanNote<A>> {
        match &mut self.log {
            Some(log) => log.take(),
            None => None,
        }
    }

    /// A plan that was taken and that nobody wants any more comes back.
    pub fn give_back_note(&mut self, note: PlanNote<A>) {
        if let Some(log) = &mut self.log {
            log.give_back(note);
        }
    }

    /// What is to be kept of the plan of the pages that were planned last. None of it is booked yet.
    pub(crate) fn noted<R: Rounds>(
        &mut self,
        alloc: A,
        planned: &Planned<A>,
        calendar: &R,
    ) -> Noted<A> {
        let counts = PlanCounts::of(&self.entries, planned.rounds, calendar);
        let note = match &mut self.log {
            Some(log) => log.note(alloc, &self.entries, calendar, planned),
            None => None,
        };
        Noted { counts, note }
    }

    /// The batch of this plan was admitted.
    pub(crate) fn keep_noted(&mut self, noted: Noted<A>) {
        let Noted { counts, note } = noted;
        self.counts.add(counts);
        if let (Some(log), Some(note)) = (&mut self.log, note) {
            log.keep(note);
        }
    }

    /// Keeps the memory of a plan that nobody wants any more.
    pub fn keep(&mut self, planned: Planned<A>) {
        self.workspace.keep(planned);
    }
}
