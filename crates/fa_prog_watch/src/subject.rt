//! An array that is served, as those who ask look at it.
use crate::watched::Watched;
use fa_prog_clients::AcceptQueue;
use fa_prog_counts::{Counts, PlanFileTotals, die_of};
use fa_prog_status::{DieState, DieStatus, PlanFileStatus, SlotCounts, Status};
use std::alloc::{AllocError, Global};

/// What is looked at.
#[derive(Drop)]
pub struct Subject<'a, W> {
    /// The array.
    pub watched: &'a W,
    /// What is counted while it is served.
    pub counts: &'a Counts,
    /// Where its clients come.
    pub accept_queue: &'a AcceptQueue,
    /// The paths of its images, by the numbers of the dies. None where a die has none.
    pub paths: &'a [Option<&'a str>],
}

impl<'a, W: Watched> Subject<'a, W> {
    /// How it is, where its dies' slots are these by the numbers of the dies. The error is out of memory.
    pub(crate) fn status(
        &self,
        global: Global,
        slots: &[SlotCounts],
    ) -> Result<Status<'a>, AllocError> {
        let faults = self.watched.faults(global)?;
        let dies = self.dies(global, slots)?;
        let moment = self.watched.moment();
        Ok(Status {
            dies,
            epoch: moment.epoch,
            round: moment.round,
            plans: moment.plans,
            plan_file: plan_file_status(self.counts.plans().totals(), moment.dropped),
            totals: self.counts.totals(),
            clients: self.accept_queue.clients(),
            faults,
        })
    }

    /// How its dies are. The error is out of memory.
    fn dies(&self, global: Global, slots: &[SlotCounts]) -> Result<Vec<DieStatus<'a>>, AllocError> {
        let mut dies = Vec::with_capacity(global, self.paths.len())?;
        for number in 0..self.paths.len() {
            let die = self.die(number, slots.get(number).copied());
            dies.push(die)?;
        }
        Ok(dies)
    }

    /// How the die of a number is, which has these slots.
    fn die(&self, number: usize, slots: Option<SlotCounts>) -> DieStatus<'a> {
        let die = die_of(number);
        let path = self.paths.get(number).copied().flatten();
        let (state, is_behind) = self.watched.standing(die, path.is_some());
        let (calls, slow) = match self.counts.die(die) {
            Some(counts) => (counts.ended(), counts.slow()),
            None => ([0; 6], None),
        };
        DieStatus {
            die,
            path,
            state,
            is_behind,
            slots: match state {
                DieState::Live | DieState::Spare => slots,
                DieState::Out | DieState::Missing => None,
            },
            calls,
            slow,
        }
    }
}

/// What became of the plans that were to be written, of which so many were dropped.
fn plan_file_status(taken: PlanFileTotals, dropped: u64) -> PlanFileStatus {
    PlanFileStatus {
        written: taken.written,
        dropped,
        unfit: taken.unfit,
        failed: taken.failed,
    }
}
