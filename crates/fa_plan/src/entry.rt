//! A plan that the check of certificates accepts.
use fa_batch::{Batch, Plan, Shortage};
use fa_closed::{Closed, Run};
use std::alloc::{Allocator, Global};

/// A plan of a batch, with the rounds of dies that were closed and what shows that no plan has fewer rounds. Its rounds are told from 1 on,
/// the round in which it was made.
#[derive(Drop)]
pub struct PlanEntry<A: Allocator = Global> {
    /// The pages, each with the dies that hold it.
    pub batch: Batch<A>,
    /// The closed rounds of dies, as runs.
    pub runs: Vec<Run, A>,
    /// The closed rounds of dies, as they are asked for.
    pub calendar: Closed<A>,
    /// Where each page is read.
    pub plan: Plan<A>,
    /// Pages that are too many for one round less.
    pub shortage: Shortage<A>,
}
