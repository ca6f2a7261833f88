//! What an Admit answers.
use fa_machine::BatchId;
use fa_plan::Planned;
use std::alloc::{Allocator, Global};

/// A batch that was admitted.
#[derive(Drop)]
pub struct Admitted<A: Allocator = Global> {
    /// Its number.
    pub batch: BatchId,
    /// The plan of its pages that are to be read, with what shows that it is least.
    pub planned: Planned<A>,
}
