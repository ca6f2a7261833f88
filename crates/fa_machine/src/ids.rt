//! Names of what is open, and of a block.

/// A claim of a page, from the event that opened it to its release.
#[derive(Clone, Copy)]
pub struct ClaimId(pub u64);

/// A batch of reads, from its admission to its end.
#[derive(Clone, Copy)]
pub struct BatchId(pub u64);

/// The number of a block of a die, from 0. The slots of a block are erased together.
#[derive(Clone, Copy)]
pub struct Block(pub u32);
