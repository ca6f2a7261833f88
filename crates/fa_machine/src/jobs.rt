//! What a die may be at.
use crate::ids::{BatchId, Block};
use crate::places::Version;
use fa_types::{Page, Slot};

/// The job that a die is at, without the bytes that it moves.
#[derive(Clone, Copy)]
pub enum Flight {
    /// Its header is written.
    Header {
        /// The epoch in that header.
        epoch: u64,
        /// The live dies in that header: bit `d` stands for die `d`.
        live: u64,
    },
    /// The collector moves a copy.
    Move {
        /// The page.
        page: Page,
        /// The write of it that is moved.
        version: Version,
        /// The slot that holds the copy.
        from: Slot,
        /// The slot that is to hold it.
        to: Slot,
    },
    /// The collector erases a block.
    Erase {
        /// The block.
        block: Block,
    },
    /// A booked read.
    Read {
        /// The batch that booked it.
        batch: BatchId,
        /// The page.
        page: Page,
        /// The write of it that the slot holds.
        version: Version,
        /// The slot.
        slot: Slot,
    },
    /// A copy is programmed into the slot that is kept for it.
    Program {
        /// The page.
        page: Page,
        /// The write of it.
        version: Version,
        /// The slot.
        slot: Slot,
    },
    /// What was written to the die is synced.
    Sync {
        /// How many flushes were begun before.
        flushes: u64,
    },
}

/// The kind of a job.
#[derive(Clone, Copy)]
pub enum JobKind {
    /// A booked read.
    Read,
    /// A program of a copy.
    Program,
    /// A move of a copy by the collector.
    Move,
    /// An erase of a block by the collector.
    Erase,
    /// A write of the header.
    Header,
    /// A sync.
    Sync,
}

/// What a collector does next on a die.
#[derive(Clone, Copy)]
pub enum CollectorStep {
    /// It moves the copy in this slot.
    MoveSlot(Slot),
    /// It erases this block.
    EraseBlock(Block),
    /// There is nothing to collect.
    Nothing,
}
