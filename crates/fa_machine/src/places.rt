//! What stands in a slot, in a round of a die, and in a reservation.
use crate::ids::BatchId;
use fa_types::{Die, Kind, Page, Seq, Slot};

/// One write of a page: its sequence number, and what it wrote.
#[derive(Clone, Copy, PartialEq, Eq)]
pub struct Version {
    /// The sequence number.
    pub seq: Seq,
    /// What was written.
    pub kind: Kind,
}

/// The state of a slot that is not erased.
#[derive(Clone, Copy)]
pub enum Used {
    /// It is kept for a copy that is not current yet, programmed or not.
    Reserved,
    /// It holds a current copy.
    Held {
        /// The page.
        page: Page,
        /// The write of the page that it holds.
        version: Version,
    },
    /// What it holds is of no use, and goes at the next erase of its block.
    Stale,
}

/// A round of a die that is booked for a read.
#[derive(Clone, Copy)]
pub struct Booking {
    /// The batch that booked it.
    pub batch: BatchId,
    /// The page to be read. Its slot is looked up when the read starts.
    pub page: Page,
    /// Whether the read was started.
    pub started: bool,
}

/// A slot that is kept for one copy of a page.
#[derive(Clone, Copy)]
pub struct Target {
    /// The die.
    pub die: Die,
    /// The slot.
    pub slot: Slot,
    /// Whether the copy was programmed there.
    pub programmed: bool,
}

/// One more copy of a page, under way to a die that does not hold it.
#[derive(Clone, Copy)]
pub struct Copying {
    /// The page.
    pub page: Page,
    /// The write of it that is copied.
    pub version: Version,
    /// Where it goes.
    pub target: Target,
}
