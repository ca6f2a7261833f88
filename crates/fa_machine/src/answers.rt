//! What events answer, and what the history keeps of them.
use fa_types::{Page, Seq};

/// An entry of the history.
#[derive(Clone, Copy)]
pub enum HistoryEntry {
    /// A page was given this sequence number.
    Commit {
        /// Who did it.
        seat: u32,
        /// The page.
        page: Page,
        /// The number.
        seq: Seq,
    },
    /// A read of a page started while the page had this sequence number.
    Start {
        /// Who did it.
        seat: u32,
        /// The page.
        page: Page,
        /// The number.
        seq: Seq,
    },
}

/// What became of one more copy of a page.
#[derive(Clone, Copy)]
pub enum Copied {
    /// It is current.
    Current,
    /// The page was written meanwhile, and the copy is stale.
    Late,
}

/// A flush that was begun.
#[derive(Clone, Copy)]
pub struct Flush {
    /// How many were begun, with this one.
    pub number: u64,
    /// Which dies were live when it began.
    pub live: [bool; 64],
}

/// How a flush stands.
#[derive(Clone, Copy)]
pub enum FlushState {
    /// A die that was live when it began has not ended a sync taken since.
    Waiting,
    /// Each of these dies has ended one or is out, and one of them is live.
    Synced,
    /// None of these dies is live.
    NoDie,
}

/// How a batch stands.
#[derive(Clone, Copy)]
pub enum ReadState {
    /// Each page has an answer, or a read that is booked or in flight.
    Waiting,
    /// A page has none of these, or no such batch is open.
    Torn,
    /// Each page has an answer.
    Ready,
}
