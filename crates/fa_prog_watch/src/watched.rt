//! An array that is served, as who watches it sees it. Nothing else here names an array.
use fa_plan::PlanNote;
use fa_prog_host::LostPages;
use fa_prog_status::{DieState, FaultStatus, PageStatus, PlanStatus, SlotCounts};
use fa_types::{Die, Geometry};
use std::alloc::{AllocError, Global};

/// How many pages are looked at in one hold of the array's lock.
pub const PAGES_A_HOLD: u64 = 1024;

/// How many blocks of a die are.
pub const BLOCKS_A_HOLD: u32 = 1024;

/// How many plans are given back in one hold, and how many are taken.
pub const PLANS_A_HOLD: usize = 64;

/// How an array stands.
#[derive(Clone, Copy)]
pub struct Sight {
    /// Which dies are live, by their numbers.
    pub live: [bool; 64],
    /// A page has fewer copies than it could have.
    pub is_thin: bool,
    /// No page has, and each live die has room for more.
    pub is_healed: bool,
    /// A write may find too few dies with room for it.
    pub is_full: bool,
}

/// What an array says of itself in one hold of its lock.
#[derive(Clone, Copy)]
pub struct Moment {
    /// How often the live dies have changed.
    pub epoch: u64,
    /// The current round.
    pub round: u64,
    /// What the plans of its batches came to.
    pub plans: PlanStatus,
    /// How many plans were to be written and were dropped.
    pub dropped: u64,
}

/// An array that is served, as who watches it sees it. Each call looks at it in one hold of its lock, of bounded time.
pub trait Watched {
    /// The geometry, which stays.
    fn geometry(&self) -> Geometry;

    /// Whether whoever works for it is to end.
    fn is_stopping(&self) -> bool;

    /// What it says of itself.
    fn moment(&self) -> Moment;

    /// How it stands, where each page is to have this number of copies.
    fn sight(&self, copies: u32) -> Sight;

    /// How a die stands, which has an image or none, and whether it is behind.
    fn standing(&self, die: Die, has_image: bool) -> (DieState, bool);

    /// The last faults that took dies out, the oldest first. The error is out of memory.
    fn faults(&self, global: Global) -> Result<Vec<FaultStatus>, AllocError>;

    /// Notes which of the pages of a hold are lost, from one on. The error is out of memory.
    fn note_lost(&self, first: u64, lost: &mut LostPages) -> Result<(), AllocError>;

    /// How many of these pages are lost.
    fn count_lost(&self, first: u64) -> u64;

    /// Counts the pages of a hold that were written, from one on. The error is out of memory.
    fn count_pages(&self, first: u64, counted: &mut PageStatus) -> Result<(), AllocError>;

    /// Adds the slots of the blocks of a hold of a die, from one on.
    fn count_slots(&self, die: Die, first: u32, counted: &mut SlotCounts);

    /// Gives used plans back, and takes some of those that wait, for which there is room.
    fn change_plans(&self, used: &mut Vec<PlanNote>, taken: &mut Vec<PlanNote>);
}
