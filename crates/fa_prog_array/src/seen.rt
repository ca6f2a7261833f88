//! What who watches an array asks of it.
use fa_prog_host::LostPages;
use fa_prog_status::{DieState, PageStatus, SlotCounts};
use fa_prog_watch::{Moment, Sight};
use fa_types::Die;
use std::alloc::AllocError;

/// An array of which is asked what a [`fa_prog_watch::Watched`] tells, in one hold of its lock each. No clause speaks of it.
pub trait Seen {
    /// What it says of itself.
    fn moment(&self) -> Moment;

    /// How it stands, where each page is to have this number of copies.
    fn sight(&self, copies: u32) -> Sight;

    /// How a die stands, and whether it is behind.
    fn standing(&self, die: Die, has_image: bool) -> (DieState, bool);

    /// Notes the lost ones of `pages` pages from `first` on. The error is out of memory.
    fn note_lost(&self, first: u64, pages: u64, lost: &mut LostPages) -> Result<(), AllocError>;

    /// How many of `pages` pages from `first` on are lost.
    fn count_lost(&self, first: u64, pages: u64) -> u64;

    /// Counts the written ones of `pages` pages from `first` on. The error is out of memory.
    fn count_pages(
        &self,
        first: u64,
        pages: u64,
        counted: &mut PageStatus,
    ) -> Result<(), AllocError>;

    /// Adds the slots of `blocks` blocks of a die from `first` on.
    fn count_slots(&self, die: Die, first: u32, blocks: u32, counted: &mut SlotCounts);
}
