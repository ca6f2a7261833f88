//! How far the rebuilder is with one more copy.
use fa_machine::BatchId;
use fa_tag::Payload;
use fa_types::{Page, Seq};
use std::alloc::{Allocator, Global};

/// A page that is to have one more copy, with its number when it was found.
#[derive(Clone, Copy)]
pub(crate) struct ThinPage {
    /// The page.
    pub(crate) page: Page,
    /// The number of its last write.
    pub(crate) seq: Seq,
}

/// How far the rebuilder is.
#[derive(Drop)]
pub(crate) enum RebuildStage<A: Allocator = Global> {
    /// It looks for spares to bring in and for thin pages.
    Looking,
    /// It looks again when something has changed.
    Pausing,
    /// The page is read by this batch.
    Reading(ThinPage, BatchId),
    /// The batch has ended, and gave this.
    Read(ThinPage, Vec<(Page, Vec<u8, A>), A>),
    /// The copy is to be reserved.
    Reserving(ThinPage, Payload<A>),
    /// The copy is under way.
    Copying,
    /// It has ended.
    Ended,
}
