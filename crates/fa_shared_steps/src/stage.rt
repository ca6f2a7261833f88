//! How far a request is.
ghost use Rattle.std.specs.Prelude.{◌≡◌};

use crate::page_list::PageList;
use fa_machine::{BatchId, ClaimId, Flush};
use fa_tag::Payload;
use fa_types::{BlockFault, Page};
use std::alloc::{Allocator, Global};

/// A page that is claimed, with its claim.
#[derive(Clone, Copy)]
pub struct PageClaim {
    /// The page.
    pub page: Page,
    /// The claim of it.
    pub claim: ClaimId,
}

/// What a batch is read for.
#[derive(Clone, Copy)]
pub enum Purpose {
    /// For the answer of a read, which goes on at this page.
    Answer(u64),
    /// For a page that is written in part.
    Merge(PageClaim),
}

/// What is to be written of a page.
#[derive(Drop)]
pub enum Wish<A: Allocator = Global> {
    /// These bytes, on as many dies as are asked for.
    Data(Payload<A>),
    /// These bytes, on as many dies as there are with room.
    Fewer(Payload<A>),
    /// No bytes.
    Hole,
}

/// How far a request is: what it does next, and what it has of the array meanwhile.
#[derive(Drop)]
pub enum Stage<A: Allocator = Global> {
    /// The pages of a batch are to be listed.
    Listing(Purpose),
    /// A batch of these pages is to be admitted.
    Asking(Purpose, PageList<A>),
    /// The batch is being read.
    Reading(Purpose, BatchId),
    /// The batch is to be ended, and the request is refused so.
    Leaving(Purpose, BatchId, BlockFault),
    /// The batch gave this, of which the answer or the page's new bytes are to be made.
    Sorting(Purpose, Vec<(Page, Vec<u8, A>), A>),
    /// The page is to be claimed.
    Claiming(Page),
    /// What the page is to hold is to be made, for as many dies as are asked for, or for fewer.
    Filling(PageClaim, bool),
    /// A number and slots are to be reserved.
    Reserving(PageClaim, Wish<A>),
    /// What is reserved is to be committed.
    Committing(PageClaim, Wish<A>),
    /// What is reserved is to be given up, and then to be reserved anew.
    Abandoning(PageClaim, Wish<A>),
    /// The page is to be released, and the request goes on or is refused so.
    Releasing(PageClaim, Option<BlockFault>),
    /// A flush is to be begun.
    BeginningFlush,
    /// The flush is waited for.
    Flushing(Flush),
    /// All is done, or the request is refused so.
    Ended(Option<BlockFault>),
}
