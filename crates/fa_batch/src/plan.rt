//! A plan: which die reads each page of a batch, and in which round.
use crate::listing::Listing;
use fa_batch_terms::Place;
use fa_types::Page;
use std::alloc::{Allocator, Global};

/// The places of a plan, in any order.
pub type Places<A = Global> = Listing<Place, A>;

/// Pages of a batch that are more than the places where they could be read in one round less, which
/// shows that no plan has fewer rounds.
pub type Shortage<A = Global> = Listing<Page, A>;

/// A plan for a batch of reads, with the number of rounds that it claims: from the current round up to
/// the last one in which it reads, and 0 where it reads nothing.
#[derive(Drop)]
pub struct Plan<A: Allocator = Global> {
    /// The number of rounds.
    pub rounds: u64,
    /// The place of each page.
    pub places: Places<A>,
}
