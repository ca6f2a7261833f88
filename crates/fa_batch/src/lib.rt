//! Batches of page reads and plans, as they are held.
#![tactic(auto)]

mod batch;
mod listing;
mod plan;

pub use batch::{Batch, MAX_PAGES};
pub use listing::Listing;
pub use plan::{Places, Plan, Shortage};
