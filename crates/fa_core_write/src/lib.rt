//! The events of writers, over the array's state: a page is claimed, slots are reserved for a write of it, the write is
//! committed or given up, and the page is released.
#![tactic(auto)]

mod abandoning;
mod claiming;
mod committing;
mod looking;
mod placing;
mod queueing;
mod reserving;

pub use abandoning::abandon;
pub use claiming::{claim, release};
pub use committing::{commit, is_pending};
pub use reserving::reserve;
