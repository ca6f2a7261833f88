//! The array that threads share, with the faults that took its dies out, and the events of dies, rounds, windows, spares and copies on it.
#![tactic(auto)]

mod dies;
mod shared;
mod spares;
mod turning;

pub use dies::{done, take};
pub use shared::{Shared, discard};
pub use spares::bring_in_spare;
pub use turning::{advance, commit_copy, reserve_copy, spare_in, window};
