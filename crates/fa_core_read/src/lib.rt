//! The events of readers, over the array's state: a batch is admitted, planned anew, and ended; how a batch stands; and the closed
//! rounds without those that are booked for a batch. Each is one function. A plan takes the least number of rounds.
#![tactic(auto)]

mod admitting;
mod booking;
mod counting;
mod ending;
pub mod laws;
mod planner;
mod planning;
mod replanning;
mod standing;

pub use admitting::admit;
pub use counting::PlanCounts;
pub use ending::end_batch;
pub use planner::Planner;
pub use replanning::{closed_without, replan};
pub use standing::results;
