//! Who sleeps until the array has changed, and for what: whom a change of it wakes, and how room of dies is given to those who wait for it. What
//! is told here is a matter of speed alone, and in no clause.
#![tactic(auto)]

mod homes;
mod rooms;
mod sleepers;

pub use homes::{DieSet, lacks_home};
pub use sleepers::{Awaits, MAX_SEATS, SeatSet, Sleepers, is_due};
