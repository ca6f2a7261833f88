//! Jobs of dies that end, over the array's state.
#![tactic(auto)]

mod collecting;
mod dropping;
mod ending;
mod programming;
mod reading;
mod telling;

pub use ending::done;
