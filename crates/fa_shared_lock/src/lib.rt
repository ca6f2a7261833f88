//! The array under a lock: who makes events, and what always holds of the array while the lock is free.
#![tactic(auto)]

mod hands;
mod locked;
mod making;
mod seat;

pub use hands::Hands;
pub use locked::{Gathered, Locked, plain};
pub use making::make;
pub use seat::Seat;
