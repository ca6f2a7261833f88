//! A request over the array under its lock, turn by turn: the events that it makes, of batches, claims and flushes, each with its answer, and
//! what it does behind them.
#![tactic(auto)]

mod batches;
mod claims;
mod flushes;
mod folding;
mod kinds;
mod parts;
mod reading;
mod room;
mod stages;
mod syncing;
mod turn;
mod turning;
mod writing;

pub use batches::{admit, end_batch};
pub use folding::make_room;
pub use parts::{awaits_of, turn_all};
pub use turn::{Turn, make_turn};
pub use turning::turn_on;
