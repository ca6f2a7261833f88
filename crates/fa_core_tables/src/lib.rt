//! The containers of the array's state: at most one value for each die, the history, the programs that wait for their dies, and the
//! open claims, each with what is reserved under it. What each shows is a piece of the array's state.
#![tactic(auto)]

mod by_die;
mod claims;
mod log;
mod queued;
mod shown;
mod targets;
mod waiting;

pub use by_die::ByDie;
pub use claims::Claims;
pub use log::{Log, MAX_ENTRIES};
pub use queued::QueuedProgram;
pub use targets::{Reservation, Targets};
pub use waiting::Waiting;
