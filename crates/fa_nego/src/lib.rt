//! The NBD handshake: the fixed newstyle negotiation, fed with the client's bytes in any pieces.
#![tactic(auto)]

mod asked;
mod judge;
pub mod laws;
mod nego;
mod numbers;
mod phase;
mod reply;
mod step;

pub use nego::{MAX_NAME_BYTES, Nego, greeting};
pub use step::{CloseCause, Fed, Step};
