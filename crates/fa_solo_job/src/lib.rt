//! What the store of one thread owns, and one job of a die, from its Take to its Done.
#![tactic(auto)]

mod inner;
mod running;

pub use inner::{Inner, Parts};
pub use running::run_next;
