//! A request of a block store over an array that others use too: how far it is, and what it prepares while the array's lock is free.
#![tactic(auto)]

mod gathering;
mod op;
mod parts;
mod preparing;

pub use op::{Lent, Op};
pub use parts::{Part, TOGETHER, fault_of, has_ended, parts_of, prepare};
