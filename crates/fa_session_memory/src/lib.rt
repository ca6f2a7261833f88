//! The memory of a connection for the data of its WRITEs, where a length that is told and not sent takes none.
#![tactic(auto)]

mod memory;

pub use memory::{DataMemory, MAX_KEPT, Received};
