//! Jobs that are handed out to dies, over the array's state.
#![tactic(auto)]

mod collecting;
mod header;
mod jobs;
pub mod laws;
mod programs;
mod reading;
mod taking;

pub use taking::{has_job, take};
