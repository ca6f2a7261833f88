//! A job of a die as it is handed out, how it ended, and whether what a read gave is the copy that was asked for.
#![tactic(auto)]

mod copies;
mod job;
mod outcome;

pub use copies::is_copy;
pub use job::Job;
pub use outcome::Outcome;
