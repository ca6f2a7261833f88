//! Histories that only clauses read, in no memory: what one shows is passed from call to call. One of them tells what a file holds after each
//! call of it.
#![tactic(auto)]

mod deed;
mod history;

pub use deed::{FileContents, note_failed, note_kept, note_read, note_synced, note_written};
pub use history::History;
