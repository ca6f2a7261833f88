//! What the collector of a die does: the block that it empties, its next step, and whether it wants a window. Each is
//! the array's rule of what the page map shows. No call takes memory.
#![tactic(auto)]

mod collector;

pub use collector::{next_step, victim, wants_window};
