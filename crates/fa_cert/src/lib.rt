//! The check of a certificate that a batch of reads takes the least number of rounds. It trusts
//! nobody: neither the planner that made a plan nor the text that it came in.
#![tactic(auto)]

mod checker;
pub mod laws;
mod verdict;

pub use checker::{check, holders_of};
pub use verdict::{Refusal, Verdict};
