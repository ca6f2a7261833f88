//! The laws over every run of the array's machine, each the contract of a function with no code. Runs, events and
//! worlds are those of `fa_machine`.
#![tactic(auto)]

pub mod answers;
pub mod beginnings;
pub mod calendars;
pub mod chains;
pub mod histories;
pub mod invariants;
pub mod plans;
pub mod promises;
pub mod reads;
pub mod steps;
