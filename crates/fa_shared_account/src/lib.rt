//! An event of an array that several use, and the account of its Commits.
#![tactic(auto)]

mod counting;

pub use counting::make_counted;
