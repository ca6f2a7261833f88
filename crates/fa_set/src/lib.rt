//! A set of numbers below a bound, in which the least member from a number on is found in a few looks.
#![tactic(auto)]

mod number_set;
mod words;

pub use number_set::NumberSet;
