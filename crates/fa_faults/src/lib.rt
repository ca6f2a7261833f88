//! Why dies went out, and the last of these faults, kept.
#![tactic(auto)]

mod faults;

pub use faults::{Cause, Fault, Faults, MAX_FAULTS, fault_of};
