//! The rounds in which dies are closed, as spans: what a planner and an array look rounds up in.
#![tactic(auto)]

mod closed;
mod spans;

pub use closed::{Closed, Run, end_soon};
pub use spans::{Span, Spans, count_covered, covers, index_from, nth_uncovered};
