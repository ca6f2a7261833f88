//! What batches of page reads, plans and certificates are: the words of clauses on them.
#![tactic(auto)]

mod place;
mod unsound;

pub use place::Place;
pub use unsound::Unsound;
