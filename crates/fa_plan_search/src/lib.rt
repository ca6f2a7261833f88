//! The search for a die that reads one more page of a batch, and the pages that it reached.
#![tactic(auto)]

mod pages;
mod walk;

pub use pages::{all_pages, reached_pages};
pub use walk::{Tables, Walk, search};
