//! The batches of reads that are open: the pages of each in the list's order, how each page stands, and its buffer.
#![tactic(auto)]

mod batches;
mod lists;
mod page;
mod pages;
mod pool;

pub use batches::Batches;
pub use page::PageState;
