//! The page map: which dies are live, the last write of each page, and the state of each slot. It is
//! the page map's part of the array's state.
#![tactic(auto)]

mod change;
mod entries;
mod few_copies;
mod finder;
mod links;
mod page_map;
mod rows;
mod tables;
mod tallies;

pub use change::{Change, MapShown, note};
pub use page_map::PageMap;
pub use tallies::less_one;
