//! The images of an array before it runs: what their slots hold, and the array that they are.
#![tactic(auto)]

pub mod laws;
mod mounted;
mod pages;
mod recovering;
mod scanning;
mod scanning_side_by_side;
mod slots;

pub use mounted::{Mounted, Report};
pub use pages::{Pages, Places, WrittenPage};
pub use recovering::{recover_found, recover_found_side_by_side};
pub use scanning::{scan, scan_found};
pub use scanning_side_by_side::{scan_found_side_by_side, scan_side_by_side};
pub use slots::content::{DieContents, SlotContent};
