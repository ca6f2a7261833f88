//! An array over its images: mounted from them, and closed.
#![tactic(auto)]

mod array;
mod beginning;
mod closing;
mod fitting;
pub mod laws;
mod losing;
mod masks;
mod mounting;
mod recovering;
mod standings;
mod telling;

pub use array::MountedArray;
pub use closing::{CloseFault, close_clean};
pub use mounting::{mount, mount_found, mount_found_side_by_side};
pub use recovering::{recover, recover_found, recover_found_side_by_side};
