//! The names that every layer shares: numbers of pages, dies, slots and rounds, the geometry of an
//! array, and the trait of a block store.
#![tactic(auto)]

mod blocks;
pub mod bytes;
mod copies;
mod geometry;
mod kind;
pub mod laws;
mod numbers;
mod rounds;
mod sizes;
mod window;

pub use blocks::{BlockFault, Blocks};
pub use copies::Copies;
pub use geometry::{Geometry, GeometryFault};
pub use kind::Kind;
pub use numbers::{Die, Page, Round, Seq, Slot};
pub use rounds::Rounds;
pub use sizes::{HEADER_BYTES, TAG_BYTES};
pub use window::Window;
