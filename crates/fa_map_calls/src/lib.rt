//! What a page map is: its calls, and what each changes of which dies are live, the last write of each page, and the state of each slot.
#![tactic(auto)]

mod map;
mod slots;

pub use map::Map;
pub use slots::{BlockCounts, SlotState};
