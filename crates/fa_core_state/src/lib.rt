//! The array's state in its containers, of which each shows a piece of it.
#![tactic(auto)]

mod live;
mod state;

pub use live::mark_live;
pub use state::State;
