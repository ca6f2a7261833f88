//! What is asked of an array: its events as calls, with their answers, and the looks at it, as traits.
#![tactic(auto)]

mod admitted;
mod call;
mod events;
mod looks;

pub use admitted::Admitted;
pub use call::{Answer, Call};
pub use events::Events;
pub use looks::Looks;
