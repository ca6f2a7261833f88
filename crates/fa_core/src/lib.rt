//! The array's core: the array as it is mounted, and each event of it as a call. What the events do stands in the crates below.
#![tactic(auto)]

mod array;
mod conditions;
mod dies;
mod distinct;
mod events;
mod flushing;
mod looks;
mod readers;
mod step;
mod turning;
mod writers;

pub use array::Array;
pub use fa_core_calls::{Admitted, Answer, Call};
pub use fa_core_outcome::{Job, Outcome};
pub use fa_plan::Planned;
