//! The store that an array is to one thread that is alone with it, and that makes all work of its dies, its collector and its rebuilder
//! itself.
#![tactic(auto)]

mod collecting;
mod jobs;
mod rebuilding;
mod requests;
mod solo;
mod whole;

pub use fa_solo_job::Parts;
pub use solo::Solo;
