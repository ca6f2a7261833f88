//! Who watches an array while it is served: what is told of it on standard error, which of its pages were lost, its plans, and how it is for
//! those who ask. It is seen as a `Watched`, so nothing here names an array, and the files stand in `fa_prog_host`.
#![tactic(auto)]

mod census;
mod looker;
mod losses;
mod plan_writing;
mod slow_calls;
mod store;
mod subject;
mod watched;
mod watching;

pub use looker::{Looker, Looking};
pub use losses::Losses;
pub use plan_writing::write_plans;
pub use store::TellingStore;
pub use subject::Subject;
pub use watched::{BLOCKS_A_HOLD, Moment, PAGES_A_HOLD, PLANS_A_HOLD, Sight, Watched};
pub use watching::watch;
