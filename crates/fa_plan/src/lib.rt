//! The planner: which die reads each page of a batch, and in which round, such that no plan has fewer
//! rounds, with the pages that show it, and plans as they are kept for who checks them.
#![tactic(auto)]

mod alone;
mod bound;
mod closings;
mod entry;
mod giving;
mod layout;
mod log;
mod note;
mod planner;
mod shortage;
mod workspace;

pub use entry::PlanEntry;
pub use log::{LogCounts, MAX_PAGES_WAITING, MAX_WAITING, PlanLog};
pub use note::PlanNote;
pub use planner::{Planned, plan, plan_in};
pub use workspace::Workspace;
