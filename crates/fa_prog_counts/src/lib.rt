//! What is counted while an array is served: requests and how long they took, calls of images, and clients. Each thread counts in places of
//! its own, which whoever looks adds up, and nothing here takes the array's lock.
#![tactic(auto)]

mod commands;
mod counts;
mod dies;
mod latency;
mod plans;
mod sessions;
mod store;

pub use commands::{COMMANDS, Command};
pub use counts::Counts;
pub use dies::{CALLS, DieCounts, die_of};
pub use latency::{BUCKETS, bound_of, bucket_of};
pub use plans::{PlanFileCounts, PlanFileTotals};
pub use sessions::{ERRORS, RequestTotals, SessionCounts, Totals};
pub use store::CountingStore;
