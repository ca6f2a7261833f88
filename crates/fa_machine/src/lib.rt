//! The array's machine: what the array's state is, and what each of its events does to it. The crate
//! has no code that runs, save the small types that the events answer with. Its definitions stand in
//! `specs/`.
#![tactic(auto)]

mod answers;
mod ids;
mod jobs;
mod places;
mod refusals;

pub use answers::{Copied, Flush, FlushState, HistoryEntry, ReadState};
pub use ids::{BatchId, Block, ClaimId};
pub use jobs::{CollectorStep, Flight, JobKind};
pub use places::{Booking, Copying, Target, Used, Version};
pub use refusals::{
    AbandonRefused, AdmitRefused, AdvanceRefused, ClaimRefused, CommitCopyRefused, CommitRefused,
    FlushRefused, ReserveCopyRefused, ReserveRefused, SpareRefused, WindowRefused,
};
