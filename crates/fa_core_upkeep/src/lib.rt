//! The events of the collector, of the round and of the rebuilder, over the array's state: a die's window, a round that passes, a spare
//! that comes in, one more copy of a thin page, and flushes. Besides, the fold of the history, the
//! looks that tell conditions, and the state as it begins over what was mounted.
#![tactic(auto)]

mod beginning;
mod copying;
mod flushing;
mod history;
mod looks;
mod rounds;
mod settling;
mod spares;
mod syncs;
mod windows;

pub use beginning::begin;
pub use copying::reserve_copy;
pub use flushing::flush_begin;
pub use history::{counts, fold, history_full};
pub use looks::{batch_open, claim_open, copy_open, is_busy, is_reserved, job_kind};
pub use rounds::advance;
pub use settling::commit_copy;
pub use spares::spare_in;
pub use syncs::flush_state;
pub use windows::window;
