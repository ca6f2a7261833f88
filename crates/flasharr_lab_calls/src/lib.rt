//! Calls for which the laboratory needs no array: of a store, of digests, slots, plans and sessions, and of an image by itself.
#![tactic(auto)]

mod asking;
mod bare;
mod beside;
mod client;
mod digests;
mod plans;
mod session;
mod slots;

pub use asking::ask;
pub use bare::{Buffers, Run, buffers_of, fits, make_bare, next_slot, run_of, use_bare};
pub use beside::{Beside, do_free};
