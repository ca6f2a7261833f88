//! Laws of the store of one thread, over an array to which nobody else writes meanwhile. Each is the contract of a function with no
//! code. Runs, events and worlds are those of `fa_machine`, turns of a request those of `fa_shared_request`.
//!
//! - Of the array alone: what was written is read back (`writes`), and what a batch answers (`batches`).
//! - Of one request: what a turn asks (`turns`), and what reads, flushes and any request come to (`request_reads`, `request_flushes`,
//!   `requests`); a page that was lost stays lost (`lost`).
//! - Of the whole store: it drives the array over the images of its dies (`driving`), from a mounted beginning (`beginnings`); its
//!   calls (`store_requests`), flushes (`syncs`) and connections (`sessions`), what is open between them (`idle`), the dies that leave
//!   it (`dies`), and the rounds that a read takes (`rounds`).
#![tactic(auto)]

pub mod batches;
pub mod beginnings;
pub mod dies;
pub mod driving;
pub mod idle;
pub mod lost;
pub mod request_flushes;
pub mod request_reads;
pub mod requests;
pub mod rounds;
pub mod sessions;
pub mod store_requests;
pub mod syncs;
pub mod turns;
pub mod writes;
