//! Requests of the NBD transmission phase and the replies to them: 28 bytes in, 16 bytes out, and the
//! decision between. Nothing here allocates.
#![tactic(auto)]

mod decision;
pub mod laws;
mod reply;
mod request;

pub use decision::{Decision, decide};
pub use reply::{REPLY_BYTES, ReplyCode, write_reply};
pub use request::{Command, REQUEST_BYTES, Request, WrongMagic, body_len, read_request};
