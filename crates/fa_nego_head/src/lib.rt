//! The head of a client's option in the NBD handshake, and whether the option is whole.
#![tactic(auto)]

mod option;

pub use option::{HEAD_LEN, Heard, OPTION_MAGIC, option_in};
