//! What a Commit does to the page map: the write is its page's last, and its slots on live dies hold the page.
#![tactic(auto)]

mod renewing;

pub use renewing::replace_copies;
