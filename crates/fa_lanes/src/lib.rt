//! SHA-256 (FIPS 180-4) of eight messages of one length side by side, in the lanes of vectors. The digests are
//! those of `sha2`, which they are proved to be. No call takes memory.
#![tactic(auto)]

mod alone;
mod begun;
mod four;
mod hash;
mod messages;
mod rounds;
mod tail;
mod wide_rounds;
mod wide_words;
mod words;

pub use begun::{Begun, begin, begin_four};
pub use four::{WIDE_LANES, digests_of_four, fronts_of_four};
pub use messages::{LANES, digest_all, digests};
