//! The bytes of a slot and of an image's header, both ways: what is sealed is opened again, and
//! nothing else is. No call takes memory but those that make or share a [`Payload`].
#![tactic(auto)]

mod eights;
mod fields;
mod header;
pub mod laws;
mod numbers;
mod payload;
mod payload_digest;
mod resealing;
mod tag;

pub use eights::open_all;
pub use header::{Header, open_header, seal_header, seal_header_1};
pub use payload::Payload;
pub use payload_digest::PayloadDigest;
pub use resealing::{open_begun, open_four_begun, reseal};
pub use tag::{Opened, Tag, open, seal, seal_1};
