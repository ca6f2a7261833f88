//! Whole requests over an array that is shared, and the block store that it is to one of those who share it.
#![tactic(auto)]

mod array_blocks;
mod context;
mod parts;
mod running;

pub use array_blocks::ArrayBlocks;
