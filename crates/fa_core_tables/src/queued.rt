//! A program that waits for its die.
use fa_machine::Version;
use fa_tag::Payload;
use fa_types::{Die, Page, Slot};
use std::alloc::{Allocator, Global};

/// A program that waits for its die.
#[derive(Drop)]
pub struct QueuedProgram<A: Allocator = Global> {
    /// The die.
    pub die: Die,
    /// The slot that is kept for it.
    pub slot: Slot,
    /// The page.
    pub page: Page,
    /// The write of the page.
    pub version: Version,
    /// What is written. The programs of a write share it.
    pub payload: Payload<A>,
}
