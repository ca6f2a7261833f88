//! A job that is handed out.
use fa_machine::Flight;
use fa_tag::Payload;
use std::alloc::{Allocator, Global};

/// A job that is handed out to a die.
#[derive(Drop)]
pub struct Job<A: Allocator = Global> {
    /// What it is to do.
    pub flight: Flight,
    /// What a program writes. Another job has none.
    pub payload: Option<Payload<A>>,
    /// Whether it is a program by which the die comes to hold a page that was written before: what was programmed is then synced before
    /// the job ends.
    pub lasting: bool,
}
