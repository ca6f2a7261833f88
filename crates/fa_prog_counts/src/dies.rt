//! What is counted of the calls of the dies' images.
use crate::sessions::{add, value, zeros};
use fa_types::Die;
use std::alloc::{AllocError, Global};
use std::sync::atomic::{AtomicU64, Ordering};

/// What the calls of an image are called, each at its place.
pub const CALLS: [&str; 6] = ["read", "program", "move", "erase", "header", "sync"];

/// The die of this number. An array has no more than 64.
pub fn die_of(number: usize) -> Die {
    match u8::try_from(number) {
        Ok(number) => Die(number),
        Err(_) => Die(u8::MAX),
    }
}

/// What was counted of the image of one die, whose calls are made one at a time.
#[derive(Drop)]
pub struct DieCounts {
    /// Calls that have begun.
    begun: AtomicU64,
    /// Calls that have ended, by their places.
    ended: Vec<AtomicU64>,
    /// For how long the call under way has lasted, in milliseconds, once that is told. 0 where none is told.
    slow: AtomicU64,
}

impl DieCounts {
    /// No call yet. The error is out of memory.
    pub(crate) fn new(global: Global) -> Result<DieCounts, AllocError> {
        Ok(DieCounts {
            begun: AtomicU64::new(0),
            ended: zeros(global, CALLS.len())?,
            slow: AtomicU64::new(0),
        })
    }

    /// A call begins.
    pub fn begin(&self) {
        add(&self.begun, 1);
    }

    /// A call has ended, which has this place among [`CALLS`].
    pub fn end(&self, place: usize) {
        if let Some(count) = self.ended.get(place) {
            add(count, 1);
        }
    }

    /// How many calls have ended, by their places.
    pub fn ended(&self) -> [u64; 6] {
        let mut ended = [0; 6];
        for place in 0..6 {
            if let Some(count) = self.ended.get(place) {
                ended[place] = value(count);
            }
        }
        ended
    }

    /// The number of the call that is under way, from 1. None where none is.
    pub fn under_way(&self) -> Option<u64> {
        let mut ended = 0u64;
        for count in &self.ended {
            ended = ended.saturating_add(value(count));
        }
        let begun = value(&self.begun);
        if begun > ended { Some(begun) } else { None }
    }

    /// Tells for how long the call under way has lasted, in milliseconds.
    pub fn tell_slow(&self, milliseconds: u64) {
        self.slow.store(milliseconds, Ordering::SeqCst);
    }

    /// For how long the call under way has lasted, in milliseconds, where that is told.
    pub fn slow(&self) -> Option<u64> {
        match value(&self.slow) {
            0 => None,
            milliseconds => Some(milliseconds),
        }
    }
}
