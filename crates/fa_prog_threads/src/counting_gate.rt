//! The gate of the dies' images, which counts their calls.
use fa_jobs::{Gate, ImageCallKind};
use fa_prog_counts::Counts;
use fa_types::Die;

/// A gate that lets each call of an image through, and counts it as it begins and as it ends.
#[derive(Clone, Copy)]
pub(crate) struct CountingGate<'a> {
    /// Where they are counted.
    pub counts: &'a Counts,
}

impl Gate for CountingGate<'_> {
    fn before(&self, die: Die, _call: ImageCallKind) {
        if let Some(counts) = self.counts.die(die) {
            counts.begin();
        }
    }

    fn after(&self, die: Die, call: ImageCallKind) {
        if let Some(counts) = self.counts.die(die) {
            counts.end(place_of(call));
        }
    }
}

/// The place of a call among the names of calls.
fn place_of(call: ImageCallKind) -> usize {
    match call {
        ImageCallKind::ReadSlot => 0,
        ImageCallKind::Program => 1,
        ImageCallKind::Move => 2,
        ImageCallKind::EraseBlock => 3,
        ImageCallKind::WriteHeader => 4,
        ImageCallKind::Sync => 5,
    }
}
