//! What is counted of the plans that are written for who checks them.
use crate::sessions::{add, value};
use std::sync::atomic::AtomicU64;

/// What became of the plans that were taken to be written.
#[derive(Drop)]
pub struct PlanFileCounts {
    written: AtomicU64,
    unfit: AtomicU64,
    failed: AtomicU64,
}

impl PlanFileCounts {
    /// None yet.
    pub(crate) fn new() -> PlanFileCounts {
        PlanFileCounts {
            written: AtomicU64::new(0),
            unfit: AtomicU64::new(0),
            failed: AtomicU64::new(0),
        }
    }

    /// So many were written.
    pub fn note_written(&self, plans: u64) {
        add(&self.written, plans);
    }

    /// One does not fit the limits of the file, or the check refuses it.
    pub fn note_unfit(&self) {
        add(&self.unfit, 1);
    }

    /// So many could not be written.
    pub fn note_failed(&self, plans: u64) {
        add(&self.failed, plans);
    }

    /// What they have come to.
    pub fn totals(&self) -> PlanFileTotals {
        PlanFileTotals {
            written: value(&self.written),
            unfit: value(&self.unfit),
            failed: value(&self.failed),
        }
    }
}

/// How many of the plans that were taken to be written ended how.
#[derive(Clone, Copy)]
pub struct PlanFileTotals {
    /// They were written.
    pub written: u64,
    /// They do not fit the limits of the file, or are refused by the check.
    pub unfit: u64,
    /// They could not be written.
    pub failed: u64,
}
