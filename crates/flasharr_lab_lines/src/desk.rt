//! What is kept of an array from one line to the next.
use crate::flying::Jobs;
use crate::lent::Lent;
use crate::records::Records;
use std::alloc::Global;

/// What is kept of an array: its answers, what its events are lent, and the jobs of its dies.
#[derive(Drop)]
pub struct Desk<'a> {
    pub records: Records,
    pub lent: Lent<'a>,
    pub jobs: Jobs<'a>,
}

impl<'a> Desk<'a> {
    /// Nothing is kept yet.
    pub fn new(alloc: Global) -> Desk<'a> {
        Desk {
            records: Records::new(alloc),
            lent: Lent::new(alloc),
            jobs: Jobs::new(alloc),
        }
    }

    /// An array is made or mounted, of which nothing was asked yet.
    pub fn begin_anew(&mut self) {
        self.records.begin_anew();
        self.jobs.forget();
        self.lent.forget();
    }
}
