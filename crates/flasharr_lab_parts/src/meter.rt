//! What is timed, and within what memory is counted and refused.
use crate::heap::Heap;
use std::alloc::Global;
use std::time::Instant;

/// The clock and the heap, around the calls that lines ask for.
#[derive(Drop)]
pub struct Meter<'a> {
    pub rt: &'a HostRuntime,
    pub heap: &'a Heap,
    /// Whether the line that is done is timed.
    is_timing: bool,
    /// The nanoseconds of the calls that the line has made this time.
    now: u64,
    /// Those of each time that it was done before.
    took: Vec<u64>,
}

impl<'a> Meter<'a> {
    /// Nothing is timed yet.
    pub fn new(rt: &'a HostRuntime, heap: &'a Heap) -> Meter<'a> {
        Meter {
            rt,
            heap,
            is_timing: false,
            now: 0,
            took: Vec::new(rt.alloc()),
        }
    }

    /// The next line is timed or not.
    pub fn begin(&mut self, is_timing: bool) {
        self.is_timing = is_timing;
        self.now = 0;
        self.took.clear();
    }

    /// Whether the line that is done is timed.
    pub fn is_timing(&self) -> bool {
        self.is_timing
    }

    /// The line was done once.
    pub fn note(&mut self) {
        // What finds no memory is left out.
        let _ = self.took.push(self.now);
        self.now = 0;
    }

    /// The nanoseconds of each time that the line was done.
    pub fn took(&self) -> &[u64] {
        self.took.as_slice()
    }

    /// A call begins: memory is counted, and the moment is taken where the line is timed.
    pub fn start(&self) -> Option<Instant> {
        self.heap.watch(true);
        self.moment()
    }

    /// The call that began at this moment ends.
    pub fn stop(&mut self, start: Option<Instant>) {
        let end = self.moment();
        self.heap.watch(false);
        if let (Some(start), Some(end)) = (start, end) {
            let nanoseconds = end.duration_since(start).as_nanos();
            let nanoseconds = u64::try_from(nanoseconds).unwrap_or(u64::MAX);
            self.now = self.now.saturating_add(nanoseconds);
        }
    }

    fn moment(&self) -> Option<Instant> {
        if self.is_timing {
            Instant::now(self.rt).ok()
        } else {
            None
        }
    }
}
