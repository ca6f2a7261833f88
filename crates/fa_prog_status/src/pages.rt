//! How many pages of an array are of which sort.
use std::alloc::{AllocError, Global};

/// How many ranges of lost pages are kept.
const MAX_RANGES: usize = 10_000;

/// How many pages there are of each sort.
#[derive(Clone, Copy)]
pub struct PageCounts {
    /// Pages that were ever written.
    pub written: u64,
    /// Those of them that have fewer copies than there could be.
    pub thin: u64,
    /// Those that have none.
    pub lost: u64,
    /// How many copies the written pages could have that are not lost.
    pub wanted: u64,
    /// How many of these they have.
    pub made: u64,
}

impl PageCounts {
    /// None.
    const NONE: PageCounts = PageCounts {
        written: 0,
        thin: 0,
        lost: 0,
        wanted: 0,
        made: 0,
    };

    /// One more page that was written, which has so many copies of those that it could have.
    fn note(&mut self, copies: u64, wanted: u64) {
        self.written = self.written.saturating_add(1);
        if copies == 0 {
            self.lost = self.lost.saturating_add(1);
            return;
        }
        if copies < wanted {
            self.thin = self.thin.saturating_add(1);
        }
        self.wanted = self.wanted.saturating_add(wanted);
        self.made = self.made.saturating_add(copies.min(wanted));
    }
}

/// Pages from one on, up to another.
#[derive(Clone, Copy)]
pub struct Range {
    /// The first.
    pub first: u64,
    /// The last.
    pub last: u64,
}

/// What was counted of the pages of an array.
#[derive(Drop)]
pub struct PageStatus {
    /// How many there are of each sort.
    pub counts: PageCounts,
    /// The ranges of the lost ones, of which the first 10,000 are kept.
    pub lost: Vec<Range>,
    /// There are more such ranges.
    pub has_more: bool,
}

impl PageStatus {
    /// Nothing was counted yet.
    pub fn new(global: Global) -> PageStatus {
        PageStatus {
            counts: PageCounts::NONE,
            lost: Vec::new(global),
            has_more: false,
        }
    }

    /// They are counted anew.
    pub fn clear(&mut self) {
        self.counts = PageCounts::NONE;
        self.lost.clear();
        self.has_more = false;
    }

    /// One more page that was written, which has so many copies of those that it could have. The pages rise. The error is out of memory.
    pub fn note(&mut self, page: u64, copies: u64, wanted: u64) -> Result<(), AllocError> {
        self.counts.note(copies, wanted);
        if copies == 0 {
            self.note_lost(page)?;
        }
        Ok(())
    }

    /// One more lost page.
    fn note_lost(&mut self, page: u64) -> Result<(), AllocError> {
        if let Some(range) = self.lost.last_mut() {
            if range.last.checked_add(1) == Some(page) {
                range.last = page;
                return Ok(());
            }
        }
        if self.lost.len() >= MAX_RANGES {
            self.has_more = true;
            return Ok(());
        }
        self.lost.push(Range {
            first: page,
            last: page,
        })?;
        Ok(())
    }
}
