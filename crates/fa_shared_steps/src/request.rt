//! Requests, and what each comes to.
ghost use Rattle.std.specs.Prelude.{◌≡◌, ℕ, ◌+◌, ◌*◌, ◌^◌, ◌≤◌};
ghost use Rattle.fa_shared_steps.specs.Ranges.{IsRange};
ghost use Rattle.fa_shared_steps.specs.Tasks.{begin_of, bytes_from as range_from, end_of, task_of, whole_range, within as rule_within};

use crate::range::Range;

/// A request of a block store. Offsets and lengths are in bytes.
#[derive(Clone, Copy)]
pub enum Request {
    /// The bytes of a range.
    Read {
        /// Where the range begins.
        offset: u64,
        /// How many bytes it has.
        len: u64,
    },
    /// Bytes into a range.
    Write {
        /// Where the range begins.
        offset: u64,
        /// How many bytes it has.
        len: u64,
        /// Whether a flush is part of it.
        fua: bool,
    },
    /// Zeros into a range.
    Zero {
        /// Where the range begins.
        offset: u64,
        /// How many bytes it has.
        len: u64,
        /// Whether a flush is part of it.
        fua: bool,
        /// Whether pages that lie wholly in the range become holes.
        hole: bool,
    },
    /// Holes in place of the pages that lie wholly in a range.
    Trim {
        /// Where the range begins.
        offset: u64,
        /// How many bytes it has.
        len: u64,
        /// Whether a flush is part of it.
        fua: bool,
    },
    /// What was written is synced.
    Flush,
}

/// What is written into a range.
#[derive(Clone, Copy, PartialEq, Eq)]
pub enum Fill {
    /// The bytes that come with the request.
    Bytes,
    /// Zeros.
    Zeros,
    /// Zeros, and pages that lie wholly in the range become holes.
    Holes,
}

/// What a request comes to: pages are read, or pages are written, and a flush is made.
#[derive(Clone, Copy)]
pub struct Task {
    /// The bytes that are read or written.
    pub range: Range,
    /// What is written. None where nothing is.
    pub fill: Option<Fill>,
    /// Whether a flush is made at the end.
    pub flush: bool,
}

impl Request {
    /// The offset of the first byte of its range, and how many bytes the range has. A flush has none, at 0.
    pub fn extent(self) -> (u64, u64)
        ensures begin { result.0 ≡ begin_of self }
        ensures end { result.0 + result.1 ≡ end_of self }
    {
        match self {
            Request::Read { offset, len }
            | Request::Write { offset, len, .. }
            | Request::Zero { offset, len, .. }
            | Request::Trim { offset, len, .. } => (offset, len),
            Request::Flush => (0, 0),
        }
    }

    /// Whether a flush is part of it.
    pub fn has_flush(self) -> bool
        ensures { (page_bytes : ℕ) → result ≡ (task_of page_bytes self).flush }
    {
        match self {
            Request::Read { .. } => false,
            Request::Write { fua, .. } | Request::Zero { fua, .. } | Request::Trim { fua, .. } =>
                fua,
            Request::Flush => true,
        }
    }

    /// The same on the bytes from one offset to before another, without a flush. A flush stays what it is.
    pub fn within(self, from: u64, to: u64) -> Request
        requires { from ≤ to }
        ensures end { end_of result ≤ to }
        ensures within { result ≡ rule_within self from to }
    {
        let (offset, len, fua) = (from, to - from, false);
        match self {
            Request::Read { .. } => Request::Read { offset, len },
            Request::Write { .. } => Request::Write { offset, len, fua },
            Request::Zero { hole, .. } => Request::Zero {
                offset,
                len,
                fua,
                hole,
            },
            Request::Trim { .. } => Request::Trim { offset, len, fua },
            Request::Flush => Request::Flush,
        }
    }

    /// What the request comes to, in a store whose pages have so many bytes.
    pub fn task(self, page_bytes: u64) -> Task
        requires some_bytes { 1 ≤ page_bytes }
        requires small { page_bytes ≤ 4096 }
        requires inside { end_of self ≤ 2 ^ 32 }
        ensures task { result ≡ task_of page_bytes self }
        ensures range { IsRange result.range }
    {
        match self {
            Request::Read { offset, len } => Task {
                range: bytes_from(page_bytes, offset, len),
                fill: None,
                flush: false,
            },
            Request::Write { offset, len, fua } => Task {
                range: bytes_from(page_bytes, offset, len),
                fill: Some(Fill::Bytes),
                flush: fua,
            },
            Request::Zero {
                offset,
                len,
                fua,
                hole,
            } => Task {
                range: bytes_from(page_bytes, offset, len),
                fill: Some(if hole { Fill::Holes } else { Fill::Zeros }),
                flush: fua,
            },
            Request::Trim { offset, len, fua } => Task {
                range: whole_pages(page_bytes, offset, len),
                fill: Some(Fill::Holes),
                flush: fua,
            },
            Request::Flush => Task {
                range: bytes_from(page_bytes, 0, 0),
                fill: None,
                flush: true,
            },
        }
    }
}

/// A range of so many bytes.
fn bytes_from(page_bytes: u64, offset: u64, len: u64) -> Range
    requires some_bytes { 1 ≤ page_bytes }
    requires small { page_bytes ≤ 4096 }
    requires inside { offset + len ≤ 2 ^ 32 }
    ensures bytes { result ≡ range_from page_bytes offset len }
    ensures range { IsRange result }
{
    Range {
        page_bytes,
        from: offset,
        to: offset + len,
    }
}

/// The bytes of the pages that lie wholly in a range. Where there is no such page there are none.
fn whole_pages(page_bytes: u64, offset: u64, len: u64) -> Range
    requires some_bytes { 1 ≤ page_bytes }
    requires small { page_bytes ≤ 4096 }
    requires inside { offset + len ≤ 2 ^ 32 }
    ensures whole { result ≡ whole_range page_bytes offset len }
    ensures range { IsRange result }
{
    let first = (offset + (page_bytes - 1)) / page_bytes * page_bytes;
    let past = (offset + len) / page_bytes * page_bytes;
    if first <= past {
        Range {
            page_bytes,
            from: first,
            to: past,
        }
    } else {
        Range {
            page_bytes,
            from: past,
            to: past,
        }
    }
}
