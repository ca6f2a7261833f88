//! A stream that is slow or fails, for tests: it is over another reader or writer.
ghost use Rattle.std.specs.Prelude.{◌≡◌};

use crate::both::WriteBoth;
use std::io::{self, ErrorKind, Read, Write};

/// Gives or takes at most so many bytes a call, and some calls of it may fail. A reader gives at least one byte, where it has one; a writer of
/// none takes nothing.
#[derive(Drop)]
pub struct Faulty<T> {
    pub inner: T,
    pub max_bytes: usize,
    /// The call of this number, from 1, fails with a broken pipe, and so do those behind it.
    pub fails_at: u64,
    /// Every other call is interrupted, the first among them.
    pub is_interrupted: bool,
    /// How many calls were made.
    pub calls: u64,
}

impl<T> Faulty<T> {
    /// At most so many bytes a call. None fails.
    pub fn piecewise(inner: T, max_bytes: usize) -> Faulty<T>
        ensures { (result.inner ≡ inner) × (result.max_bytes ≡ max_bytes) × (result.calls ≡ 0) }
    {
        Faulty {
            inner,
            max_bytes,
            fails_at: u64::MAX,
            is_interrupted: false,
            calls: 0,
        }
    }

    /// At most so many bytes a call. It fails at its call of this number, from 1, and from then on.
    pub fn failing(inner: T, max_bytes: usize, fails_at: u64) -> Faulty<T>
        ensures { (result.inner ≡ inner) × (result.max_bytes ≡ max_bytes) × (result.fails_at ≡ fails_at) × (result.calls ≡ 0) }
    {
        Faulty {
            fails_at,
            ..Faulty::piecewise(inner, max_bytes)
        }
    }

    /// At most so many bytes a call. Every other call is interrupted, the first among them; the next goes through.
    pub fn interrupted(inner: T, max_bytes: usize) -> Faulty<T>
        ensures { (result.inner ≡ inner) × (result.max_bytes ≡ max_bytes) × (result.calls ≡ 0) }
    {
        Faulty {
            is_interrupted: true,
            ..Faulty::piecewise(inner, max_bytes)
        }
    }

    /// Counts a call. The error is that of one that fails or is interrupted.
    fn begin(&mut self) -> io::Result<()>
        ensures { (self.new.inner ≡ self.old.inner) × (self.new.max_bytes ≡ self.old.max_bytes) }
    {
        self.calls = self.calls.saturating_add(1);
        if self.calls >= self.fails_at {
            return Err(io::Error::from(ErrorKind::BrokenPipe));
        }
        if self.is_interrupted && self.calls % 2 == 1 {
            return Err(io::Error::from(ErrorKind::Interrupted));
        }
        Ok(())
    }
}

impl<R: Read> Read for Faulty<R> {
    ghost remaining = { λ s. R.remaining s.inner };

    fn read(&mut self, buf: &mut [u8]) -> io::Result<usize> {
        self.begin()?;
        let room = buf.len().min(self.max_bytes.max(1));
        self.inner.read(&mut buf[..room])
    }
}

impl<W: Write> Write for Faulty<W> {
    ghost contents = { λ s. W.contents s.inner };

    fn write(&mut self, buf: &[u8]) -> io::Result<usize> {
        self.begin()?;
        let room = buf.len().min(self.max_bytes);
        self.inner.write(&buf[..room])
    }

    fn flush(&mut self) -> io::Result<()> {
        self.inner.flush()
    }
}

impl<W: WriteBoth> WriteBoth for Faulty<W> {
    fn write_both(&mut self, first: &[u8], second: &[u8]) -> io::Result<usize> {
        if first.len() >= self.max_bytes {
            return self.write(first);
        }
        self.begin()?;
        let room = second.len().min(self.max_bytes - first.len());
        self.inner.write_both(first, &second[..room])
    }
}
