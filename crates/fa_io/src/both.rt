//! Writers that take two runs of bytes by one call.
ghost use Rattle.std.specs.Prelude.{◌++◌};
ghost use Rattle.std.specs.Io.{WritesAtMost};
ghost use Rattle.std.specs.Io.KnownBytes.{WriteAppends};

use std::alloc::Allocator;
use std::io::{self, IoSlice, Write};
use std::net::TcpStream;

/// A writer that may take two runs of bytes by one call, as a socket does, so that what belongs
/// together is sent together. The `write_vectored` of std's [`Write`] cannot be had of a socket behind a
/// bound: there it is one write after the other, whatever the writer is.
pub trait WriteBoth: Write {
    /// Writes some of the first bytes, or all of them and some of the second, and answers how many. A
    /// writer that does not say otherwise takes one of the two: the first, unless it is empty.
    fn write_both(&mut self, first: &[u8], second: &[u8]) -> io::Result<usize>
        ensures bound { WritesAtMost result (first.now ++ second.now) }
        ensures bytes { WriteAppends (Self.contents self.old) (Self.contents self.new) result (first.now ++ second.now) }
    {
        if first.is_empty() {
            self.write(second)
        } else {
            self.write(first)
        }
    }
}

/// Both by one call of the system.
impl WriteBoth for TcpStream {
    fn write_both(&mut self, first: &[u8], second: &[u8]) -> io::Result<usize> {
        TcpStream::write_vectored(self, &[IoSlice::new(first), IoSlice::new(second)])
    }
}

/// Both by one call of the system.
impl WriteBoth for &TcpStream {
    fn write_both(&mut self, first: &[u8], second: &[u8]) -> io::Result<usize> {
        TcpStream::write_vectored(self, &[IoSlice::new(first), IoSlice::new(second)])
    }
}

/// Both, one behind the other.
impl<A: Allocator> WriteBoth for Vec<u8, A> {
    fn write_both(&mut self, first: &[u8], second: &[u8]) -> io::Result<usize> {
        self.write_vectored(&[IoSlice::new(first), IoSlice::new(second)])
    }
}
