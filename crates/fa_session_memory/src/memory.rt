//! The memory of a connection for the data of its WRITEs.
ghost use Rattle.std.specs.Prelude.{◌≡◌, ◌≤◌, ◌<◌, length, take, max, OnOk, OnErr, IfOk, vec_capacity};
ghost use Rattle.fa_io.specs.Streams.{Skips};
ghost use Rattle.fa_session_memory.specs.Memory.{FillsPart, Receives, IsModest};

use fa_io::{Calls, ReadEnd, fill, skip, skip_through};
use std::alloc::{AllocError, Allocator};
use std::io::Read;

/// The most bytes of memory that are kept from one request to the next: 1 MiB.
pub const MAX_KEPT: usize = 1 << 20;

/// How many bytes of memory are made before any data came, and how many are dropped by one read: 64 KiB.
const STEP: usize = 1 << 16;

/// The most bytes of data that are dropped without asking for memory.
const FEW: usize = 4096;

/// What came of the data of a WRITE.
#[derive(Clone, Copy)]
pub enum Received {
    /// It stands at the front of the memory.
    Whole,
    /// Memory was refused, and the data was read to its end and dropped.
    Dropped,
}

/// The memory for the data of WRITEs. A connection has one, which is used again for each request and
/// grows as data comes.
#[derive(Drop)]
pub struct DataMemory<A: Allocator> {
    /// The bytes of the memory. Data is read in from the front on.
    pub bytes: Vec<u8, A>,
}

impl<A: Allocator> DataMemory<A> {
    /// No memory yet.
    pub fn new(alloc: A) -> DataMemory<A>
        ensures { vec_capacity result.bytes ≡ 0 }
    {
        DataMemory {
            bytes: Vec::new(alloc),
        }
    }

    /// Reads so many bytes of data. Whatever of them came, the memory is at most twice as long, or 64 KiB,
    /// or as long as it was: so a length that is told and not sent takes none.
    pub fn receive<R: Read>(
        &mut self,
        reader: &mut R,
        calls: &mut Calls,
        count: usize,
    ) -> Result<Received, ReadEnd>
        ensures received { Receives (R.remaining reader.old) (R.remaining reader.new) count
            (length self.old.bytes.items) self.new.bytes.items result }
        ensures no_fewer { calls.old.reads ≤ calls.new.reads }
    {
        let mut at = 0;
        'parts: while at < count {
            let Ok(end) = self.room(at, count) else {
                self.drop_data(reader, calls, count - at)?;
                return Ok(Received::Dropped);
            };
            fill_part(reader, calls, self.bytes.as_mut_slice(), at, end)?;
            at = end;
        }
        Ok(Received::Whole)
    }

    /// Reads so many bytes of data, and drops them, 64 KiB a read, or 4,096 bytes where memory is refused.
    pub fn drop_data<R: Read>(
        &mut self,
        reader: &mut R,
        calls: &mut Calls,
        count: usize,
    ) -> Result<(), ReadEnd>
        ensures skipped { Skips (R.remaining reader.old) (R.remaining reader.new) count result }
        ensures modest { IsModest (length self.old.bytes.items) (length self.new.bytes.items) 0 }
        ensures no_fewer { calls.old.reads ≤ calls.new.reads }
    {
        let room = count.min(STEP);
        if count <= FEW || self.lengthen(room).is_err() {
            return skip(reader, calls, count);
        }
        skip_through(reader, calls, count, &mut self.bytes.as_mut_slice()[..room])
    }

    /// The first bytes of the memory.
    pub fn front(&self, count: usize) -> &[u8]
        requires { count ≤ length self.now.bytes.items }
        ensures { result.now ≡ take count self.now.bytes.items }
    {
        &self.bytes.as_slice()[..count]
    }

    /// Lets go of what is more than 1 MiB.
    pub fn let_go(&mut self)
    where
        A: Copy,
        ensures { vec_capacity self.new.bytes ≤ MAX_KEPT }
    {
        self.bytes.truncate(MAX_KEPT);
        self.bytes.shrink_to(MAX_KEPT);
        if self.bytes.capacity() > MAX_KEPT {
            let alloc = *self.bytes.allocator();
            self.bytes = Vec::new(alloc);
        }
    }

    /// Makes room behind the first bytes for more of so many, and answers where that room ends: as far as
    /// the memory goes, or else twice as far as the bytes that are there, and 64 KiB at least.
    fn room(&mut self, at: usize, count: usize) -> Result<usize, AllocError>
        requires more { at < count }
        requires within { at ≤ length self.old.bytes.items }
        ensures further { IfOk result (λ end. at < end) }
        ensures needed { IfOk result (λ end. end ≤ count) }
        ensures made { IfOk result (λ end. end ≤ length self.new.bytes.items) }
        ensures kept { take (length self.old.bytes.items) self.new.bytes.items ≡ self.old.bytes.items }
        ensures modest { IsModest (length self.old.bytes.items) (length self.new.bytes.items) at }
    {
        let had = self.bytes.len();
        if at < had {
            return Ok(had.min(count));
        }
        let end = at.saturating_mul(2).max(STEP).min(count);
        self.lengthen(end)?;
        Ok(end)
    }

    /// Makes the memory at least so many bytes long.
    fn lengthen(&mut self, len: usize) -> Result<(), AllocError>
        ensures done { OnOk result (length self.new.bytes.items ≡ max (length self.old.bytes.items) len) }
        ensures kept { take (length self.old.bytes.items) self.new.bytes.items ≡ self.old.bytes.items }
        ensures refused { OnErr result (self.new.bytes.items ≡ self.old.bytes.items) }
    {
        let had = self.bytes.len();
        if len > had {
            self.bytes.reserve_exact(len - had)?;
            self.bytes.resize(len, 0)?;
        }
        Ok(())
    }
}

/// Reads until a part of a buffer is full.
fn fill_part<R: Read>(
    reader: &mut R,
    calls: &mut Calls,
    buffer: &mut [u8],
    at: usize,
    end: usize,
) -> Result<(), ReadEnd>
    requires ordered { at ≤ end }
    requires within { end ≤ length buffer.old }
    ensures filled { FillsPart (R.remaining reader.old) (R.remaining reader.new) at end buffer.old buffer.new result }
    ensures no_fewer { calls.old.reads ≤ calls.new.reads }
{
    fill(reader, calls, &mut buffer[at..end])
}
