//! Reads that are counted. Unlike `read_exact`, these say what was read before a fault.
ghost use Rattle.std.specs.Prelude.{◌≡◌, ◌<◌, ◌≤◌, ◌^◌, Err, length, OnOk};
ghost use Rattle.fa_io.specs.Streams.{Gets, Fills, Skips};

use crate::answers::{CallFault, ReadMeaning, read_once};
use crate::calls::Calls;
use std::io::Read;
use thiserror::Error;

/// Why no byte came.
#[derive(Clone, Copy, Debug, PartialEq, Eq, Error)]
pub enum ReadEnd {
    /// The input has ended.
    #[error("the input has ended")]
    EndOfInput,
    /// A read failed.
    #[error("a read failed")]
    Failed(CallFault),
    /// 2^62 reads were made.
    #[error("too many reads")]
    TooManyReads,
}

/// The most bytes that `skip` drops at once.
const MAX_DROPPED: usize = 4096;

/// Reads at least one byte, and as many more as come with it. A read that was interrupted is made
/// again.
pub fn read_some<R: Read>(
    reader: &mut R,
    calls: &mut Calls,
    into: &mut [u8],
) -> Result<usize, ReadEnd>
    requires { 0 < length into.old }
    ensures got { Gets (R.remaining reader.old) (R.remaining reader.new) into.new result }
    ensures limit { result ≡ Err ReadEnd.TooManyReads → calls.new.reads ≡ 2 ^ 62 }
    ensures counted { OnOk result (calls.old.reads < calls.new.reads) }
    ensures no_fewer { calls.old.reads ≤ calls.new.reads }
{
    while calls.count_read() {
        match read_once(reader, into) {
            ReadMeaning::Bytes(n) => return Ok(n),
            ReadMeaning::EndOfInput => return Err(ReadEnd::EndOfInput),
            ReadMeaning::Again => {}
            ReadMeaning::Failed(fault) => return Err(ReadEnd::Failed(fault)),
        }
    }
    Err(ReadEnd::TooManyReads)
}

/// Reads until the buffer is full.
pub fn fill<R: Read>(reader: &mut R, calls: &mut Calls, into: &mut [u8]) -> Result<(), ReadEnd>
    ensures filled { Fills (R.remaining reader.old) (R.remaining reader.new) into.new result }
    ensures limit { result ≡ Err ReadEnd.TooManyReads → calls.new.reads ≡ 2 ^ 62 }
    ensures counted { OnOk result (0 < length into.old → calls.old.reads < calls.new.reads) }
    ensures no_fewer { calls.old.reads ≤ calls.new.reads }
{
    let mut at = 0;
    while at < into.len() {
        at += read_some(reader, calls, &mut into[at..])?;
    }
    Ok(())
}

/// Reads so many bytes, and drops them, up to 4,096 a read.
pub fn skip<R: Read>(reader: &mut R, calls: &mut Calls, count: usize) -> Result<(), ReadEnd>
    ensures skipped { Skips (R.remaining reader.old) (R.remaining reader.new) count result }
    ensures limit { result ≡ Err ReadEnd.TooManyReads → calls.new.reads ≡ 2 ^ 62 }
    ensures no_fewer { calls.old.reads ≤ calls.new.reads }
{
    let mut buffer = [0u8; MAX_DROPPED];
    skip_through(reader, calls, count, &mut buffer)
}

/// Reads so many bytes into a buffer, and drops them, as many a read as the buffer has room for.
pub fn skip_through<R: Read>(
    reader: &mut R,
    calls: &mut Calls,
    count: usize,
    buffer: &mut [u8],
) -> Result<(), ReadEnd>
    requires { 0 < length buffer.old }
    ensures skipped { Skips (R.remaining reader.old) (R.remaining reader.new) count result }
    ensures limit { result ≡ Err ReadEnd.TooManyReads → calls.new.reads ≡ 2 ^ 62 }
    ensures no_fewer { calls.old.reads ≤ calls.new.reads }
{
    let mut done = 0;
    while done < count {
        let room = (count - done).min(buffer.len());
        done += read_some(reader, calls, &mut buffer[..room])?;
    }
    Ok(())
}
