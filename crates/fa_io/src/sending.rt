//! Writes that are counted. Unlike `write_all`, these say what was written before a fault.
ghost use Rattle.std.specs.Prelude.{◌≡◌, ◌<◌, ◌≤◌, ◌^◌, ◌++◌, Err, IfErr, length};
ghost use Rattle.fa_io.specs.Streams.{Sends, EndsWriting};

use crate::answers::{CallFault, WriteMeaning, write_both_once, write_once};
use crate::both::WriteBoth;
use crate::calls::Calls;
use std::io::Write;
use thiserror::Error;

/// Why not all bytes were written.
#[derive(Clone, Copy, Debug, PartialEq, Eq, Error)]
pub enum SendFailed {
    /// A write failed, or took no byte.
    #[error("a write failed")]
    Failed(CallFault),
    /// 2^62 writes were made.
    #[error("too many writes")]
    TooManyWrites,
}

/// Writes all of the bytes, or a prefix of them where a write fails. A write that was interrupted is made
/// again.
pub fn send<W: Write>(writer: &mut W, calls: &mut Calls, bytes: &[u8]) -> Result<(), SendFailed>
    ensures sent { Sends (W.contents writer.old) (W.contents writer.new) bytes.now result }
    ensures cause { IfErr result EndsWriting }
    ensures limit { result ≡ Err SendFailed.TooManyWrites → calls.new.writes ≡ 2 ^ 62 }
    ensures reads { calls.new.reads ≡ calls.old.reads }
{
    let mut rest = bytes;
    while !rest.is_empty() {
        if !calls.count_write() {
            return Err(SendFailed::TooManyWrites);
        }
        match write_once(writer, rest) {
            WriteMeaning::Bytes(n) => rest = &rest[n..],
            WriteMeaning::Again => {}
            WriteMeaning::Failed(fault) => return Err(SendFailed::Failed(fault)),
        }
    }
    Ok(())
}

/// Writes all of the first bytes and then all of the second, or a prefix where a write fails. As long as
/// some of the first are left a write is offered both, so that a writer that takes both gets them by one
/// call. A write that was interrupted is made again.
pub fn send_both<W: WriteBoth>(
    writer: &mut W,
    calls: &mut Calls,
    first: &[u8],
    second: &[u8],
) -> Result<(), SendFailed>
    ensures sent { Sends (W.contents writer.old) (W.contents writer.new) (first.now ++ second.now) result }
    ensures cause { IfErr result EndsWriting }
    ensures limit { result ≡ Err SendFailed.TooManyWrites → calls.new.writes ≡ 2 ^ 62 }
    ensures reads { calls.new.reads ≡ calls.old.reads }
{
    let mut rest = first;
    while !rest.is_empty() {
        if !calls.count_write() {
            return Err(SendFailed::TooManyWrites);
        }
        match write_both_once(writer, rest, second) {
            WriteMeaning::Bytes(n) => {
                if n > rest.len() {
                    return send(writer, calls, &second[n - rest.len()..]);
                }
                rest = &rest[n..];
            }
            WriteMeaning::Again => {}
            WriteMeaning::Failed(fault) => return Err(SendFailed::Failed(fault)),
        }
    }
    send(writer, calls, second)
}

/// Writes all of the bytes, or a prefix of them where a write fails. A write that was interrupted is made
/// again; at most 2^62 writes are made.
pub fn send_all<W: Write>(writer: &mut W, bytes: &[u8]) -> Result<(), SendFailed>
    ensures sent { Sends (W.contents writer.old) (W.contents writer.new) bytes.now result }
    ensures cause { IfErr result EndsWriting }
{
    send(writer, &mut Calls::new(), bytes)
}
