//! One read and one write, and what the answer to it means.
ghost use Rattle.std.specs.Prelude.{◌≡◌, ◌<◌, ◌++◌, length};
ghost use Rattle.fa_io.specs.Answers.{kind_of, meaning_of_read, meaning_of_write, fault_of_kind};
ghost use Rattle.fa_io.specs.Streams.{ReadsOnce, WritesOnce};

use crate::both::WriteBoth;
use std::io::{self, ErrorKind, Read, Write};

/// The fault of a read or a write: an error that is no interruption, or that a write took no byte. Only
/// a read or a write that was made gives a value of this type.
#[derive(Clone, Copy, Debug, PartialEq, Eq)]
pub struct CallFault {
    kind: ErrorKind,
}

impl CallFault {
    /// The kind of the error, [`ErrorKind::WriteZero`] for a write that took no byte.
    pub fn kind(self) -> ErrorKind
        ensures { result ≡ kind_of self }
    {
        self.kind
    }
}

/// The write took no byte.
const TOOK_NOTHING: CallFault = CallFault {
    kind: ErrorKind::WriteZero,
};

/// What one answer of a reader to a buffer with room means.
#[derive(Clone, Copy)]
pub(crate) enum ReadMeaning {
    /// So many bytes came, at least one.
    Bytes(usize),
    /// The end of input.
    EndOfInput,
    /// The read was interrupted: it is made again.
    Again,
    /// The read failed.
    Failed(CallFault),
}

/// What one answer of a writer to some bytes means.
#[derive(Clone, Copy)]
pub(crate) enum WriteMeaning {
    /// So many bytes were taken, at least one.
    Bytes(usize),
    /// The write was interrupted: it is made again.
    Again,
    /// The write failed, or took no byte.
    Failed(CallFault),
}

/// Reads once into a buffer with room, and answers what came of it.
pub(crate) fn read_once<R: Read>(reader: &mut R, into: &mut [u8]) -> ReadMeaning
    requires { 0 < length into.old }
    ensures { ReadsOnce (R.remaining reader.old) (R.remaining reader.new) into.new result }
{
    read_meaning(reader.read(into))
}

/// Writes once some of the bytes, and answers what came of it.
pub(crate) fn write_once<W: Write>(writer: &mut W, bytes: &[u8]) -> WriteMeaning
    requires { 0 < length bytes.now }
    ensures { WritesOnce (W.contents writer.old) (W.contents writer.new) bytes.now result }
{
    write_meaning(writer.write(bytes))
}

/// Writes once some of the first bytes and of the second, as many as are taken at once, and answers what
/// came of it.
pub(crate) fn write_both_once<W: WriteBoth>(
    writer: &mut W,
    first: &[u8],
    second: &[u8],
) -> WriteMeaning
    requires { 0 < length first.now }
    ensures { WritesOnce (W.contents writer.old) (W.contents writer.new) (first.now ++ second.now) result }
{
    write_meaning(writer.write_both(first, second))
}

/// What an answer of a reader to a buffer with room means.
fn read_meaning(answer: io::Result<usize>) -> ReadMeaning
    ensures { result ≡ meaning_of_read answer }
{
    match answer {
        Ok(0) => ReadMeaning::EndOfInput,
        Ok(n) => ReadMeaning::Bytes(n),
        Err(error) => match fault_of(error.kind()) {
            None => ReadMeaning::Again,
            Some(fault) => ReadMeaning::Failed(fault),
        },
    }
}

/// What an answer of a writer to some bytes means.
fn write_meaning(answer: io::Result<usize>) -> WriteMeaning
    ensures { result ≡ meaning_of_write answer }
{
    match answer {
        Ok(0) => WriteMeaning::Failed(TOOK_NOTHING),
        Ok(n) => WriteMeaning::Bytes(n),
        Err(error) => match fault_of(error.kind()) {
            None => WriteMeaning::Again,
            Some(fault) => WriteMeaning::Failed(fault),
        },
    }
}

/// The fault that an error of this kind is, unless it is an interruption.
fn fault_of(kind: ErrorKind) -> Option<CallFault>
    ensures { result ≡ fault_of_kind kind }
{
    match kind {
        ErrorKind::Interrupted => None,
        kind => Some(CallFault { kind }),
    }
}
