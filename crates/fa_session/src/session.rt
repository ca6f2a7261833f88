//! One connection.
ghost use Rattle.std.specs.Prelude.{◌≤◌, length};
ghost use Rattle.fa_io.specs.Streams.{between};
ghost use Rattle.fa_session.specs.Session.{Session};

use crate::handshake::negotiate;
use crate::session_end::SessionEnd;
use crate::transmission::transmit;
use fa_io::{Calls, WriteBoth};
use fa_nego::MAX_NAME_BYTES;
use fa_types::Blocks;
use std::alloc::Allocator;
use std::io::Read;

/// Serves one client from its first byte to the end of the connection: the handshake, in which the
/// export has the name that is given, and then the requests in turn.
///
/// No byte is read beyond those that the session uses. After [`SessionEnd::WriteFailed`] what was
/// written is a prefix of the whole output. The reader and the writer are called at most 2^62
/// times each.
pub fn serve_stream<R: Read, W: WriteBoth, B: Blocks, A: Allocator + Copy>(
    alloc: A,
    reader: &mut R,
    writer: &mut W,
    blocks: &mut B,
    export: &str,
) -> SessionEnd
    requires { length export.now ≤ MAX_NAME_BYTES }
    ensures { let streams = between (R.remaining reader.old) (R.remaining reader.new)
        (W.contents writer.old) (W.contents writer.new) in
        Session B.made export.now (B.view blocks.old).size streams blocks.old blocks.new result }
{
    let mut calls = Calls::new();
    let size = blocks.size();
    match negotiate(alloc, reader, writer, &mut calls, export, size) {
        Ok(()) => transmit(alloc, reader, writer, &mut calls, blocks, size),
        Err(end) => end,
    }
}
