//! Transmission: the client's requests, served in turn.
ghost use Rattle.std.specs.Prelude.{◌≡◌, ◌<◌, ◌≤◌, OnOk, vec_capacity};
ghost use Rattle.fa_io.specs.Streams.{between};
ghost use Rattle.fa_session.specs.Exchanges.{Transmitted};
ghost use Rattle.fa_session.specs.Serving.{ServesOne};

use crate::exchange::{decline, perform};
use crate::session_end::SessionEnd;
use fa_cmds::{Decision, REQUEST_BYTES, decide, read_request};
use fa_io::{Calls, WriteBoth, fill};
use fa_session_memory::{DataMemory, MAX_KEPT};
use fa_types::Blocks;
use std::alloc::Allocator;
use std::io::Read;

/// Serves requests to a store of this size until the connection ends.
pub(crate) fn transmit<R: Read, W: WriteBoth, B: Blocks, A: Allocator + Copy>(
    alloc: A,
    reader: &mut R,
    writer: &mut W,
    calls: &mut Calls,
    blocks: &mut B,
    size: u64,
) -> SessionEnd
    requires { size ≡ (B.view blocks.old).size }
    ensures { let streams = between (R.remaining reader.old) (R.remaining reader.new)
        (W.contents writer.old) (W.contents writer.new) in
        Transmitted B.made size streams blocks.old blocks.new result }
{
    let mut memory = DataMemory::new(alloc);
    'requests: loop {
        match serve_request(alloc, reader, writer, calls, &mut memory, blocks, size) {
            Ok(()) => memory.let_go(),
            Err(end) => return end,
        }
    }
}

/// Reads one request and serves it, with the memory that is kept between requests, of 1 MiB at most. An
/// `Err` is the end of the connection.
fn serve_request<R: Read, W: WriteBoth, B: Blocks, A: Allocator>(
    alloc: A,
    reader: &mut R,
    writer: &mut W,
    calls: &mut Calls,
    memory: &mut DataMemory<A>,
    blocks: &mut B,
    size: u64,
) -> Result<(), SessionEnd>
    requires size { size ≡ (B.view blocks.old).size }
    requires little_kept { vec_capacity memory.old.bytes ≤ MAX_KEPT }
    ensures served { let streams = between (R.remaining reader.old) (R.remaining reader.new)
        (W.contents writer.old) (W.contents writer.new) in
        ServesOne B.made size streams blocks.old blocks.new result }
    ensures size { OnOk result ((B.view blocks.new).size ≡ (B.view blocks.old).size) }
    ensures counted { OnOk result (calls.old.reads < calls.new.reads) }
{
    let mut head = [0u8; REQUEST_BYTES];
    fill(reader, calls, &mut head)?;
    let Ok(request) = read_request(&head) else {
        return Err(SessionEnd::Closed);
    };
    match decide(request, size) {
        Decision::Disconnect => Err(SessionEnd::Disconnected),
        Decision::Refuse(code) => Ok(decline(reader, writer, calls, memory, request, code)?),
        Decision::Do => Ok(perform(alloc, reader, writer, calls, memory, blocks, size, request)?),
    }
}
