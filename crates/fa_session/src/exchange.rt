//! What is done with one request.
ghost use Rattle.std.specs.Prelude.{◌≡◌, ◌≢◌, ◌+◌, ◌≤◌, [], length};
ghost use Rattle.fa_cmds.specs.Requests.{decision, body_length, IsToDo};
ghost use Rattle.fa_io.specs.Streams.{between};
ghost use Rattle.fa_session.specs.Serving.{Declines, AnswersRequest, AsksStore};
ghost use Rattle.fa_cmds.specs.declared.decision.Decision.TheVariants.{Do};

use crate::replies::{code_of, reply, reply_with_data};
use crate::stream_end::StreamEnd;
use fa_cmds::{Command, ReplyCode, Request, body_len};
use fa_io::{Calls, SendFailed, WriteBoth};
use fa_session_asking::ask;
use fa_session_memory::{DataMemory, Received};
use fa_types::Blocks;
use std::alloc::Allocator;
use std::io::{Read, Write};

/// Drops the data of a request, and replies with a code. The store is not asked.
pub(crate) fn decline<R: Read, W: Write, A: Allocator>(
    reader: &mut R,
    writer: &mut W,
    calls: &mut Calls,
    memory: &mut DataMemory<A>,
    request: Request,
    code: ReplyCode,
) -> Result<(), StreamEnd>
    ensures declined { let streams = between (R.remaining reader.old) (R.remaining reader.new)
        (W.contents writer.old) (W.contents writer.new) in
        Declines request code streams result }
    ensures no_fewer { calls.old.reads ≤ calls.new.reads }
{
    memory.drop_data(reader, calls, body_len(request) as usize)?;
    Ok(reply(writer, calls, code, request.cookie)?)
}

/// Does what a request asks for, and replies.
pub(crate) fn perform<R: Read, W: WriteBoth, B: Blocks, A: Allocator>(
    alloc: A,
    reader: &mut R,
    writer: &mut W,
    calls: &mut Calls,
    memory: &mut DataMemory<A>,
    blocks: &mut B,
    size: u64,
    request: Request,
) -> Result<(), StreamEnd>
    requires decided { decision request size ≡ Do }
    requires to_do { IsToDo request size }
    requires size { size ≡ (B.view blocks.old).size }
    ensures answered { let streams = between (R.remaining reader.old) (R.remaining reader.new)
        (W.contents writer.old) (W.contents writer.new) in
        AnswersRequest B.made size request streams blocks.old blocks.new result }
    ensures size { (B.view blocks.new).size ≡ (B.view blocks.old).size }
    ensures no_fewer { calls.old.reads ≤ calls.new.reads }
{
    match request.command {
        Command::Read => Ok(give(alloc, writer, calls, blocks, size, request)?),
        Command::Write => take(reader, writer, calls, memory, blocks, size, request),
        _ => Ok(change(writer, calls, blocks, size, request, &[])?),
    }
}

/// Asks the store for the bytes of a READ, and replies.
fn give<W: WriteBoth, B: Blocks, A: Allocator>(
    alloc: A,
    writer: &mut W,
    calls: &mut Calls,
    blocks: &mut B,
    size: u64,
    request: Request,
) -> Result<(), SendFailed>
    requires command { request.command ≡ Command.Read }
    requires decided { decision request size ≡ Do }
    requires within { request.offset + request.length ≤ (B.view blocks.old).size }
    ensures asks { AsksStore B.made size request [] (W.contents writer.old) (W.contents writer.new)
        blocks.old blocks.new result }
    ensures size { (B.view blocks.new).size ≡ (B.view blocks.old).size }
    ensures reads { calls.new.reads ≡ calls.old.reads }
{
    match blocks.read(alloc, request.offset, u64::from(request.length)) {
        Ok(bytes) => reply_with_data(writer, calls, request.cookie, bytes.as_slice()),
        Err(fault) => reply(writer, calls, code_of(fault), request.cookie),
    }
}

/// Reads the data of a WRITE, hands it to the store, and replies.
fn take<R: Read, W: Write, B: Blocks, A: Allocator>(
    reader: &mut R,
    writer: &mut W,
    calls: &mut Calls,
    memory: &mut DataMemory<A>,
    blocks: &mut B,
    size: u64,
    request: Request,
) -> Result<(), StreamEnd>
    requires command { request.command ≡ Command.Write }
    requires decided { decision request size ≡ Do }
    requires to_do { IsToDo request size }
    requires size { size ≡ (B.view blocks.old).size }
    ensures answered { let streams = between (R.remaining reader.old) (R.remaining reader.new)
        (W.contents writer.old) (W.contents writer.new) in
        AnswersRequest B.made size request streams blocks.old blocks.new result }
    ensures size { (B.view blocks.new).size ≡ (B.view blocks.old).size }
    ensures no_fewer { calls.old.reads ≤ calls.new.reads }
{
    let len = request.length as usize;
    match memory.receive(reader, calls, len)? {
        Received::Whole => Ok(change(writer, calls, blocks, size, request, memory.front(len))?),
        Received::Dropped => Ok(reply(writer, calls, ReplyCode::NoMemory, request.cookie)?),
    }
}

/// Asks the store for what a request with this data wants that is no READ, and replies.
fn change<W: Write, B: Blocks>(
    writer: &mut W,
    calls: &mut Calls,
    blocks: &mut B,
    size: u64,
    request: Request,
    body: &[u8],
) -> Result<(), SendFailed>
    requires no_read { request.command ≢ Command.Read }
    requires decided { decision request size ≡ Do }
    requires to_do { IsToDo request size }
    requires whole { length body.now ≡ body_length request }
    requires size { size ≡ (B.view blocks.old).size }
    ensures asks { AsksStore B.made size request body.now (W.contents writer.old) (W.contents writer.new)
        blocks.old blocks.new result }
    ensures size { (B.view blocks.new).size ≡ (B.view blocks.old).size }
    ensures reads { calls.new.reads ≡ calls.old.reads }
{
    match ask(blocks, request, body) {
        Ok(()) => reply(writer, calls, ReplyCode::Success, request.cookie),
        Err(fault) => reply(writer, calls, code_of(fault), request.cookie),
    }
}
