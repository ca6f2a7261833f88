//! Replies to the client.
ghost use Rattle.std.specs.Prelude.{◌≡◌, ◌++◌};
ghost use Rattle.fa_cmds.specs.Requests.{reply_bytes};
ghost use Rattle.fa_io.specs.Streams.{Sends};
ghost use Rattle.fa_session.specs.Exchanges.{code_of as code_for};

use fa_cmds::{ReplyCode, write_reply};
use fa_io::{Calls, SendFailed, WriteBoth, send, send_both};
use fa_types::BlockFault;
use std::io::Write;

/// What a refusal of the store is answered with.
pub(crate) fn code_of(fault: BlockFault) -> ReplyCode
    ensures { result ≡ code_for fault }
{
    match fault {
        BlockFault::Lost | BlockFault::Spent => ReplyCode::Io,
        BlockFault::NoRoom => ReplyCode::NoSpace,
        BlockFault::NoMemory => ReplyCode::NoMemory,
    }
}

/// Sends a reply with this code.
pub(crate) fn reply<W: Write>(
    writer: &mut W,
    calls: &mut Calls,
    code: ReplyCode,
    cookie: u64,
) -> Result<(), SendFailed>
    ensures sent { Sends (W.contents writer.old) (W.contents writer.new) (reply_bytes code cookie) result }
    ensures reads { calls.new.reads ≡ calls.old.reads }
{
    send(writer, calls, &write_reply(code, cookie))
}

/// Sends a reply of success and the data that it has, by one call of a writer that takes both.
pub(crate) fn reply_with_data<W: WriteBoth>(
    writer: &mut W,
    calls: &mut Calls,
    cookie: u64,
    bytes: &[u8],
) -> Result<(), SendFailed>
    ensures sent { Sends (W.contents writer.old) (W.contents writer.new)
        (reply_bytes ReplyCode.Success cookie ++ bytes.now) result }
    ensures reads { calls.new.reads ≡ calls.old.reads }
{
    send_both(
        writer,
        calls,
        &write_reply(ReplyCode::Success, cookie),
        bytes,
    )
}
