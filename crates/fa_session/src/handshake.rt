//! The handshake of a connection.
ghost use Rattle.std.specs.Prelude.{◌≡◌, ◌<◌, ◌≤◌, length, IfOk, OnOk};
ghost use Rattle.fa_io.specs.Streams.{between};
ghost use Rattle.fa_nego.specs.NegoState.{wanted};
ghost use Rattle.fa_session.specs.Handshake.{HearsOnce, Negotiated};

use crate::session_end::SessionEnd;
use crate::stream_end::HearEnd;
use fa_io::{Calls, read_some, send};
use fa_nego::{MAX_NAME_BYTES, Nego, Step, greeting};
use std::alloc::Allocator;
use std::io::{Read, Write};

/// The most bytes of the client that are read at once.
const MAX_AT_ONCE: usize = 512;

/// Greets the client and negotiates with it, until transmission begins. An `Err` is the end of the
/// connection.
pub(crate) fn negotiate<R: Read, W: Write, A: Allocator + Copy>(
    alloc: A,
    reader: &mut R,
    writer: &mut W,
    calls: &mut Calls,
    export: &str,
    size: u64,
) -> Result<(), SessionEnd>
    requires { length export.now ≤ MAX_NAME_BYTES }
    ensures { let streams = between (R.remaining reader.old) (R.remaining reader.new)
        (W.contents writer.old) (W.contents writer.new) in
        Negotiated export.now size streams result }
{
    send(writer, calls, &greeting())?;
    let mut nego = Nego::new(alloc, export, size);
    'items: loop {
        match hear(alloc, reader, writer, calls, &mut nego)? {
            Step::More => {}
            Step::Go => return Ok(()),
            Step::Aborted => return Err(SessionEnd::Aborted),
            Step::Closed(_) => return Err(SessionEnd::Closed),
        }
    }
}

/// Hears some bytes of the client, no more than the flags or the option that comes needs, and
/// answers them.
fn hear<R: Read, W: Write, A: Allocator>(
    alloc: A,
    reader: &mut R,
    writer: &mut W,
    calls: &mut Calls,
    nego: &mut Nego<'_, A>,
) -> Result<Step, HearEnd>
    requires { 0 < wanted nego.old.stage }
    ensures hears { let streams = between (R.remaining reader.old) (R.remaining reader.new)
        (W.contents writer.old) (W.contents writer.new) in
        HearsOnce streams nego.old nego.new result }
    ensures counted { OnOk result (calls.old.reads < calls.new.reads) }
    ensures same_export { (nego.new.export ≡ nego.old.export) × (nego.new.size ≡ nego.old.size) }
{
    let mut buffer = [0u8; MAX_AT_ONCE];
    let room = nego.wanted().min(MAX_AT_ONCE);
    let n = read_some(reader, calls, &mut buffer[..room])?;
    let Ok(fed) = nego.feed(alloc, &buffer[..n]) else {
        return Err(HearEnd::NoMemory);
    };
    send(writer, calls, fed.out.as_slice())?;
    Ok(fed.step)
}
