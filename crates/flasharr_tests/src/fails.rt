//! A connection whose writer takes nothing.
use crate::rows::{FLAGS, GO, served};
use crate::spelling::joined;
use fa_io::faulty::Faulty;
use fa_session::SessionEnd;
use std::alloc::Global;
use std::test::Fail;

/// A client that writes a page, reads it and the next, and disconnects.
const REQUESTS: &str = "25609513 0001 0001 0000000000000001 0000000000000200 00000200 11x512
    25609513 0000 0000 0000000000000002 0000000000000200 00000400
    25609513 0000 0002 0000000000000003 0000000000000000 00000000";

fn client(alloc: Global) -> Result<Vec<u8>, Fail> {
    joined(alloc, &[FLAGS, GO, REQUESTS])
}

/// Whether the connection of a client ends at the first write, with nothing read, where the writer takes nothing.
fn ends_at_once(alloc: Global, said: &[u8]) -> bool {
    let mut reader = Faulty::piecewise(said, 4096);
    let mut writer = Faulty::piecewise(Vec::new(alloc), 0);
    let ended = served(alloc, &mut reader, &mut writer);
    ended == SessionEnd::WriteFailed && writer.calls == 1 && reader.calls == 0
}

#[test]
fn a_writer_that_takes_nothing(rt: HostRuntime) -> Result<(), Fail> {
    let said = client(rt.alloc())?;
    ensure!(ends_at_once(rt.alloc(), &said));
    Ok(())
}
