//! Connections whose streams fail.
use crate::rows::{FLAGS, GO, GONE, GREETING, served};
use crate::spelling::joined;
use fa_io::faulty::Faulty;
use fa_session::SessionEnd;
use std::alloc::Global;
use std::test::Fail;

/// A client that asks for the list, goes on, writes a page, reads two and disconnects.
const LIST: &str = "49484156454f5054 00000003 00000000";

const REQUESTS: &str = "25609513 0001 0001 0000000000000001 0000000000000100 00000200 11x512
    25609513 0000 0000 0000000000000002 0000000000000000 00000400
    25609513 0000 0002 0000000000000003 0000000000000000 00000000";

/// The list, and the replies.
const LISTED: &str = "0003e889045565a9 00000003 00000002 00000008 00000004 6469736b
    0003e889045565a9 00000003 00000001 00000000";

const REPLIES: &str = "67446698 00000000 0000000000000001
    67446698 00000000 0000000000000002 00x256 11x512 00x256";

fn client(alloc: Global) -> Result<Vec<u8>, Fail> {
    joined(alloc, &[FLAGS, LIST, GO, REQUESTS])
}

fn server(alloc: Global) -> Result<Vec<u8>, Fail> {
    joined(alloc, &[GREETING, LISTED, GONE, REPLIES])
}

/// How the connection ends in which a call of each stream fails, by its number from 1, and how much of the answer was
/// written. None where something else was, or a call was made behind one that failed.
fn failing(
    alloc: Global,
    said: &[u8],
    answer: &[u8],
    read: u64,
    write: u64,
) -> Option<(SessionEnd, usize)> {
    let mut reader = Faulty::failing(said, 50, read);
    let mut writer = Faulty::failing(Vec::new(alloc), 50, write);
    let ended = served(alloc, &mut reader, &mut writer);
    let told = writer.inner.as_slice();
    if reader.calls <= read && writer.calls <= write && answer.starts_with(told) {
        Some((ended, told.len()))
    } else {
        None
    }
}

/// How many reads there are that fail, and how many writes.
fn failing_calls(alloc: Global, said: &[u8], answer: &[u8]) -> Result<(u32, u32), Fail> {
    let (mut reads, mut writes) = (0u32, 0u32);
    for call in 1..100u64 {
        let (ended, _) = failing(alloc, said, answer, call, 1000).ok_or("a read")?;
        if ended == SessionEnd::ReadFailed {
            reads = reads.saturating_add(1);
        }
        let (ended, told) = failing(alloc, said, answer, 1000, call).ok_or("a write")?;
        if ended == SessionEnd::WriteFailed {
            ensure!(told < answer.len(), at call);
            writes = writes.saturating_add(1);
        }
    }
    Ok((reads, writes))
}

// Of each stream the calls from one of them on fail, for each call that is made.
#[test]
fn each_socket_call_fails(rt: HostRuntime) -> Result<(), Fail> {
    let said = client(rt.alloc())?;
    let answer = server(rt.alloc())?;
    let (reads, writes) = failing_calls(rt.alloc(), &said, &answer)?;
    ensure!(reads == 18 && writes == 26);
    Ok(())
}
