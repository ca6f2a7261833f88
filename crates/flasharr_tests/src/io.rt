//! Streams that are interrupted and that fail, and how often they are called.
use fa_io::faulty::Faulty;
use fa_io::{Calls, ReadEnd, SendFailed, fill, send, send_all, skip};
use std::alloc::Global;
use std::io::ErrorKind;
use std::test::Fail;

/// The bytes that are read and written.
const BYTES: &[u8] = b"twenty bytes or some";

/// Whether all bytes are read through interruptions, by so many calls.
fn reads_through(reads: u64) -> bool {
    let mut calls = Calls::new();
    let mut reader = Faulty::interrupted(BYTES, 7);
    let mut into = [0u8; 20];
    fill(&mut reader, &mut calls, &mut into) == Ok(())
        && into.as_slice() == BYTES
        && calls.reads == reads
}

/// Whether all bytes are written through interruptions, by so many calls.
fn writes_through(alloc: Global, writes: u64) -> bool {
    let mut calls = Calls::new();
    let mut writer = Faulty::interrupted(Vec::new(alloc), 1);
    send(&mut writer, &mut calls, BYTES) == Ok(())
        && writer.inner.as_slice() == BYTES
        && calls.writes == writes
}

#[test]
fn reads_and_writes_through_interruptions(rt: HostRuntime) -> Result<(), Fail> {
    ensure!(reads_through(6) && writes_through(rt.alloc(), 40));
    Ok(())
}

/// Whether the read of this number fails, with so many bytes left to read.
fn read_fails(fails_at: u64, left: usize) -> bool {
    let mut reader = Faulty::failing(BYTES, 7, fails_at);
    match fill(&mut reader, &mut Calls::new(), &mut [0; 20]) {
        Err(ReadEnd::Failed(fault)) => {
            fault.kind() == ErrorKind::BrokenPipe
                && reader.inner.len() == left
                && reader.calls == fails_at
        }
        _ => false,
    }
}

/// Whether the write of this number fails, with so many bytes written.
fn write_fails(alloc: Global, fails_at: u64, written: usize) -> bool {
    let mut writer = Faulty::failing(Vec::new(alloc), 7, fails_at);
    match send_all(&mut writer, BYTES) {
        Err(SendFailed::Failed(fault)) => {
            fault.kind() == ErrorKind::BrokenPipe
                && writer.inner.len() == written
                && writer.calls == fails_at
        }
        _ => false,
    }
}

/// Whether a writer that takes nothing is called once, and that is told.
fn fails_where_nothing_is_taken(alloc: Global) -> bool {
    let mut writer = Faulty::piecewise(Vec::new(alloc), 0);
    match send_all(&mut writer, BYTES) {
        Err(SendFailed::Failed(fault)) => {
            fault.kind() == ErrorKind::WriteZero && writer.calls == 1
        }
        _ => false,
    }
}

#[test]
fn fails_with_what_was_read_or_written(rt: HostRuntime) -> Result<(), Fail> {
    for (fails_at, left, written) in [(1, 20, 0), (2, 13, 7), (3, 6, 14)] {
        ensure!(
            read_fails(fails_at, left) && write_fails(rt.alloc(), fails_at, written),
            at fails_at
        );
    }
    ensure!(fails_where_nothing_is_taken(rt.alloc()));
    Ok(())
}

/// Bytes that are dropped are asked for 4,096 at a time.
#[test]
fn skips_as_much_as_the_buffer_holds() -> Result<(), Fail> {
    let bytes = [0u8; 9000];
    let mut reader = bytes.as_slice();
    let mut calls = Calls::new();
    ensure!(
        skip(&mut reader, &mut calls, 8500) == Ok(()) && reader.len() == 500 && calls.reads == 3
    );
    Ok(())
}
