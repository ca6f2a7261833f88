//! Requests that are alike through a session, and the same bytes moved without one.
use crate::asking::EXPORT;
use crate::client::{Client, Sink, put};
use fa_plain_store::MemBlocks;
use fa_session::{SessionEnd, serve_stream};
use fa_types::Blocks;
use flasharr_lab_parts::{Meter, Tools};
use flasharr_lab_words::small_at;
use std::alloc::{AllocError, Global};

/// How many bytes the store has, and the longest request.
const STORE_BYTES: u32 = 1_048_576;

/// The bytes that a writer takes at once: the longest reply.
const ROOM_BYTES: usize = 1_048_576 + 16;

/// The bytes of a reply without its data.
const REPLY_BYTES: u64 = 16;

/// The bytes that the server says before transmission: the greeting, and the two answers to a GO.
const GREETED_BYTES: u64 = 18 + 32 + 20;

/// Requests that are alike.
#[derive(Clone, Copy)]
struct Load {
    is_write: bool,
    /// The bytes of each.
    length: u32,
    /// How many there are.
    count: u32,
}

/// What requests are made with.
#[derive(Drop)]
struct Plain {
    store: MemBlocks,
    /// Where a writer puts what it is given.
    room: Vec<u8>,
    /// The bytes that a client has.
    said: Vec<u8>,
}

/// Serves requests of these numbers over a plain store, or moves their bytes without a session, and tells whether that was done.
pub(crate) fn time_session(
    numbers: &[u64],
    tools: &mut Tools<'_>,
    is_write: bool,
    is_served: bool,
) {
    let load = Load {
        is_write,
        length: small_at(numbers, 0).min(STORE_BYTES),
        count: small_at(numbers, 1),
    };
    match plain_of(tools.alloc) {
        Ok(mut plain) => {
            let is_done = time_load(tools.alloc, &mut plain, load, is_served, &mut tools.meter);
            tools
                .output
                .word(if is_done { "served" } else { "not served" });
        }
        Err(_) => tools.output.fail(),
    }
}

/// A plain store, and what its requests are made with. The error is out of memory.
fn plain_of(alloc: Global) -> Result<Plain, AllocError> {
    Ok(Plain {
        store: MemBlocks::new(alloc, u64::from(STORE_BYTES))?,
        room: vec![in alloc; 0u8; ROOM_BYTES]?,
        said: vec![in alloc; 0x5au8; STORE_BYTES as usize]?,
    })
}

/// Serves a load, or moves its bytes, once. Whether all was done.
fn time_load(
    alloc: Global,
    plain: &mut Plain,
    load: Load,
    is_served: bool,
    meter: &mut Meter<'_>,
) -> bool {
    let Plain { store, room, said } = plain;
    let start = meter.start();
    let is_done = if is_served {
        serve(alloc, store, room.as_mut_slice(), said.as_slice(), load)
    } else {
        copy(alloc, store, room.as_mut_slice(), said.as_slice(), load)
    };
    meter.stop(start);
    is_done
}

/// Serves a load. False where the server did not say all that it should.
fn serve(alloc: Global, store: &mut MemBlocks, room: &mut [u8], said: &[u8], load: Load) -> bool {
    let (number, data, given) = if load.is_write {
        (1u8, load.length as usize, 0)
    } else {
        (0u8, 0, u64::from(load.length))
    };
    let request = request_of(number, load.length);
    let data = said.get(..data).unwrap_or(&[]);
    let mut client = Client::new(&request, data, load.count);
    let mut sink = Sink::new(room);
    let ended = serve_stream(alloc, &mut client, &mut sink, store, EXPORT);
    let replied = (REPLY_BYTES + given).saturating_mul(u64::from(load.count));
    ended == SessionEnd::InputEnded && sink.taken == replied.saturating_add(GREETED_BYTES)
}

/// The 28 bytes of a request at the beginning of the store.
fn request_of(number: u8, length: u32) -> [u8; 28] {
    let mut bytes = [0u8; 28];
    bytes[..4].copy_from_slice(&[0x25, 0x60, 0x95, 0x13]);
    bytes[7] = number;
    bytes[24..].copy_from_slice(&length.to_be_bytes());
    bytes
}

/// Moves the bytes of a load as a session has to: from the client's into a buffer and from there into the store, or out of the store and to
/// where a writer would put them. False where one of its calls is not made.
fn copy(alloc: Global, store: &mut MemBlocks, room: &mut [u8], said: &[u8], load: Load) -> bool {
    let bytes = said.get(..load.length as usize).unwrap_or(&[]);
    let Ok(buffer) = Vec::from_slice(alloc, bytes) else {
        return false;
    };
    let mut buffer = buffer;
    for _ in 0..load.count {
        let is_moved = if load.is_write {
            copy_in(store, buffer.as_mut_slice(), bytes)
        } else {
            copy_out(alloc, store, room, load.length)
        };
        if !is_moved {
            return false;
        }
    }
    true
}

/// Copies bytes out of the store, into memory of their own, and from there into the room.
fn copy_out(alloc: Global, store: &mut MemBlocks, room: &mut [u8], length: u32) -> bool {
    if u64::from(length) > store.size() {
        return false;
    }
    match store.read(alloc, 0, u64::from(length)) {
        Ok(bytes) => put(room, &bytes) == bytes.len(),
        Err(_) => false,
    }
}

/// Copies bytes into a buffer, and from there into the store.
fn copy_in(store: &mut MemBlocks, buffer: &mut [u8], bytes: &[u8]) -> bool {
    if buffer.len() as u64 > store.size() || put(buffer, bytes) < buffer.len() {
        return false;
    }
    store.write(0, buffer, false).is_ok()
}
