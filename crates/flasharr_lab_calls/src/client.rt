//! A client that sends requests that are alike, and a writer that takes all that it is given.
ghost use Rattle.std.specs.Prelude.{◌≤◌, ◌+◌, length};

use fa_io::WriteBoth;
use std::io::{self, Read, Write};

/// The client's flags, and a GO by an empty name.
static HANDSHAKE: [u8; 26] =
    *b"\x00\x00\x00\x03IHAVEOPT\x00\x00\x00\x07\x00\x00\x00\x06\x00\x00\x00\x00\x00\x00";

/// The bytes of a client: the handshake, and then a request with its data, again and again.
#[derive(Drop)]
pub(crate) struct Client<'a> {
    request: &'a [u8],
    data: &'a [u8],
    left: u32,
    rest: &'a [u8],
    is_data_next: bool,
}

impl<'a> Client<'a> {
    /// A client with this number of requests.
    pub(crate) fn new(request: &'a [u8], data: &'a [u8], count: u32) -> Client<'a> {
        Client {
            request,
            data,
            left: count,
            rest: HANDSHAKE.as_slice(),
            is_data_next: false,
        }
    }

    /// Goes on to the next run of bytes, where there is one.
    fn go_on(&mut self) {
        if self.is_data_next {
            self.rest = self.data;
            self.is_data_next = false;
        } else if self.left > 0 {
            self.left -= 1;
            self.rest = self.request;
            self.is_data_next = true;
        }
    }
}

impl Read for Client<'_> {
    fn read(&mut self, buf: &mut [u8]) -> io::Result<usize> {
        if self.rest.is_empty() {
            self.go_on();
        }
        if self.rest.is_empty() {
            self.go_on();
        }
        let rest = self.rest;
        let n = rest.len().min(buf.len());
        buf[..n].copy_from_slice(&rest[..n]);
        self.rest = &rest[n..];
        Ok(n)
    }
}

/// A writer that moves what it is given into a room, from its beginning each time, and counts it.
#[derive(Drop)]
pub(crate) struct Sink<'a> {
    room: &'a mut [u8],
    /// How many bytes were taken.
    pub(crate) taken: u64,
}

impl<'a> Sink<'a> {
    /// A writer into this room: a call takes no more than it has.
    pub(crate) fn new(room: &'a mut [u8]) -> Sink<'a> {
        Sink { room, taken: 0 }
    }
}

impl Write for Sink<'_> {
    fn write(&mut self, buf: &[u8]) -> io::Result<usize> {
        let n = put(self.room, buf);
        self.taken = self.taken.saturating_add(n as u64);
        Ok(n)
    }

    fn flush(&mut self) -> io::Result<()> {
        Ok(())
    }
}

impl WriteBoth for Sink<'_> {
    fn write_both(&mut self, first: &[u8], second: &[u8]) -> io::Result<usize> {
        let n = put_both(self.room, first, second);
        self.taken = self.taken.saturating_add(n as u64);
        Ok(n)
    }
}

/// Copies as many of the bytes as there is room for to the beginning of the room, and answers how many.
pub(crate) fn put(room: &mut [u8], bytes: &[u8]) -> usize
    ensures given { result ≤ length bytes.now }
    ensures room { result ≤ length room.old }
{
    let n = bytes.len().min(room.len());
    room[..n].copy_from_slice(&bytes[..n]);
    n
}

/// Copies as many of the first bytes and then of the second as there is room for, and answers how many.
fn put_both(room: &mut [u8], first: &[u8], second: &[u8]) -> usize
    ensures { result ≤ length first.now + length second.now }
{
    let n = put(room, first);
    n + put(&mut room[n..], second)
}
