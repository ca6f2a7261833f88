//! A client's connection as its session uses it: requests are read ahead, and replies are held until the client has nothing more to say.
ghost use Rattle.std.specs.Prelude.{◌≤◌, length};

use crate::accept_queue::AcceptQueue;
use crate::socket::receive;
use byteorder::{BigEndian, ByteOrder};
use fa_io::WriteBoth;
use fa_prog_counts::SessionCounts;
use std::alloc::{AllocError, Global};
use std::cell::{Cell, RefCell};
use std::io::{self, ErrorKind, Read, Write};
use std::net::TcpStream;
use std::time::{Clock, Duration, Instant};

/// How many bytes are read ahead at most.
const AHEAD_BYTES: usize = 8192;

/// How long a socket is looked at again and again before it is waited for, in microseconds.
const LOOK_MICROSECONDS: u64 = 50;

/// How often a socket is looked at before it is waited for, at most.
const MAX_LOOKS: u32 = 1000;

/// How many bytes of replies are held at most.
const HELD_BYTES: usize = 65_536;

/// How many bytes a reply without data has, and the number that begins each reply. NBD protocol text, "Simple reply message".
const REPLY_BYTES: usize = 16;

const REPLY_MAGIC: u32 = 0x6744_6698;

/// Memory for a connection. It is made before the session's thread is started.
#[derive(Drop)]
pub struct ConnectionMemory {
    ahead: Vec<u8>,
    held: Vec<u8>,
}

impl ConnectionMemory {
    /// Memory for both sides. The error is out of memory.
    pub fn new(global: Global) -> Result<ConnectionMemory, AllocError> {
        Ok(ConnectionMemory {
            ahead: vec![in global; 0u8; AHEAD_BYTES]?,
            held: Vec::with_capacity(global, HELD_BYTES)?,
        })
    }
}

/// The two sides of a connection: what was read ahead, and the replies that are held. It is used for one client after another.
#[derive(Drop)]
pub(crate) struct Connection {
    ahead: Ahead,
    held: HeldReplies,
}

impl Connection {
    /// A connection in this memory.
    pub(crate) fn new(memory: ConnectionMemory) -> Connection {
        let ConnectionMemory { ahead, held } = memory;
        Connection {
            ahead: Ahead {
                bytes: ahead,
                from: 0,
                to: 0,
            },
            held: HeldReplies {
                replies: RefCell::new(held),
                has_last_word: Cell::new(false),
            },
        }
    }

    /// The reader and the writer of a client whose stream this is, among those who were let in here. Of the client before nothing is left.
    pub(crate) fn sides<'a, R: Clock>(
        &'a mut self,
        rt: &'a R,
        accept_queue: &'a AcceptQueue,
        counts: Option<&'a SessionCounts>,
        stream: &'a TcpStream,
    ) -> (RequestReader<'a, R>, ReplyWriter<'a>) {
        let Connection { ahead, held } = self;
        ahead.clear();
        held.clear();
        let held = &*held;
        let reader = RequestReader {
            rt,
            accept_queue,
            stream,
            ahead,
            held,
            has_heard: false,
        };
        let writer = ReplyWriter {
            stream,
            held,
            counts,
        };
        (reader, writer)
    }
}

/// Bytes that were read and not used yet.
#[derive(Drop)]
struct Ahead {
    bytes: Vec<u8>,
    from: usize,
    to: usize,
}

impl Ahead {
    /// Nothing was read.
    fn clear(&mut self) {
        self.from = 0;
        self.to = 0;
    }

    /// Whether all that was read is used.
    fn is_empty(&self) -> bool {
        self.from >= self.to
    }

    /// Reads as much as there is, and waits where there is nothing.
    fn fill(&mut self, stream: &TcpStream) -> io::Result<()> {
        let mut stream = stream;
        let count = stream.read(self.bytes.as_mut_slice())?;
        self.from = 0;
        self.to = count;
        Ok(())
    }

    /// Reads as much as there is, for which it looks for a while. Whether the client has said something, or nothing more is to come.
    fn look<R: Clock>(&mut self, rt: &R, stream: &TcpStream) -> bool {
        let Ok(start) = Instant::now(rt) else {
            return false;
        };
        for _ in 0..MAX_LOOKS {
            if let Some(count) = receive(stream, self.bytes.as_mut_slice()) {
                self.from = 0;
                self.to = count;
                return true;
            }
            if has_passed(rt, start) {
                return false;
            }
        }
        false
    }

    /// Gives the next bytes, as many as there are and as fit, and answers how many these are.
    fn give(&mut self, out: &mut [u8]) -> usize
        ensures { result ≤ length out.old }
    {
        let rest = self.bytes.get(self.from..self.to).unwrap_or(&[]);
        let count = rest.len().min(out.len());
        out[..count].copy_from_slice(&rest[..count]);
        self.from = self.from.saturating_add(count);
        count
    }
}

/// Whether a socket was looked at long enough since then.
fn has_passed<R: Clock>(rt: &R, start: Instant) -> bool {
    match start.elapsed(rt) {
        Ok(took) => took >= Duration::from_micros(LOOK_MICROSECONDS),
        Err(_) => true,
    }
}

/// Replies that were not sent yet.
#[derive(Drop)]
struct HeldReplies {
    // Both sides of a connection use it, and never at once.
    replies: RefCell<Vec<u8>>,
    // The session has said something since it used what the client said.
    has_last_word: Cell<bool>,
}

impl HeldReplies {
    /// None is held.
    fn clear(&self) {
        if let Ok(mut replies) = self.replies.try_borrow_mut() {
            replies.clear();
        }
        self.has_last_word.set(false);
    }

    /// Holds these bytes, one run behind the other, if there is room.
    fn push(&self, first: &[u8], second: &[u8]) -> bool {
        let Ok(mut replies) = self.replies.try_borrow_mut() else {
            return false;
        };
        let room = HELD_BYTES.saturating_sub(replies.len());
        if first.len() > room || second.len() > room - first.len() {
            return false;
        }
        let len = replies.len();
        if replies.extend_from_slice(first).is_ok() && replies.extend_from_slice(second).is_ok() {
            return true;
        }
        replies.truncate(len);
        false
    }

    /// Sends all that is held. Where it cannot be sent it is given up.
    fn send(&self, stream: &TcpStream) -> io::Result<()> {
        let Ok(mut replies) = self.replies.try_borrow_mut() else {
            return Err(io::Error::from(ErrorKind::Other));
        };
        if replies.is_empty() {
            return Ok(());
        }
        let mut stream = stream;
        let sent = stream.write_all(replies.as_slice());
        replies.clear();
        sent
    }
}

/// Reads requests, and sends the replies that are held before it waits for a client. Between requests it waits as long as the client likes.
/// For the first byte of a client, and for the rest of what it began to say, it waits no longer than the socket's limit for reads.
///
/// Where few clients are served it looks at the socket for a while before it waits, since a client that was just answered often has more to
/// say at once, and it takes longer to be woken than to look.
#[derive(Drop)]
pub(crate) struct RequestReader<'a, R: Clock> {
    rt: &'a R,
    accept_queue: &'a AcceptQueue,
    stream: &'a TcpStream,
    ahead: &'a mut Ahead,
    held: &'a HeldReplies,
    // The client has said something.
    has_heard: bool,
}

impl<'a, R: Clock> RequestReader<'a, R> {
    /// Reads more of what the client says.
    fn fill(&mut self) -> io::Result<()> {
        if self.accept_queue.has_few_clients() && self.ahead.look(self.rt, self.stream) {
            return Ok(());
        }
        for _ in 0..u64::MAX {
            match self.ahead.fill(self.stream) {
                Err(fault) if is_timeout(fault.kind()) && self.is_between_requests() => {}
                filled => return filled,
            }
        }
        Ok(())
    }

    /// Whether the client was answered all that it has said.
    fn is_between_requests(&self) -> bool {
        self.has_heard && self.held.has_last_word.get()
    }
}

impl<'a, R: Clock> Read for RequestReader<'a, R> {
    fn read(&mut self, buf: &mut [u8]) -> io::Result<usize> {
        if self.ahead.is_empty() {
            self.held.send(self.stream)?;
            if buf.len() >= AHEAD_BYTES {
                let mut stream = self.stream;
                return stream.read(buf);
            }
            self.fill()?;
        }
        self.has_heard = true;
        self.held.has_last_word.set(false);
        Ok(self.ahead.give(buf))
    }
}

/// Whether a read has come to the socket's limit of time.
fn is_timeout(kind: ErrorKind) -> bool {
    matches!(kind, ErrorKind::WouldBlock | ErrorKind::TimedOut)
}

/// Holds replies as long as there is room for them, and sends them before what is too long to be held. Replies with an error are counted.
#[derive(Drop)]
pub(crate) struct ReplyWriter<'a> {
    stream: &'a TcpStream,
    held: &'a HeldReplies,
    counts: Option<&'a SessionCounts>,
}

impl ReplyWriter<'_> {
    /// Counts the error of a reply, if it has one.
    fn count(&self, reply: &[u8]) {
        if let (Some(counts), Some(number)) = (self.counts, error_of(reply)) {
            counts.note_error(number);
        }
    }
}

/// The number of the error of a reply without data. None where it has none, or where the bytes are no such reply.
fn error_of(reply: &[u8]) -> Option<u32> {
    if reply.len() != REPLY_BYTES || BigEndian::read_u32(&reply[..4]) != REPLY_MAGIC {
        return None;
    }
    match BigEndian::read_u32(&reply[4..8]) {
        0 => None,
        number => Some(number),
    }
}

impl<'a> Write for ReplyWriter<'a> {
    fn write(&mut self, buf: &[u8]) -> io::Result<usize> {
        self.held.has_last_word.set(true);
        if self.held.push(buf, &[]) {
            self.count(buf);
            return Ok(buf.len());
        }
        self.held.send(self.stream)?;
        let mut stream = self.stream;
        let count = stream.write(buf)?;
        if count == buf.len() {
            self.count(buf);
        }
        Ok(count)
    }

    fn flush(&mut self) -> io::Result<()> {
        self.held.send(self.stream)
    }
}

impl<'a> WriteBoth for ReplyWriter<'a> {
    fn write_both(&mut self, first: &[u8], second: &[u8]) -> io::Result<usize> {
        self.held.has_last_word.set(true);
        if let Some(len) = first.len().checked_add(second.len()) {
            if self.held.push(first, second) {
                return Ok(len);
            }
        }
        self.held.send(self.stream)?;
        let mut stream = self.stream;
        stream.write_both(first, second)
    }
}
