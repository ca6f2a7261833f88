//! One who looks: a connection of the second listener.
use http_server::{Config, Connection, Service};
use mio::net::TcpStream;
use std::alloc::Global;
use std::hash::RandomState;
use std::io::{self, ErrorKind, Read};
use std::net::Shutdown;
use std::time::{Clock, Duration, Instant};

/// How long a visitor may take, from coming to having gone, in milliseconds, and how long where no place is left for others.
const STAY_MILLISECONDS: u64 = 2000;

const HURRY_MILLISECONDS: u64 = 500;

/// How often a visitor is read from and written to in one turn, at most.
const MAX_STEPS: u32 = 64;

/// Whether a visitor stays.
#[derive(Clone, Copy)]
pub(crate) enum Turn {
    /// More is to come.
    Stays,
    /// There is nothing more to say to it, or it has gone.
    Leaves,
}

/// One who looks.
#[derive(Drop)]
pub(crate) struct Visitor {
    stream: TcpStream,
    connection: Connection,
    came: Instant,
    /// All was answered. What it says still is read and dropped, so that the answer is not cut off.
    is_answered: bool,
}

impl Visitor {
    /// A visitor that comes, which may send no body.
    pub(crate) fn new(
        global: Global,
        keys: RandomState,
        stream: TcpStream,
        came: Instant,
    ) -> Visitor {
        Visitor {
            stream,
            connection: Connection::new(global, keys, config()),
            came,
            is_answered: false,
        }
    }

    /// Whether it has stayed too long, where a place is left for others, or none is.
    pub(crate) fn is_late<R: Clock>(&self, rt: &R, has_room: bool) -> bool {
        is_late(rt, self.came, has_room)
    }

    /// Reads what it says, answers it, and sends what it takes, and waits for nothing.
    pub(crate) fn attend<S: Service>(&mut self, service: &mut S) -> Turn {
        for _ in 0..MAX_STEPS {
            match self.step(service) {
                Ok(true) => {}
                Ok(false) => return Turn::Leaves,
                Err(refused) if refused.kind() == ErrorKind::WouldBlock => return Turn::Stays,
                Err(refused) if refused.kind() == ErrorKind::Interrupted => {}
                Err(_) => return Turn::Leaves,
            }
        }
        Turn::Leaves
    }

    /// Reads or writes once. Whether there may be more to do. The error is the system's, as where there is nothing to read yet.
    fn step<S: Service>(&mut self, service: &mut S) -> io::Result<bool> {
        if self.is_answered {
            return skip(&self.stream);
        }
        self.connection.advance(service);
        if self.connection.wants_write() {
            return send(&mut self.connection, &self.stream);
        }
        if self.connection.is_done() {
            self.is_answered = true;
            self.stream.shutdown(Shutdown::Write)?;
            return Ok(true);
        }
        receive(&mut self.connection, &self.stream)
    }
}

/// How visitors are heard: they may send no body.
fn config() -> Config {
    Config {
        max_body_len: 0,
        ..Config::default()
    }
}

/// Sends what a connection has to say, as far as its stream takes it. Whether it took anything.
fn send(connection: &mut Connection, stream: &TcpStream) -> io::Result<bool> {
    let mut stream = stream;
    Ok(connection.write_to(&mut stream)? > 0)
}

/// Reads what a connection is told.
fn receive(connection: &mut Connection, stream: &TcpStream) -> io::Result<bool> {
    let mut stream = stream;
    connection.read_from(&mut stream)?;
    Ok(true)
}

/// Reads from a stream, and drops it. Whether there was anything.
fn skip(stream: &TcpStream) -> io::Result<bool> {
    let mut stream = stream;
    let mut dropped = [0u8; 4096];
    Ok(stream.read(&mut dropped)? > 0)
}

/// Whether who came then has stayed too long, where a place is left for others, or none is.
fn is_late<R: Clock>(rt: &R, came: Instant, has_room: bool) -> bool {
    let limit = if has_room {
        STAY_MILLISECONDS
    } else {
        HURRY_MILLISECONDS
    };
    match came.elapsed(rt) {
        Ok(stayed) => stayed >= Duration::from_millis(limit),
        Err(_) => true,
    }
}
