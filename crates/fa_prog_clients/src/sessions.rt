//! A session of the server: it serves one client after another.
use crate::accept_queue::AcceptQueue;
use crate::connection::{Connection, ConnectionMemory};
use crate::export::Export;
use crate::host::Networked;
use crate::socket::prepare;
use fa_prog_counts::SessionCounts;
use fa_prog_host::tell;
use fa_session::{SessionEnd, serve_stream};
use fa_types::Blocks;
use std::io::Write;
use std::net::{SocketAddr, TcpStream};

/// How a session serves clients.
#[derive(Clone, Copy)]
pub struct Service<'a> {
    /// The session's number, from 0 and below the number of sessions that the accept queue is for. No two sessions of an accept queue share
    /// it.
    pub number: usize,
    /// The export's name. A name that is too long for the protocol is served to nobody: each client is closed at once.
    pub name: &'a str,
    /// Clients that come and go are told on standard error.
    pub verbose: bool,
}

/// Serves a store to one client after another until the accept queue is closed, and counts clients and the errors that they are answered.
/// It blocks its thread.
pub fn serve_clients<R: Networked, B: Blocks>(
    rt: &R,
    accept_queue: &AcceptQueue,
    service: Service<'_>,
    counts: Option<&SessionCounts>,
    connection: ConnectionMemory,
    blocks: &mut B,
) {
    let mut connection = Connection::new(connection);
    for _ in rt.forever() {
        let Some(stream) = accept_queue.next_client(rt, service.number) else {
            break;
        };
        if let Some(counts) = counts {
            counts.note_client();
        }
        if let Some(export) = Export::of(service.name) {
            serve_client(
                rt,
                accept_queue,
                counts,
                &stream,
                &mut connection,
                blocks,
                export,
                service.verbose,
            );
        }
        accept_queue.leave(rt, service.number);
    }
}

/// Serves a client to the end of its connection.
fn serve_client<R: Networked, B: Blocks>(
    rt: &R,
    accept_queue: &AcceptQueue,
    counts: Option<&SessionCounts>,
    stream: &TcpStream,
    connection: &mut Connection,
    blocks: &mut B,
    export: Export<'_>,
    verbose: bool,
) {
    prepare(stream);
    let address = stream.peer_addr().ok();
    tell_of_client(rt, address, verbose, "a client has come");
    let (mut reader, mut writer) = connection.sides(rt, accept_queue, counts, stream);
    let end = serve_stream(rt.alloc(), &mut reader, &mut writer, blocks, export.name);
    let _ = writer.flush();
    tell_of_client(rt, address, verbose, words_of(end));
}

/// Tells of a client on standard error, where that is wanted.
fn tell_of_client<R: Networked>(rt: &R, address: Option<SocketAddr>, verbose: bool, words: &str) {
    if !verbose {
        return;
    }
    match address {
        Some(address) => tell(rt, format_args!("{address}: {words}")),
        None => tell(rt, words),
    }
}

/// How a connection ended, in words.
fn words_of(end: SessionEnd) -> &'static str {
    match end {
        SessionEnd::Disconnected => "the client has disconnected",
        SessionEnd::Aborted => "the client has aborted the negotiation",
        SessionEnd::Closed => "the connection was closed for a message that is none",
        SessionEnd::InputEnded => "the connection has ended",
        SessionEnd::ReadFailed => "reading from the client has failed",
        SessionEnd::WriteFailed => "writing to the client has failed",
        SessionEnd::NoMemory => "the connection was closed for want of memory",
    }
}
