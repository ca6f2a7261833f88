//! What a server asks of the system for the socket of a client.
use libc::net;
use std::net::{TcpListener, TcpStream};
use std::os::fd::AsRawFd;
use std::time::Duration;

/// How long a client may say nothing before its machine is asked whether it is still there, in seconds.
const QUIET_SECONDS: u32 = 60;

/// How long it is between two such questions, in seconds.
const ASK_SECONDS: u32 = 10;

/// How many of them may stay without an answer until the client counts as gone.
const ASKS: u32 = 6;

/// How long a client may take nothing of a reply until its connection is closed, in seconds.
const TAKE_SECONDS: u64 = 60;

/// How long a client may take to say its first byte, or to go on with what it began to say, until its connection is closed, in seconds.
const SAY_SECONDS: u64 = 60;

/// Sets the socket of a client up: what is written goes out at once, a client whose machine has vanished is found out, and one that takes
/// no replies, or stops in the middle of a message, does not hold a session for good. An option that the system does not have is left out.
pub(crate) fn prepare(stream: &TcpStream) {
    let _ = stream.set_nodelay(true);
    let _ = stream.set_read_timeout(Some(Duration::from_secs(SAY_SECONDS)));
    let _ = stream.set_write_timeout(Some(Duration::from_secs(TAKE_SECONDS)));
    keep_alive(stream);
}

/// Has the system ask whether a client is there that says nothing.
fn keep_alive(stream: &TcpStream) {
    let socket = stream.as_raw_fd();
    let (all, tcp) = (net::SOL_SOCKET, net::IPPROTO_TCP);
    let (on, quiet, ask, asks) = (
        value(1),
        value(QUIET_SECONDS),
        value(ASK_SECONDS),
        value(ASKS),
    );
    unsafe {
        net::setsockopt(socket, all, net::SO_KEEPALIVE, &on, 4);
        net::setsockopt(socket, tcp, net::TCP_KEEPIDLE, &quiet, 4);
        net::setsockopt(socket, tcp, net::TCP_KEEPINTVL, &ask, 4);
        net::setsockopt(socket, tcp, net::TCP_KEEPCNT, &asks, 4);
    }
}

/// Reads what a client has said, if it has said something, and does not wait for it. The answer is how many bytes that is: none where
/// nothing more is to come. Where the system has an error it is as if nothing was said.
pub(crate) fn receive(stream: &TcpStream, into: &mut [u8]) -> Option<usize> {
    let count = unsafe { net::recv(stream.as_raw_fd(), into, net::MSG_DONTWAIT) };
    usize::try_from(count).ok()
}

/// Ends what a listener does: whoever waits for a client there is told of an error.
pub fn stop_accepting(listener: &TcpListener) {
    net::shutdown(listener.as_raw_fd(), net::SHUT_RDWR);
}

/// A number as the value of an option, in its first four bytes.
fn value(number: u32) -> [u8; 16] {
    let mut bytes = [0u8; 16];
    bytes[..4].copy_from_slice(&number.to_ne_bytes());
    bytes
}
