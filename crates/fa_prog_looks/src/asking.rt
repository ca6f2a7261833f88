//! The command `status`, which asks a running server how its array is.
ghost use Rattle.std.specs.Prelude.{◌≡◌, true};
ghost use Rattle.fa_prog_looks.specs.Asking.{TellsOnce, TellsStatus, shown_byte};

use crate::host::LooksHost;
use fa_prog_host::printing::{DONE, REFUSED, print};
use fa_prog_host::tell;
use std::alloc::{AllocError, Global};
use std::io::{self, ErrorKind, Read, Write};
use std::net::TcpStream;
use std::thread;
use std::time::Duration;

/// How long the server may take for each part of its answer, in seconds.
const ANSWER_SECONDS: u64 = 5;

/// How long it is between two looks, in seconds.
const WATCH_SECONDS: u64 = 1;

/// How often an answer is read from at most.
const MAX_READS: u32 = 65_536;

/// What is said to the server.
const REQUEST: &[u8] =
    b"GET / HTTP/1.1\r\nHost: flasharr\r\nAccept: text/plain\r\nConnection: close\r\n\r\n";

/// What clears a terminal.
const CLEAR: &[u8] = b"\x1b[H\x1b[2J";

/// How a server is asked.
#[derive(Clone, Copy)]
pub struct Ask<'a> {
    /// Where it answers.
    pub address: &'a str,
    /// It is asked each second, until it gives no answer.
    pub watch: bool,
}

/// The command `status`: prints how the array is of the server at this address, once, or each second until the server gives no answer.
/// Where it gives none, a line is printed for it, with status 1, and the reason is told on standard error.
pub fn run_status<R: LooksHost, W: Write>(rt: &R, ask: Ask<'_>, output: &mut W) -> u8
    ensures { TellsStatus ask.entry.watch (W.contents output.old) (W.contents output.new) result }
{
    if ask.watch {
        watch(rt, ask.address, output)
    } else {
        tell_once(rt, ask.address, &[], output)
    }
}

/// Prints how the array is each second, until the server gives no answer, or until printing fails.
fn watch<R: LooksHost, W: Write>(rt: &R, address: &str, output: &mut W) -> u8
    ensures { TellsStatus true (W.contents output.old) (W.contents output.new) result }
{
    for _ in rt.forever() {
        if tell_once(rt, address, CLEAR, output) != DONE {
            return REFUSED;
        }
        thread::sleep(rt, Duration::from_secs(WATCH_SECONDS));
    }
    unreachable!()
}

/// Prints how the array is once, behind these bytes, or that there is no answer.
fn tell_once<R: LooksHost, W: Write>(rt: &R, address: &str, before: &[u8], output: &mut W) -> u8
    ensures { TellsOnce (W.contents output.old) (W.contents output.new) result }
{
    match answer_at(rt, address, before) {
        Ok(text) => print(output, DONE, &text),
        Err(refused) => {
            tell(
                rt,
                format_args!("{address}: {refused}: give the address of a server's --status"),
            );
            print(output, REFUSED, b"status: no answer\n")
        }
    }
}

/// What is printed of the answer of the server at an address, behind these bytes. The error is the system's, or tells that the answer is
/// none.
fn answer_at<R: LooksHost>(rt: &R, address: &str, before: &[u8]) -> io::Result<Vec<u8>> {
    let mut stream = TcpStream::connect(rt, address)?;
    let mut answer = Vec::new(rt.alloc());
    hear(&mut stream, &mut answer)?;
    printed_of(rt.alloc(), &answer, before)
}

/// Asks a server, and hears all that it says until it ends the connection. More than a limit is an error.
fn hear(stream: &mut TcpStream, answer: &mut Vec<u8>) -> io::Result<()> {
    let limit = Some(Duration::from_secs(ANSWER_SECONDS));
    stream.set_read_timeout(limit)?;
    stream.set_write_timeout(limit)?;
    stream.write_all(REQUEST)?;
    let mut buffer = [0u8; 4096];
    for _ in 0..MAX_READS {
        let count = stream.read(&mut buffer)?;
        if count == 0 {
            return Ok(());
        }
        answer.extend_from_slice(buffer.get(..count).unwrap_or(&[]))?;
    }
    Err(io::Error::from(ErrorKind::InvalidData))
}

/// What is printed of an answer, behind these bytes. The error is out of memory, or tells that the answer is none.
fn printed_of(global: Global, answer: &[u8], before: &[u8]) -> io::Result<Vec<u8>> {
    let Some(text) = text_in(answer) else {
        return Err(io::Error::from(ErrorKind::InvalidData));
    };
    let mut printed = Vec::with_capacity(global, before.len().saturating_add(text.len()))?;
    push_shown(&mut printed, before, text)?;
    Ok(printed)
}

/// Adds these bytes as they are, and a text as a terminal is shown it.
fn push_shown(out: &mut Vec<u8>, before: &[u8], text: &[u8]) -> Result<(), AllocError> {
    out.extend_from_slice(before)?;
    for byte in text {
        out.push(shown(*byte))?;
    }
    Ok(())
}

/// The text of an answer with status 200: what stands behind the first empty line.
fn text_in(answer: &[u8]) -> Option<&[u8]> {
    let rest = answer.strip_prefix(b"HTTP/1.1 200 ")?;
    for index in 0..rest.len() {
        let found = rest.get(index..).unwrap_or(&[]);
        if let Some(text) = found.strip_prefix(b"\r\n\r\n") {
            return Some(text);
        }
    }
    None
}

/// A byte as a terminal is shown it: one that could steer it is shown as a question mark.
fn shown(byte: u8) -> u8
    ensures { result ≡ shown_byte byte }
{
    if byte == b'\n' || byte >= b' ' && byte != 127 {
        byte
    } else {
        b'?'
    }
}
