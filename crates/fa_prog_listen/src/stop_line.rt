//! The line that stops the server.
use std::io::{ErrorKind, Read};

/// The line without its end.
const STOP: &[u8] = b"stop";

/// The line that is being read.
#[derive(Clone, Copy)]
enum Line {
    /// The first bytes of the stop, of this number, and nothing else so far.
    Begun(usize),
    /// It is another.
    Other,
}

impl Line {
    /// Reads one more byte. Whether the line was the stop.
    fn ends_with(&mut self, byte: u8) -> bool {
        if byte == b'\n' {
            let is_stop = matches!(*self, Line::Begun(count) if count == STOP.len());
            *self = Line::Begun(0);
            return is_stop;
        }
        *self = match *self {
            Line::Begun(count) if STOP.get(count) == Some(&byte) => Line::Begun(count + 1),
            _ => Line::Other,
        };
        false
    }
}

/// Reads lines until one is `stop`, or until the input ends or fails. Other lines mean nothing.
pub(crate) fn wait_for_stop<I: Read>(input: &mut I) {
    let mut buffer = [0u8; 512];
    let mut line = Line::Begun(0);
    for _ in 0..u64::MAX {
        match input.read(&mut buffer) {
            Ok(0) => return,
            Ok(count) => {
                if has_stop(&mut line, buffer.get(..count).unwrap_or(&[])) {
                    return;
                }
            }
            Err(refused) if refused.kind() == ErrorKind::Interrupted => {}
            Err(_) => return,
        }
    }
}

/// Reads these bytes. Whether a line that ends among them was the stop.
fn has_stop(line: &mut Line, bytes: &[u8]) -> bool {
    for byte in bytes {
        if line.ends_with(*byte) {
            return true;
        }
    }
    false
}
