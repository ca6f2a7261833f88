//! The lines that are read, one after the other.
use crate::turn::{End, Turn};
use flasharr_lab_parts::Tools;
use std::io::{self, BufRead, BufReader, Input, StdinLock};

/// What lines are read from.
type Reader = BufReader<StdinLock<'static>>;

/// The lines of the input, of which one is to be done or was done.
#[derive(Drop)]
pub struct Script {
    reader: Reader,
    /// The line that was read last.
    pub turn: Turn,
}

impl Script {
    /// The lines of the input, none of which was read yet.
    pub fn new(rt: &HostRuntime) -> io::Result<Script> {
        let alloc = rt.alloc();
        Ok(Script {
            reader: BufReader::new(alloc, rt.reader())?,
            turn: Turn::new(alloc),
        })
    }

    /// Whether there is something to be done: what was asked for last, unless it was done, or what the next line asks for.
    pub fn goes_on(&mut self, tools: &mut Tools<'_>) -> bool {
        if self.turn.is_due() {
            return true;
        }
        if !self.turn.is_over() {
            read(&mut self.reader, &mut self.turn, tools);
        }
        !self.turn.is_over()
    }
}

/// Reads a line. What was answered is printed before, unless a whole line is there already.
fn read(reader: &mut Reader, turn: &mut Turn, tools: &mut Tools<'_>) {
    if !reader.buffer().contains(&b'\n') && tools.flush().is_err() {
        turn.stop(End::Broken);
    } else {
        read_line(reader, turn, tools);
    }
}

/// Reads a line, and begins with what it asks for.
fn read_line(reader: &mut Reader, turn: &mut Turn, tools: &mut Tools<'_>) {
    let mut line = String::new(tools.alloc);
    match reader.read_line(&mut line) {
        Ok(0) => turn.stop(End::Input),
        Ok(_) => {
            let line = line.as_str();
            turn.begin(line.strip_suffix('\n').unwrap_or(line), tools);
        }
        Err(_) => turn.stop(End::Broken),
    }
}
