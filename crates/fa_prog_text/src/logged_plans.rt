//! The logged plans of a file, read one by one.
use std::alloc::Allocator;
use std::io::{self, BufRead, BufReader, Read};

/// The most bytes of a logged plan up to its last line. The longest that is printed takes a tenth of them.
const MAX_LOGGED: usize = 1 << 22;

/// How the reading of a logged plan ended.
#[derive(Clone, Copy)]
pub(crate) enum Ended {
    /// The file was at its end.
    Nothing,
    /// The file ended within it.
    Short,
    /// There are its lines, up to the second `end`, or too many bytes for them.
    Whole,
}

/// The logged plans of a file, of which one is held at a time.
#[derive(Drop)]
pub(crate) struct LoggedPlans<R: Read + Drop, A: Allocator> {
    reader: BufReader<R, A>,
    // The lines of the one that was read last, each with its line feed.
    text: Vec<u8, A>,
    // How many lines were read so far.
    lines: u64,
}

impl<R: Read + Drop, A: Allocator + Copy> LoggedPlans<R, A> {
    /// The logged plans that this reader gives.
    pub(crate) fn new(alloc: A, reader: R) -> io::Result<LoggedPlans<R, A>> {
        Ok(LoggedPlans {
            reader: BufReader::new(alloc, reader)?,
            text: Vec::new(alloc),
            lines: 0,
        })
    }
}

impl<R: Read + Drop, A: Allocator> LoggedPlans<R, A> {
    /// The lines of the one that was read last.
    pub(crate) fn text(&self) -> &[u8] {
        &self.text
    }

    /// How many lines were read so far, those of all plans before included.
    pub(crate) fn lines(&self) -> u64 {
        self.lines
    }

    /// Reads the lines up to the second `end`, or as many as there are. A line that the file ends within is left out.
    pub(crate) fn read_next(&mut self) -> io::Result<Ended> {
        self.text.clear();
        let mut ends = 0u8;
        while ends < 2 && self.text.len() < MAX_LOGGED {
            let start = self.text.len();
            let count = self.reader.read_until(b'\n', &mut self.text)?;
            if count == 0 || self.text.last() != Some(&b'\n') {
                self.text.truncate(start);
                return Ok(if start == 0 && count == 0 {
                    Ended::Nothing
                } else {
                    Ended::Short
                });
            }
            self.lines = self.lines.saturating_add(1);
            if &self.text[start..] == b"end\n".as_slice() {
                ends += 1;
            }
        }
        Ok(Ended::Whole)
    }
}
