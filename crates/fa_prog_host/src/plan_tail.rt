//! The end of a file of plans.

/// The line that an entry begins with, and no other line of it is.
const FIRST_LINE: &[u8] = b"batch\n";

/// Where the batch of an entry ends and its certificate begins.
const MIDDLE: &[u8] = b"\nend\nrounds ";

/// How an entry ends.
const LAST_LINE: &[u8] = b"\nend\n";

/// How a file of plans ends.
#[derive(Clone, Copy)]
pub(crate) enum End {
    /// It ends with an entry, or has none.
    Whole,
    /// Its last entry is torn, and begins at this index.
    Torn(usize),
    /// It is no file of plans.
    Other,
}

/// How a file ends that has these bytes at its end, which are all of its bytes where that is said.
pub(crate) fn end_of(bytes: &[u8], is_all: bool) -> End {
    let begin = last_line(bytes);
    let lines = bytes.get(..begin).unwrap_or(&[]);
    let line = bytes.get(begin..).unwrap_or(&[]);
    match end_of_lines(lines, is_all) {
        End::Whole if line.is_empty() => End::Whole,
        End::Whole if FIRST_LINE.starts_with(line) => End::Torn(lines.len()),
        End::Whole | End::Other => End::Other,
        End::Torn(begin) => End::Torn(begin),
    }
}

/// The same where the last line is ended.
fn end_of_lines(lines: &[u8], is_all: bool) -> End {
    match last_entry(lines, is_all) {
        Some(begin) => match lines.get(begin..) {
            Some(entry) if !is_whole(entry) => End::Torn(begin),
            _ => End::Whole,
        },
        None if is_all && lines.is_empty() => End::Whole,
        None => End::Other,
    }
}

/// The index at which a last line begins that is not ended, or the number of the bytes.
fn last_line(bytes: &[u8]) -> usize {
    let mut begin = 0;
    'bytes: for index in 0..bytes.len() {
        if bytes[index] == b'\n' {
            begin = index + 1;
        }
    }
    begin
}

/// The index at which the last entry begins.
fn last_entry(bytes: &[u8], is_all: bool) -> Option<usize> {
    let mut last = None;
    'bytes: for index in 0..bytes.len() {
        let begins_line = match index.checked_sub(1) {
            Some(before) => bytes[before] == b'\n',
            None => is_all,
        };
        if begins_line && bytes[index..].starts_with(FIRST_LINE) {
            last = Some(index);
        }
    }
    last
}

/// Whether these bytes, which begin an entry, are all of it.
fn is_whole(entry: &[u8]) -> bool {
    entry.ends_with(LAST_LINE) && has_middle(entry)
}

/// Whether a certificate begins somewhere in these bytes.
fn has_middle(entry: &[u8]) -> bool {
    'bytes: for index in 0..entry.len() {
        if entry[index..].starts_with(MIDDLE) {
            return true;
        }
    }
    false
}
