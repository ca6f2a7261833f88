//! What is told on standard error.
use crate::host::Host;
use std::fmt::Display;
use std::io::{self, Eprint};

/// Tells these words, behind the program's name.
pub fn tell<R: Eprint, T: Display + Drop>(rt: &R, words: T) {
    let _ = eprintln!(rt; "flasharr: {words}");
}

/// Tells what is wrong with the file of a path.
pub fn complain<R: Eprint, T: Display>(rt: &R, path: &str, what: &T) {
    tell(rt, format_args!("{path}: {what}"));
}

/// Tells why the system refused a call on the file of a path, in its words and without its number, and what to do next.
/// Where there is no memory for the words they are told with the number.
pub fn complain_of_call<R: Host>(rt: &R, path: &str, refused: &io::Error, advice: &str) {
    match refused.to_string(rt.alloc()) {
        Ok(text) => {
            let words = words_of(&text);
            tell(rt, format_args!("{path}: {words}: {advice}"));
        }
        Err(_) => tell(rt, format_args!("{path}: {refused}: {advice}")),
    }
}

/// The words of an error of the system, before its number.
fn words_of(text: &str) -> &str {
    match text.split_once(" (os error ") {
        Some((words, _number)) => words,
        None => text,
    }
}
