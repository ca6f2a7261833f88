//! What a test says that is not so: an error that has the words of what was to be so.
use std::fmt::Debug;
use std::test::Fail;

/// The error with these words.
pub fn failed(words: &str) -> Fail {
    Fail::new(words)
}

/// The error with these words and with where.
pub fn failed_at<D: Debug + Drop>(words: &str, place: D) -> Fail {
    Fail::new(format_args!("{words}, at {place:?}"))
}
