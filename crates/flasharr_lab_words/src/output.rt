//! What is printed.
use crate::refusals::Reason;
use std::alloc::Global;
use std::fmt::Display;

/// The lines that are to be printed, and the answer to the line that is done, a word after the other. What finds no memory is left out;
/// `is_whole` tells whether that never happened.
#[derive(Drop)]
pub struct Output {
    text: String,
    answer: String,
    is_fresh: bool,
    is_whole: bool,
}

impl Output {
    /// Nothing is to be printed yet.
    pub fn new(alloc: Global) -> Output {
        Output {
            text: String::new(alloc),
            answer: String::new(alloc),
            is_fresh: true,
            is_whole: true,
        }
    }

    /// The lines that are to be printed.
    pub fn text(&self) -> &str {
        self.text.as_str()
    }

    /// They were printed.
    pub fn clear(&mut self) {
        self.text.clear();
    }

    /// Whether memory was had for all that was told.
    pub fn is_whole(&self) -> bool {
        self.is_whole
    }

    /// Something found no memory of the program's own.
    pub fn fail(&mut self) {
        self.is_whole = false;
    }

    /// One more word, or several.
    pub fn word(&mut self, word: &str) {
        self.space();
        self.join(word);
    }

    /// What stands behind the last word, with no space between.
    pub fn join(&mut self, word: &str) {
        if self.answer.push_str(word).is_err() {
            self.is_whole = false;
        }
    }

    /// What stands behind the last word, if that is so.
    pub fn join_if(&mut self, is_so: bool, word: &str) {
        if is_so {
            self.join(word);
        }
    }

    /// One more number.
    pub fn number(&mut self, number: u64) {
        self.space();
        self.digits(number);
    }

    /// A number behind the last word, with no space between.
    pub fn digits(&mut self, number: u64) {
        if write!(self.answer, "{number}").is_err() {
            self.is_whole = false;
        }
    }

    /// A word and its number.
    pub fn pair(&mut self, word: &str, number: u64) {
        self.word(word);
        self.number(number);
    }

    /// Bytes in hexadecimal, as one word.
    pub fn bytes(&mut self, alloc: Global, bytes: &[u8]) {
        match hex::encode(alloc, bytes) {
            Ok(digits) => self.word(digits.as_str()),
            Err(_) => self.is_whole = false,
        }
    }

    /// Why something was refused.
    pub fn refusal<E: Display>(&mut self, error: &E) {
        self.word("refused:");
        self.shown(error);
    }

    /// Why an event was refused.
    pub fn reason<R: Reason>(&mut self, refused: &R) {
        self.word("refused:");
        self.word(refused.reason());
    }

    /// One more word, as it is displayed.
    pub fn shown<E: Display>(&mut self, what: &E) {
        self.space();
        if write!(self.answer, "{what}").is_err() {
            self.is_whole = false;
        }
    }

    /// The answer begins anew.
    pub fn begin(&mut self) {
        self.answer.clear();
        self.is_fresh = true;
    }

    /// The answer is over.
    pub fn end(&mut self) {
        let is_put = self.text.push_str(self.answer.as_str()).is_ok()
            && self.text.push_str("\n").is_ok();
        if !is_put {
            self.is_whole = false;
        }
        self.begin();
    }

    /// The nanoseconds of each time that a line was done, before its answer. What finds no memory is left out.
    pub fn put_times(&mut self, took: &[u64]) {
        let _ = self.text.push_str("took ");
        for nanoseconds in took {
            let _ = write!(self.text, "{nanoseconds} ");
        }
        let _ = self.text.push_str("then ");
    }

    fn space(&mut self) {
        if !self.is_fresh {
            self.join(" ");
        }
        self.is_fresh = false;
    }
}
