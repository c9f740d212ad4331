//! Texts that grow.

use std::alloc::{AllocError, Global};
use std::fmt::Display;

/// A text that grows. A part for which memory is refused is left out, and there is no text in the
/// end.
#[derive(Drop)]
pub struct TextSink {
    /// Of what is made for it.
    pub alloc: Global,
    /// The text so far.
    pub text: String,
    is_refused: bool,
}

impl TextSink {
    pub fn new(alloc: Global) -> TextSink {
        TextSink {
            alloc,
            text: String::new(alloc),
            is_refused: false,
        }
    }

    /// Notes that memory for a part was refused.
    pub fn refuse(&mut self) {
        self.is_refused = true;
    }

    pub fn push(&mut self, letter: char) {
        if self.text.push(letter).is_err() {
            self.refuse();
        }
    }

    pub fn push_str(&mut self, part: &str) {
        if self.text.push_str(part).is_err() {
            self.refuse();
        }
    }

    /// What `write!` calls.
    pub fn write_fmt<D: Display + Drop>(&mut self, part: D) {
        if write!(self.text, "{part}").is_err() {
            self.refuse();
        }
    }

    /// The whole text.
    pub fn finish(self) -> Result<String, AllocError> {
        if self.is_refused {
            return Err(AllocError);
        }
        Ok(self.text)
    }
}
