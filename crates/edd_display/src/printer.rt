//! An output of lines, and what lines are put together from. What fails is noted, and said in the
//! end.

use crate::fault::ShowFault;
use crate::lines::{print, print_text};
use crate::page::push_quoted;
use crate::words::push_qualifiers;
use edd_sinks::TextSink;
use std::alloc::Global;
use std::fmt::Display;
use std::io::Write;

/// A text that begins with what is printed.
pub fn printed<D: Display + Drop>(alloc: Global, text: D) -> TextSink {
    let mut line = TextSink::new(alloc);
    line.write_fmt(text);
    line
}

/// Appends a text between quotes.
pub fn add_quoted(line: &mut TextSink, text: &str) {
    if push_quoted(&mut line.text, text).is_err() {
        line.refuse();
    }
}

/// Appends the words of the bits that are set, between parentheses.
pub fn add_qualifiers(line: &mut TextSink, bits: u16, words: &[(u16, &'static str)]) {
    if push_qualifiers(&mut line.text, bits, words).is_err() {
        line.refuse();
    }
}

/// An output of lines. After one that could not be printed none is, and the end says why.
#[derive(Drop)]
pub struct Printer<'o, W: Write> {
    pub alloc: Global,
    out: &'o mut W,
    printed: Result<(), ShowFault>,
}

impl<'o, W: Write> Printer<'o, W> {
    /// A printer of lines to this output.
    pub fn new(alloc: Global, out: &'o mut W) -> Printer<'o, W> {
        Printer {
            alloc,
            out,
            printed: Ok(()),
        }
    }

    /// Prints a line.
    pub fn print<D: Display + Drop>(&mut self, line: D) {
        if self.printed.is_ok() {
            self.printed = print(self.alloc, self.out, line);
        }
    }

    /// Prints a text of whole lines.
    pub fn print_text(&mut self, text: &str) {
        if self.printed.is_ok() {
            self.printed = print_text(self.out, text);
        }
    }

    /// Prints a line that was put together.
    pub fn print_sink(&mut self, line: TextSink) {
        match line.finish() {
            Ok(line) => self.print(line.as_str()),
            Err(_) => self.refuse(),
        }
    }

    /// Notes that memory for a line was refused.
    pub fn refuse(&mut self) {
        if self.printed.is_ok() {
            self.printed = Err(ShowFault::Memory);
        }
    }

    /// Whether all lines were printed.
    pub fn finish(self) -> Result<(), ShowFault> {
        let Printer { printed, .. } = self;
        printed
    }
}
