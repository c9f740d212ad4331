//! The run of a row, and whether it is as the row says.

use crate::memory::MemoryFiles;
use crate::rows::Row;
use std::alloc::{AllocError, Global};
use std::fmt;

/// Room for what is printed beside the row's lines, so that no line asks for memory.
const ROOM: usize = 4096;

/// The exit status of a run that found no memory.
const NO_MEMORY: u8 = 4;

#[derive(Drop)]
pub enum Verdict {
    AsWritten,
    /// Out of memory, and said so behind whole lines of the row.
    Refused,
    Other(Printed),
}

#[derive(Drop)]
pub struct Printed {
    status: u8,
    bytes: Vec<u8>,
    saved: Vec<u8>,
}

impl fmt::Display for Printed {
    fn fmt<W: fmt::Write>(&self, f: &mut fmt::Formatter<W>) -> fmt::Result {
        let text = str::from_utf8(self.bytes.as_slice()).unwrap_or("no text");
        write!(f, "status {}\n{text}", self.status)?;
        for byte in &self.saved {
            write!(f, "{byte:02X} ")?;
        }
        Ok(())
    }
}

fn words(alloc: Global, row: &Row<'_>) -> Result<Vec<String>, AllocError> {
    let mut words = Vec::new(alloc);
    for word in row.words.split(' ') {
        words.push(String::from_str(alloc, word)?)?;
    }
    Ok(words)
}

/// Runs the program with the row's words over its files.
pub fn run(alloc: Global, row: &Row<'_>) -> Result<Verdict, AllocError> {
    let words = words(alloc, row)?;
    let mut bytes: Vec<u8> = Vec::with_capacity(alloc, row.lines.len().saturating_add(ROOM))?;
    let mut files = MemoryFiles {
        files: row.files.as_slice(),
        saved: Vec::new(alloc),
    };
    let status = edd_command_line::run(alloc, words.as_slice(), &mut files, &mut bytes);
    let MemoryFiles { saved, .. } = files;
    let printed = Printed {
        status,
        bytes,
        saved,
    };
    Ok(judge(row, printed))
}

fn judge(row: &Row<'_>, printed: Printed) -> Verdict {
    let text = str::from_utf8(printed.bytes.as_slice()).unwrap_or("no text");
    if printed.status == NO_MEMORY && is_refusal(row, text) {
        return Verdict::Refused;
    }
    let is_ended = row.status.parse::<u8>() == Ok(printed.status);
    if is_ended && text == row.lines && is_image(row, &printed.saved) {
        Verdict::AsWritten
    } else {
        Verdict::Other(printed)
    }
}

fn is_image(row: &Row<'_>, saved: &[u8]) -> bool {
    match &row.image {
        Some(image) => image.as_slice() == saved,
        None => true,
    }
}

// Whole lines of the row, and then `no memory`.
fn is_refusal(row: &Row<'_>, text: &str) -> bool {
    match text.strip_suffix("no memory\n") {
        Some("") => true,
        Some(before) => before.ends_with('\n') && row.lines.starts_with(before),
        None => false,
    }
}
