//! A row of the table: a command line, a name, files, the status, the lines that are printed and
//! the image that is written.

use std::alloc::{AllocError, Global};

/// A file's name and its bytes.
#[derive(Drop)]
pub struct Given<'a> {
    pub name: &'a str,
    pub bytes: Vec<u8>,
}

#[derive(Drop)]
pub struct Row<'a> {
    pub words: &'a str,
    pub name: &'a str,
    pub files: Vec<Given<'a>>,
    pub status: &'a str,
    pub lines: &'a str,
    /// The bytes of the file that it writes, where the row says them.
    pub image: Option<Vec<u8>>,
}

// The bytes that are written as pairs of digits to the base 16, with blanks between them.
fn from_hex(alloc: Global, digits: &str) -> Result<Vec<u8>, AllocError> {
    let mut bytes = Vec::new(alloc);
    for word in digits.split_ascii_whitespace() {
        bytes.push(u8::from_str_radix(word, 16).unwrap_or(0))?;
    }
    Ok(bytes)
}

impl<'a> Row<'a> {
    fn new(alloc: Global, words: &'a str) -> Row<'a> {
        Row {
            words,
            name: "",
            files: Vec::new(alloc),
            status: "",
            lines: "",
            image: None,
        }
    }

    // A part is its kind and its argument on a line, and the lines below.
    fn take(&mut self, alloc: Global, part: &'a str) -> Result<(), AllocError> {
        let (head, below) = part.split_once('\n').unwrap_or((part, ""));
        let (kind, name) = head.split_once(' ').unwrap_or((head, ""));
        match kind {
            "name" => self.name = name,
            "file" => {
                let bytes = Vec::from_slice(alloc, below.as_bytes())?;
                self.files.push(Given { name, bytes })?;
            }
            "hex" => {
                let bytes = from_hex(alloc, below)?;
                self.files.push(Given { name, bytes })?;
            }
            "image" => self.image = Some(from_hex(alloc, below)?),
            _ => {
                self.status = name;
                self.lines = below;
            }
        }
        Ok(())
    }

    /// Reads a row: the words, `@name NAME`, a part `@file NAME` or `@hex NAME` for each file,
    /// `@status N` with the printed lines, and perhaps `@image` with the bytes that are written.
    pub fn parse(alloc: Global, text: &'a str) -> Result<Row<'a>, AllocError> {
        let (words, rest) = text.split_once('\n').unwrap_or((text, ""));
        let mut row = Row::new(alloc, words);
        for part in rest.split('@').skip(1) {
            row.take(alloc, part)?;
        }
        Ok(row)
    }
}
