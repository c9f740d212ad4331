//! What a run of a test prints.

use std::alloc::{AllocError, Global};
use std::io;
use std::io::Write;

/// A line that was printed, without its end.
#[derive(Clone, Copy)]
pub struct Seen<'a> {
    pub text: &'a str,
    /// How many lines of the user were asked for before it.
    pub turn: usize,
}

/// An output over memory. It is flushed where a line of the user is asked for.
#[derive(Drop)]
pub struct Printed {
    bytes: Vec<u8>,
    // The turn of each line.
    turns: Vec<usize>,
    turn: usize,
}

impl Printed {
    /// Nothing so far.
    pub fn nothing(alloc: Global) -> Printed {
        Printed {
            bytes: Vec::new(alloc),
            turns: Vec::new(alloc),
            turn: 0,
        }
    }

    /// Its lines, all of which end.
    pub fn lines(&self, alloc: Global) -> Result<Vec<Seen<'_>>, AllocError> {
        let text = str::from_utf8(&self.bytes).unwrap_or("");
        let mut lines = Vec::new(alloc);
        for (line, turn) in text.split_inclusive('\n').zip(&self.turns) {
            lines.push(Seen {
                text: line.strip_suffix('\n').unwrap_or(line),
                turn: *turn,
            })?;
        }
        Ok(lines)
    }
}

impl Write for Printed {
    fn write(&mut self, buf: &[u8]) -> io::Result<usize> {
        for byte in buf {
            if *byte == b'\n' {
                self.turns.push(self.turn)?;
            }
        }
        self.bytes.extend_from_slice(buf)?;
        Ok(buf.len())
    }

    fn flush(&mut self) -> io::Result<()> {
        self.turn = self.turn.saturating_add(1);
        Ok(())
    }
}
