//! Files in memory.

use crate::rows::Given;
use edd_program::{FileFault, Files};
use std::io;
use std::io::Read;

/// Files by name, and the bytes that were saved last.
#[derive(Drop)]
pub struct MemoryFiles<'a> {
    pub files: &'a [Given<'a>],
    pub saved: Vec<u8>,
}

/// The most bytes of one read.
const MOST: usize = 7;

/// Gives a file in short reads.
#[derive(Drop)]
pub struct MemoryReader<'a> {
    rest: &'a [u8],
}

impl Read for MemoryReader<'_> {
    fn read(&mut self, buf: &mut [u8]) -> io::Result<usize> {
        let room = buf.len().min(MOST);
        self.rest.read(&mut buf[..room])
    }
}

impl<'a> Files for MemoryFiles<'a> {
    type Reader = MemoryReader<'a>;

    fn open(&mut self, name: &str) -> Result<MemoryReader<'a>, FileFault> {
        for file in self.files {
            if file.name == name {
                return Ok(MemoryReader {
                    rest: file.bytes.as_slice(),
                });
            }
        }
        Err(FileFault::Missing)
    }

    fn save(&mut self, _name: &str, bytes: &[u8]) -> Result<(), FileFault> {
        self.saved.clear();
        match self.saved.extend_from_slice(bytes) {
            Ok(()) => Ok(()),
            Err(_) => Err(FileFault::Memory),
        }
    }
}
