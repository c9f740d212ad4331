//! The files of the system for the program.

use crate::{FileFault, Files};
use edd_files::INPUT;
use edd_system::{DiskFiles, Opened, SystemDisk};
use std::{io, rt};

/// The files of the system, by their names.
#[derive(Drop)]
pub struct ProgramFiles<'a, R> {
    rt: &'a R,
    files: DiskFiles<SystemDisk<'a, R>>,
}

// The files of the system, of which none is open.
fn system_files<R: rt::Files + Input + Print + AllocGlobal>(
    rt: &R,
) -> DiskFiles<SystemDisk<'_, R>> {
    DiskFiles::new(rt.alloc(), SystemDisk { rt })
}

// Why a file could not be read.
fn of_reading(error: &io::Error) -> FileFault {
    match error.kind() {
        io::ErrorKind::OutOfMemory => FileFault::Memory,
        io::ErrorKind::NotFound | io::ErrorKind::NotADirectory => FileFault::Missing,
        io::ErrorKind::IsADirectory => FileFault::Folder,
        io::ErrorKind::PermissionDenied => FileFault::MayNotRead,
        _ => FileFault::Failed,
    }
}

// Why a file could not be written.
fn of_writing(error: &io::Error) -> FileFault {
    match error.kind() {
        io::ErrorKind::OutOfMemory => FileFault::Memory,
        io::ErrorKind::NotFound | io::ErrorKind::NotADirectory => FileFault::NoFolder,
        io::ErrorKind::IsADirectory => FileFault::Folder,
        io::ErrorKind::PermissionDenied => FileFault::MayNotWrite,
        io::ErrorKind::InvalidInput => FileFault::IsRead,
        _ => FileFault::Failed,
    }
}

impl<R: rt::Files + Input + Print + Eprint + AllocGlobal> Files for ProgramFiles<'_, R> {
    type Reader = Opened<R::File, R::Reader>;

    fn open(&mut self, name: &str) -> Result<Self::Reader, FileFault> {
        self.files.open(name).map_err(|error| of_reading(&error))
    }

    fn open_plain(&mut self, name: &str) -> Result<Self::Reader, FileFault> {
        let opened = self.files.open_plain(name);
        opened.map_err(|error| of_reading(&error))
    }

    fn save(&mut self, name: &str, bytes: &[u8]) -> Result<(), FileFault> {
        let saved = self.files.save(name, bytes);
        saved.map_err(|error| of_writing(&error))
    }

    // What was read to its end is no longer in use; the lines of the standard input are gone.
    fn renew(&mut self, name: &str, bytes: &[u8]) -> Result<(), FileFault> {
        if name == INPUT {
            return Err(FileFault::Failed);
        }
        let mut files = system_files(self.rt);
        files.save(name, bytes).map_err(|error| of_writing(&error))
    }

    fn hint(&mut self, line: &str) {
        // There is nowhere to say that the standard error takes nothing.
        let _ = eprintln!(self.rt; "{line}");
    }
}

/// The files of the system, of which none is open.
pub fn program_files<R: rt::Files + Input + Print + Eprint + AllocGlobal>(
    rt: &R,
) -> ProgramFiles<'_, R> {
    ProgramFiles {
        rt,
        files: system_files(rt),
    }
}
