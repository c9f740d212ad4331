//! The disk of the system.

use crate::disk::Disk;
use crate::links::{find, folder_of, follow};
use crate::way::{Identity, Standing};
use std::fs::{self, Metadata, OpenFile, OpenOptions, Permissions};
use std::io;
use std::io::{Read, Write};
use std::os::unix::fs::{FileTypeExt, MetadataExt};
use std::rt::Files;

/// The name under which the standard input is read.
const INPUT: &str = "/dev/stdin";

/// The name under which the standard output is written.
const OUTPUT: &str = "/dev/stdout";

/// How many names of a new file are tried.
const MOST_NAMES: u32 = 1000;

/// A new file, and the permissions that it is to have.
#[derive(Drop)]
pub struct NewFile<F: Drop> {
    path: String,
    file: F,
    permissions: Option<Permissions>,
}

/// A file or the standard input.
#[derive(Drop)]
pub enum Opened<F: Drop, I: Drop> {
    File(F),
    Input(I),
}

impl<F: Read + Drop, I: Read + Drop> Read for Opened<F, I> {
    fn read(&mut self, buf: &mut [u8]) -> io::Result<usize> {
        match self {
            Opened::File(file) => file.read(buf),
            Opened::Input(input) => input.read(buf),
        }
    }
}

/// The system's files by their paths. The name `/dev/stdin` is the standard input, which is read as
/// it is, since a pipe that belongs to another user could not be opened by that name; the name
/// `/dev/stdout` is the standard output, which is written as it is: what comes after the bytes is
/// then after them.
#[derive(Clone, Copy)]
pub struct SystemDisk<'a, R> {
    pub rt: &'a R,
}

// Which file it is of which the system says this.
fn identity_of(found: &Metadata) -> Identity {
    Identity {
        device: found.dev(),
        number: found.ino(),
    }
}

// An error of the kind.
fn fault<T>(kind: io::ErrorKind) -> io::Result<T> {
    Err(io::Error::from(kind))
}

// The standard output, which can be a file.
fn look_at_output<R: Files>(rt: &R) -> Standing {
    match fs::metadata(rt, OUTPUT) {
        Ok(found) if found.is_file() => Standing::Fixed(identity_of(&found)),
        _ => Standing::Stream,
    }
}

// What is at a place of which the system says this. A plain file must be one that may be
// written, though it isn't.
fn standing_of<R: Files>(rt: &R, place: &str, found: &Metadata) -> io::Result<Standing> {
    if found.is_dir() {
        return fault(io::ErrorKind::IsADirectory);
    }
    if found.is_file() {
        OpenOptions::new().write(true).open(rt, place)?;
        return Ok(Standing::Plain(identity_of(found)));
    }
    if found.file_type().is_block_device() {
        return Ok(Standing::Fixed(identity_of(found)));
    }
    Ok(Standing::Stream)
}

// The place of a plain file. A name of an open file that was removed leads to none.
fn place_of_file<R: Files + AllocGlobal>(
    rt: &R,
    name: &str,
    found: &Metadata,
) -> io::Result<String> {
    let place = follow(rt, name)?;
    match find(rt, &place)? {
        Some(there) if identity_of(&there) == identity_of(found) => Ok(place),
        _ => fault(io::ErrorKind::NotFound),
    }
}

// Makes a file of a name that is free in the folder of the place.
fn create_in_folder<R: Files + AllocGlobal>(rt: &R, place: &str) -> io::Result<(String, R::File)> {
    let folder = folder_of(place);
    for number in 0..MOST_NAMES {
        let name = format!(in rt.alloc(); ".edd-{number}")?;
        let path = folder.join(rt.alloc(), name)?.into_string();
        match OpenOptions::new()
            .write(true)
            .create_new(true)
            .open(rt, path.as_str())
        {
            Ok(file) => return Ok((path, file)),
            Err(error) if error.kind() == io::ErrorKind::AlreadyExists => {}
            Err(error) => return Err(error),
        }
    }
    fault(io::ErrorKind::AlreadyExists)
}

// Opens a file, and no folder.
fn open_file<R: Files>(rt: &R, name: &str) -> io::Result<R::File> {
    let file = fs::open(rt, name)?;
    if file.metadata()?.is_dir() {
        return fault(io::ErrorKind::IsADirectory);
    }
    Ok(file)
}

impl<R: Files + Input + Print + AllocGlobal> Disk for SystemDisk<'_, R> {
    type New = NewFile<R::File>;

    type Opened = Opened<R::File, R::Reader>;

    fn open(&self, name: &str) -> io::Result<Self::Opened> {
        if name == INPUT {
            return Ok(Opened::Input(self.rt.reader()));
        }
        Ok(Opened::File(open_file(self.rt, name)?))
    }

    fn open_plain(&self, name: &str) -> io::Result<Self::Opened> {
        if !fs::metadata(self.rt, name)?.is_file() {
            return fault(io::ErrorKind::InvalidInput);
        }
        Ok(Opened::File(open_file(self.rt, name)?))
    }

    // The standard input is a file where the system gives it a name.
    fn identity_of(&self, opened: &Self::Opened) -> io::Result<Option<Identity>> {
        match opened {
            Opened::File(file) => Ok(Some(identity_of(&file.metadata()?))),
            Opened::Input(_) => match fs::metadata(self.rt, INPUT) {
                Ok(found) => Ok(Some(identity_of(&found))),
                Err(_) => Ok(None),
            },
        }
    }

    fn place_of(&self, name: &str) -> io::Result<String> {
        if name == OUTPUT {
            return Ok(name.to_string(self.rt.alloc())?);
        }
        match find(self.rt, name)? {
            Some(found) if found.is_file() => place_of_file(self.rt, name, &found),
            Some(_) => Ok(name.to_string(self.rt.alloc())?),
            None => follow(self.rt, name),
        }
    }

    fn look(&self, place: &str) -> io::Result<Standing> {
        if place == OUTPUT {
            return Ok(look_at_output(self.rt));
        }
        match find(self.rt, place)? {
            Some(found) => standing_of(self.rt, place, &found),
            None => Ok(Standing::Free),
        }
    }

    fn create_beside(&mut self, place: &str) -> io::Result<NewFile<R::File>> {
        let permissions = find(self.rt, place)?.map(|found| found.permissions());
        let (path, file) = create_in_folder(self.rt, place)?;
        Ok(NewFile {
            path,
            file,
            permissions,
        })
    }

    fn fill(&mut self, new: &mut NewFile<R::File>, bytes: &[u8]) -> io::Result<()> {
        if let Some(permissions) = new.permissions.take() {
            new.file.set_permissions(permissions)?;
        }
        new.file.write_all(bytes)
    }

    fn sync(&mut self, new: &mut NewFile<R::File>) -> io::Result<()> {
        new.file.sync_all()
    }

    fn put(&mut self, new: &mut NewFile<R::File>, place: &str) -> io::Result<()> {
        fs::rename(self.rt, new.path.as_str(), place)
    }

    // It can't be helped where this fails.
    fn remove(&mut self, new: NewFile<R::File>) {
        let _ = fs::remove_file(self.rt, new.path.as_str());
    }

    fn give(&mut self, place: &str, bytes: &[u8]) -> io::Result<()> {
        if place == OUTPUT {
            return io::writer(self.rt).write_all(bytes);
        }
        let mut file = OpenOptions::new().write(true).open(self.rt, place)?;
        file.write_all(bytes)
    }
}
