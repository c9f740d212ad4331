//! The place to which a name leads.

use std::alloc::Global;
use std::fs::{self, Metadata};
use std::io;
use std::path::Path;
use std::rt::Files;

/// How many links lead on at most, as in Linux.
const MOST_LINKS: u32 = 40;

/// The folder in which a place is. No path is that of the folder where the program runs.
pub fn folder_of(place: &str) -> Path<'_> {
    match Path::new(place).parent() {
        Some(folder) => folder,
        None => Path::new(""),
    }
}

/// What is under a name, its links followed; `None` where nothing is.
pub fn find<R: Files>(rt: &R, name: &str) -> io::Result<Option<Metadata>> {
    match fs::metadata(rt, name) {
        Ok(found) => Ok(Some(found)),
        Err(error) if error.kind() == io::ErrorKind::NotFound => Ok(None),
        Err(error) => Err(error),
    }
}

// Whether the name is that of a link.
fn is_link<R: Files>(rt: &R, name: &str) -> io::Result<bool> {
    match fs::symlink_metadata(rt, name) {
        Ok(found) => Ok(found.is_symlink()),
        Err(error) if error.kind() == io::ErrorKind::NotFound => Ok(false),
        Err(error) => Err(error),
    }
}

// The name to which a link leads.
fn next<R: Files + AllocGlobal>(rt: &R, link: &str) -> io::Result<String> {
    let text = fs::read_link(rt, link)?;
    let path = folder_of(link).join(rt.alloc(), text)?;
    Ok(path.into_string())
}

/// Follows the links under a name. The last name of a link that leads to nothing is free.
pub fn follow<R: Files + AllocGlobal>(rt: &R, name: &str) -> io::Result<String> {
    let mut place = name.to_string(rt.alloc())?;
    for _ in 0..MOST_LINKS {
        if !is_link(rt, &place)? {
            return Ok(place);
        }
        place = next(rt, &place)?;
    }
    Err(io::Error::from(io::ErrorKind::InvalidInput))
}
