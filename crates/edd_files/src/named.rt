//! Why a file that is known by its name could not be read or written.

ghost use Rattle.std.specs.Prelude.{◌≡◌, IfSome, None};
ghost use Rattle.edd_files.specs.Names.{file_named};

use crate::files::FileFault;
use std::alloc::{AllocError, AllocFailed};

/// A file that could not be read or written, by its name, and why; or that memory ran out, which is
/// no fault of any file.
#[derive(Clone, Copy, Debug, PartialEq, Eq)]
pub enum NamedFault<'a> {
    File(&'a str, FileFault),
    Memory,
}

/// The fault of the file of this name.
pub fn of_file<'a>(name: &'a str, fault: FileFault) -> NamedFault<'a>
    ensures named { IfSome (file_named result) (λ file. file ≡ name.now) }
{
    match fault {
        FileFault::Memory => NamedFault::Memory,
        fault => NamedFault::File(name, fault),
    }
}

impl From<AllocError> for NamedFault<'_> {
    ghost from_gives = { λ _ fault. file_named fault ≡ None };

    fn from(_error: AllocError) -> Self {
        NamedFault::Memory
    }
}

impl<T: Drop> From<AllocFailed<T>> for NamedFault<'_> {
    ghost from_gives = { λ _ fault. file_named fault ≡ None };

    fn from(_error: AllocFailed<T>) -> Self {
        NamedFault::Memory
    }
}
