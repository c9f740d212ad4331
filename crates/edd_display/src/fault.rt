//! Why the lines of an image are not all printed.

ghost use Rattle.std.specs.Prelude.{◌≡◌};
ghost use Rattle.edd_display.specs.declared.fault.ShowFault.TheVariants as show_fault;

use std::alloc::{AllocError, AllocFailed};
use std::fmt;

/// Why not all lines were printed.
#[derive(Debug, Drop)]
pub enum ShowFault {
    /// The output could not be written.
    Output,
    /// The values are not those of a device.
    WrongValues,
    Memory,
}

impl From<AllocError> for ShowFault {
    ghost from_gives = { λ _ e. e ≡ show_fault.Memory };

    fn from(_error: AllocError) -> ShowFault {
        ShowFault::Memory
    }
}

impl<T: Drop> From<AllocFailed<T>> for ShowFault {
    ghost from_gives = { λ _ e. e ≡ show_fault.Memory };

    fn from(_error: AllocFailed<T>) -> ShowFault {
        ShowFault::Memory
    }
}

// A String that is written to fails for lack of memory alone.
impl From<fmt::Error> for ShowFault {
    ghost from_gives = { λ _ e. e ≡ show_fault.Memory };

    fn from(_error: fmt::Error) -> ShowFault {
        ShowFault::Memory
    }
}
