//! Why a string is refused.

ghost use Rattle.std.specs.Prelude.{◌≡◌};

use std::alloc::{AllocError, AllocFailed};
use thiserror::Error;

/// Why a text is no string, or a string is not taken into a table: a backslash begins none of the
/// five escapes, the table holds as many strings as it can, or memory was refused.
#[derive(Clone, Copy, Debug, PartialEq, Eq, Error)]
pub enum StringFault {
    #[error("a string has a bad escape")]
    BadEscape,
    #[error("there are more than 65535 different strings")]
    TooMany,
    #[error("no memory")]
    Memory,
}

impl From<AllocError> for StringFault {
    ghost use Rattle.edd_strings.specs.declared.fault.StringFault.TheVariants.{Memory};

    ghost from_gives = { λ _ fault. fault ≡ Memory };

    fn from(_error: AllocError) -> StringFault {
        StringFault::Memory
    }
}

impl<T: Drop> From<AllocFailed<T>> for StringFault {
    ghost use Rattle.edd_strings.specs.declared.fault.StringFault.TheVariants.{Memory};

    ghost from_gives = { λ _ fault. fault ≡ Memory };

    fn from(_error: AllocFailed<T>) -> StringFault {
        StringFault::Memory
    }
}
