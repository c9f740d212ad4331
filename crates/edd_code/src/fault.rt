//! Why an attribute is not lowered.

ghost use Rattle.std.specs.Prelude.{◌≡◌};

use edd_strings::StringFault;
use std::alloc::{AllocError, AllocFailed};
use thiserror::Error;

/// The table of strings would hold more than 65,535, or memory was refused.
#[derive(Clone, Copy, Debug, PartialEq, Eq, Error)]
pub enum LowerFault {
    #[error("40 TOO_MANY strings")]
    TooMany,
    #[error("no memory")]
    Memory,
}

impl From<AllocError> for LowerFault {
    ghost use Rattle.edd_code.specs.declared.fault.LowerFault.TheVariants.{Memory};

    ghost from_gives = { λ _ fault. fault ≡ Memory };

    fn from(_error: AllocError) -> LowerFault {
        LowerFault::Memory
    }
}

impl<T: Drop> From<AllocFailed<T>> for LowerFault {
    ghost use Rattle.edd_code.specs.declared.fault.LowerFault.TheVariants.{Memory};

    ghost from_gives = { λ _ fault. fault ≡ Memory };

    fn from(_error: AllocFailed<T>) -> LowerFault {
        LowerFault::Memory
    }
}

// A text of a checked description has no bad escape, so only the other two faults are met.
impl From<StringFault> for LowerFault {
    ghost use Rattle.edd_code.specs.Faults.{lower_fault_of};

    ghost from_gives = { λ fault lower_fault. lower_fault ≡ lower_fault_of fault };

    fn from(fault: StringFault) -> LowerFault {
        match fault {
            StringFault::TooMany => LowerFault::TooMany,
            StringFault::BadEscape | StringFault::Memory => LowerFault::Memory,
        }
    }
}
