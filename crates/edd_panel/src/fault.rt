//! Why a value is not taken.

use thiserror::Error;

/// Why a value is not taken. Each fault prints its number and its kind.
#[derive(Clone, Copy, Debug, Error)]
pub enum EditFault {
    /// The variable can't be written: its HANDLING lacks WRITE, or its entry is READ_ONLY.
    #[error("280 READ_ONLY")]
    ReadOnly,
    /// It is less than MIN_VALUE, or greater than MAX_VALUE.
    #[error("281 OUT_OF_LIMITS")]
    OutOfLimits,
    /// The type and size of the variable don't hold it.
    #[error("282 OUT_OF_TYPE")]
    OutOfType,
    /// The variable is ENUMERATED, and it is the value of none of its enumerators.
    #[error("283 NO_ENUMERATOR")]
    NoEnumerator,
    /// The variable is BIT_ENUMERATED, and a bit that it changes is one of none of its enumerators.
    #[error("284 NO_BIT")]
    NoBit,
    /// What decides on the value traps.
    #[error("285 TRAPPED")]
    Trapped,
    /// The text has no such choice.
    #[error("286 NO_CHOICE")]
    NoChoice,
    /// A code has 32 bits.
    #[error("287 BAD_CODE")]
    BadCode,
}
