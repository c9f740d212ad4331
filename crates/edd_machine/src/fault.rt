//! Why numbers are no values of a device, why an attribute is not read, and why an answer can't set
//! a variable.

ghost use Rattle.std.specs.Prelude.{◌≡◌, Some};
ghost use Rattle.edd_machine.specs.declared.fault.ReadFault.TheVariants as read_fault;
ghost use Rattle.edd_machine.specs.declared.fault.ValuesFault.TheVariants as values_fault;
ghost use Rattle.edd_machine.specs.Faults.{trap_of};

use edd_syntax::answer::Trap;
use std::alloc::{AllocError, AllocFailed};
use thiserror::Error;

/// Why numbers are no values of a device. Each fault but `Memory` prints its number and its kind.
#[derive(Clone, Copy, Debug, PartialEq, Eq, Error)]
pub enum ValuesFault {
    /// There are not as many numbers as variables.
    #[error("201 COUNT")]
    Count,
    /// A number is out of the range of its variable.
    #[error("202 RANGE")]
    Range,
    #[error("no memory")]
    Memory,
}

impl From<AllocError> for ValuesFault {
    ghost from_gives = { λ _ e. e ≡ values_fault.Memory };

    fn from(_e: AllocError) -> ValuesFault {
        ValuesFault::Memory
    }
}

/// Why an attribute is not read. Each fault but `Memory` prints its number and its kind.
#[derive(Clone, Copy, Debug, PartialEq, Eq, Error)]
pub enum ReadFault {
    /// There is no such item, or none that has this attribute.
    #[error("203 NO_ITEM")]
    NoItem,
    /// The values are not those of a device of this description.
    #[error("204 WRONG_VALUES")]
    WrongValues,
    #[error("210 DIV_ZERO")]
    DivZero,
    #[error("211 DIV_OVERFLOW")]
    DivOverflow,
    #[error("212 BAD_SHIFT")]
    BadShift,
    #[error("213 NO_ELEMENT")]
    NoElement,
    #[error("no memory")]
    Memory,
}

impl From<AllocError> for ReadFault {
    ghost from_gives = { λ _ e. e ≡ read_fault.Memory };

    fn from(_e: AllocError) -> ReadFault {
        ReadFault::Memory
    }
}

impl<T: Drop> From<AllocFailed<T>> for ReadFault {
    ghost from_gives = { λ _ e. e ≡ read_fault.Memory };

    fn from(_e: AllocFailed<T>) -> ReadFault {
        ReadFault::Memory
    }
}

/// Why an answer can't set a variable to a value. Each fault prints its number and its kind.
#[derive(Clone, Copy, Debug, PartialEq, Eq, Error)]
pub enum SetFault {
    /// There is no such variable.
    #[error("206 BAD_VARIABLE")]
    BadVariable,
    /// The value is out of the range of the variable.
    #[error("207 OUT_OF_RANGE")]
    OutOfRange,
}

/// The fault of a trap.
pub fn fault_of(trap: Trap) -> ReadFault
    ensures { trap_of result ≡ Some trap }
{
    match trap {
        Trap::DivZero => ReadFault::DivZero,
        Trap::DivOverflow => ReadFault::DivOverflow,
        Trap::BadShift => ReadFault::BadShift,
        Trap::NoElement => ReadFault::NoElement,
    }
}
