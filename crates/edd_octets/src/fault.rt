//! Why a message has no octets, or octets are not those of a message.

ghost use Rattle.std.specs.Prelude.{◌≡◌};
ghost use Rattle.edd_octets.specs.declared.fault.OctetsFault.TheVariants as octets_fault;
ghost use Rattle.edd_octets.specs.Faults.{fault_of_reading};

use edd_machine::ReadFault;
use edd_syntax::numbers::VarNo;
use std::alloc::{AllocError, AllocFailed};
use thiserror::Error;

/// Why a message has no octets, or octets are not those of a message. Each fault but `Read` and
/// `Memory` prints its number and its kind.
#[derive(Clone, Copy, Debug, PartialEq, Eq, Error)]
pub enum OctetsFault {
    /// The transaction is not read. Its fault is never `ReadFault::Memory`: that is `Memory`.
    #[error("{0}")]
    Read(ReadFault),
    /// There are fewer octets than the message has.
    #[error("220 TOO_FEW_OCTETS")]
    TooShort,
    /// There are more octets than the message has.
    #[error("221 TOO_MANY_OCTETS")]
    TooLong,
    /// The octet at this place, which counts from 0, differs from its constant.
    #[error("222 WRONG_CONSTANT")]
    WrongConstant(usize),
    /// A mask that is wider than its variable has bits that the variable does not have.
    #[error("223 EXCESS_BITS")]
    OutOfType(VarNo),
    /// Memory was refused, for the items of the message or for what is made of them.
    #[error("no memory")]
    Memory,
}

impl From<ReadFault> for OctetsFault {
    ghost from_gives = { λ fault e. e ≡ fault_of_reading fault };

    fn from(fault: ReadFault) -> OctetsFault {
        match fault {
            ReadFault::Memory => OctetsFault::Memory,
            _ => OctetsFault::Read(fault),
        }
    }
}

impl From<AllocError> for OctetsFault {
    ghost from_gives = { λ _ e. e ≡ octets_fault.Memory };

    fn from(_e: AllocError) -> OctetsFault {
        OctetsFault::Memory
    }
}

impl<T: Drop> From<AllocFailed<T>> for OctetsFault {
    ghost from_gives = { λ _ e. e ≡ octets_fault.Memory };

    fn from(_e: AllocFailed<T>) -> OctetsFault {
        OctetsFault::Memory
    }
}
