//! Why a method is not started, why an answer is not taken, and why a play fails.

ghost use Rattle.std.specs.Prelude.{◌≡◌, ◌≢◌, Some};
ghost use Rattle.edd_port.specs.declared.fault.PlayFault.TheVariants as play_fault;
ghost use Rattle.edd_port.specs.declared.fault.AnswerFault.TheVariants as answer_fault;
ghost use Rattle.edd_port.specs.Faults.{answer_fault_of, play_fault_of_start, play_refusal};
ghost use Rattle.edd_machine.specs.Faults.{set_fault_of};
ghost use Rattle.edd_port.specs.Refusals.{BadSet};

use edd_machine::SetFault;
use std::alloc::{AllocError, AllocFailed};
use thiserror::Error;

/// Why a method is not started. Each fault prints its number and its kind.
#[derive(Clone, Copy, Debug, PartialEq, Eq, Error)]
pub enum StartFault {
    /// There is no such method, or it has no body.
    #[error("203 NO_ITEM")]
    NoItem,
    /// The values are not those of a device of this description.
    #[error("204 WRONG_VALUES")]
    WrongValues,
}

/// Why an answer is not taken. Each fault prints its number and its kind.
#[derive(Clone, Copy, Debug, PartialEq, Eq, Error)]
pub enum AnswerFault {
    /// No request is pending.
    #[error("205 NOT_ASKING")]
    NotAsking,
    /// A set names no variable.
    #[error("206 BAD_VARIABLE")]
    BadVariable,
    /// A set's value is out of the range of its variable.
    #[error("207 OUT_OF_RANGE")]
    OutOfRange,
}

/// The fault of an answer with a set that can't be made.
pub fn fault_of_set(fault: SetFault) -> AnswerFault
    ensures { answer_fault_of result ≡ BadSet (set_fault_of fault) }
{
    match fault {
        SetFault::BadVariable => AnswerFault::BadVariable,
        SetFault::OutOfRange => AnswerFault::OutOfRange,
    }
}

/// Why a play fails. Each fault but `Memory` prints its number and its kind.
#[derive(Clone, Copy, Debug, PartialEq, Eq, Error)]
pub enum PlayFault {
    /// There is no such method, or it has no body.
    #[error("203 NO_ITEM")]
    NoItem,
    /// The values are not those of a device of this description.
    #[error("204 WRONG_VALUES")]
    WrongValues,
    /// An answer to a request sets no variable.
    #[error("206 BAD_VARIABLE")]
    BadVariable,
    /// An answer to a request sets a value out of the range of its variable.
    #[error("207 OUT_OF_RANGE")]
    OutOfRange,
    #[error("no memory")]
    Memory,
}

impl From<AllocError> for PlayFault {
    ghost from_gives = { λ _ e. e ≡ play_fault.Memory };

    fn from(_e: AllocError) -> PlayFault {
        PlayFault::Memory
    }
}

impl<T: Drop> From<AllocFailed<T>> for PlayFault {
    ghost from_gives = { λ _ e. e ≡ play_fault.Memory };

    fn from(_e: AllocFailed<T>) -> PlayFault {
        PlayFault::Memory
    }
}

/// The fault of a play whose method is not started.
pub fn fault_of_start(fault: StartFault) -> PlayFault
    ensures { result ≡ play_fault_of_start fault }
{
    match fault {
        StartFault::NoItem => PlayFault::NoItem,
        StartFault::WrongValues => PlayFault::WrongValues,
    }
}

/// The fault of a play with an answer that is refused where a request is pending.
pub fn fault_of_refused(fault: AnswerFault) -> PlayFault
    requires { fault ≢ answer_fault.NotAsking }
    ensures { play_refusal result ≡ Some (answer_fault_of fault) }
{
    match fault {
        AnswerFault::NotAsking => unreachable!(),
        AnswerFault::BadVariable => PlayFault::BadVariable,
        AnswerFault::OutOfRange => PlayFault::OutOfRange,
    }
}
