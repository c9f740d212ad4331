//! Why the calls end early.

use edd_compiler::Fault;
use edd_lexer::fault::LexFault;
use edd_loader::LoadFault;
use edd_machine::ValuesFault;
use edd_strings::StringFault;
use std::alloc::{AllocError, AllocFailed};
use std::io;

/// A call was out of memory, answered what it is not to, or its answer could not be printed.
#[derive(Drop)]
pub enum Stop {
    Memory,
    Refused,
    Output(io::Error),
}

impl From<io::Error> for Stop {
    fn from(error: io::Error) -> Stop {
        Stop::Output(error)
    }
}

impl From<AllocError> for Stop {
    fn from(_error: AllocError) -> Stop {
        Stop::Memory
    }
}

impl<T: Drop> From<AllocFailed<T>> for Stop {
    fn from(_error: AllocFailed<T>) -> Stop {
        Stop::Memory
    }
}

impl From<LexFault> for Stop {
    fn from(fault: LexFault) -> Stop {
        match fault {
            LexFault::Memory => Stop::Memory,
            _ => Stop::Refused,
        }
    }
}

impl From<StringFault> for Stop {
    fn from(fault: StringFault) -> Stop {
        match fault {
            StringFault::Memory => Stop::Memory,
            _ => Stop::Refused,
        }
    }
}

impl From<LoadFault> for Stop {
    fn from(fault: LoadFault) -> Stop {
        match fault {
            LoadFault::Memory => Stop::Memory,
            _ => Stop::Refused,
        }
    }
}

impl From<ValuesFault> for Stop {
    fn from(fault: ValuesFault) -> Stop {
        match fault {
            ValuesFault::Memory => Stop::Memory,
            _ => Stop::Refused,
        }
    }
}

impl From<Fault> for Stop {
    fn from(fault: Fault) -> Stop {
        match fault {
            Fault::Memory => Stop::Memory,
            _ => Stop::Refused,
        }
    }
}
