//! Why a table ends before its last row.

use std::alloc::AllocError;
use std::io;

/// A row ran out of memory and said so, the table itself ran out of memory, or a line could not be
/// printed.
#[derive(Drop)]
pub enum Early {
    Refused,
    NoTable,
    Output(io::Error),
}

impl From<io::Error> for Early {
    fn from(error: io::Error) -> Early {
        Early::Output(error)
    }
}

impl From<AllocError> for Early {
    fn from(_error: AllocError) -> Early {
        Early::NoTable
    }
}
