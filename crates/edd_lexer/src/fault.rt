//! Why a text has no tokens.

ghost use Rattle.std.specs.Prelude.{◌≡◌, Some};
ghost use Rattle.edd_lexer.specs.declared.fault.LexFault.TheVariants.{Memory};
ghost use Rattle.edd_lexer.specs.Words.{words_of};

use std::alloc::{AllocError, AllocFailed};
use std::error::Error;
use std::fmt;

/// What is wrong with a text.
#[derive(Clone, Copy, PartialEq, Eq, Debug)]
pub enum Fault {
    TooLong,
    NotUtf8,
    BadCharacter,
    OpenComment,
    OpenString,
    BadEscape,
    BadNumber,
    Directive,
}

/// Why a text was refused. It prints its number, its kind and its line, counted from 1.
#[derive(Debug, Drop, PartialEq, Eq)]
pub enum LexFault {
    TooLong,
    NotUtf8 { line: u32 },
    BadCharacter { line: u32 },
    OpenComment { line: u32 },
    OpenString { line: u32 },
    BadEscape { line: u32 },
    BadNumber { line: u32 },
    Directive { line: u32 },
    Memory,
}

impl fmt::Display for LexFault {
    ghost output = { λ f. Some (words_of f) };

    fn fmt<W: fmt::Write>(&self, f: &mut fmt::Formatter<W>) -> fmt::Result {
        match self {
            LexFault::TooLong => write!(f, "2 TOO_LONG"),
            LexFault::NotUtf8 { line } => write!(f, "1 NOT_UTF8 line {line}"),
            LexFault::BadCharacter { line } => write!(f, "3 BAD_CHARACTER line {line}"),
            LexFault::OpenComment { line } => write!(f, "4 OPEN_COMMENT line {line}"),
            LexFault::OpenString { line } => write!(f, "5 OPEN_STRING line {line}"),
            LexFault::BadEscape { line } => write!(f, "6 BAD_ESCAPE line {line}"),
            LexFault::BadNumber { line } => write!(f, "7 BAD_NUMBER line {line}"),
            LexFault::Directive { line } => write!(f, "8 DIRECTIVE line {line}"),
            LexFault::Memory => write!(f, "no memory"),
        }
    }
}

impl LexFault {
    /// The line that it says, counted from 1.
    pub fn line(&self) -> Option<u32> {
        match self {
            LexFault::TooLong | LexFault::Memory => None,
            LexFault::NotUtf8 { line }
            | LexFault::BadCharacter { line }
            | LexFault::OpenComment { line }
            | LexFault::OpenString { line }
            | LexFault::BadEscape { line }
            | LexFault::BadNumber { line }
            | LexFault::Directive { line } => Some(*line),
        }
    }
}

impl Error for LexFault {}

impl From<AllocError> for LexFault {
    ghost from_gives = { λ _ e. e ≡ Memory };

    fn from(_e: AllocError) -> LexFault {
        LexFault::Memory
    }
}

impl<T: Drop> From<AllocFailed<T>> for LexFault {
    ghost from_gives = { λ _ e. e ≡ Memory };

    fn from(_e: AllocFailed<T>) -> LexFault {
        LexFault::Memory
    }
}
