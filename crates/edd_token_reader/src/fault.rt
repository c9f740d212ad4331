//! Why tokens spell no unit.

ghost use Rattle.std.specs.Prelude.{◌≡◌, Some};
ghost use Rattle.edd_token_reader.specs.declared.fault.ParseFault.TheVariants.{Memory};
ghost use Rattle.edd_token_reader.specs.Words.{words_of};

use edd_syntax::numbers::TokenNo;
use std::alloc::{AllocError, AllocFailed, Global};
use std::error::Error;
use std::fmt;

/// Why tokens were refused, and at which. It prints its number, its kind and the word.
#[derive(Debug, Drop)]
pub enum ParseFault {
    Syntax { at: TokenNo },
    TooDeep { at: TokenNo },
    Unsupported { at: TokenNo, word: String },
    Memory,
}

impl fmt::Display for ParseFault {
    ghost output = { λ f. Some (words_of f) };

    fn fmt<W: fmt::Write>(&self, f: &mut fmt::Formatter<W>) -> fmt::Result {
        match self {
            ParseFault::Syntax { .. } => write!(f, "10 SYNTAX"),
            ParseFault::TooDeep { .. } => write!(f, "11 TOO_DEEP"),
            ParseFault::Unsupported { word, .. } => write!(f, "12 UNSUPPORTED {word}"),
            ParseFault::Memory => write!(f, "no memory"),
        }
    }
}

impl Error for ParseFault {}

impl ParseFault {
    /// The refusal of a word that the profile leaves out.
    pub fn unsupported(alloc: Global, at: TokenNo, word: &str) -> ParseFault {
        match String::from_str(alloc, word) {
            Ok(word) => ParseFault::Unsupported { at, word },
            Err(_) => ParseFault::Memory,
        }
    }

    /// The token that fits nothing or would be too deep, unless memory ran out.
    pub fn place(&self) -> Option<TokenNo> {
        match self {
            ParseFault::Syntax { at }
            | ParseFault::TooDeep { at }
            | ParseFault::Unsupported { at, .. } => Some(*at),
            ParseFault::Memory => None,
        }
    }
}

impl From<AllocError> for ParseFault {
    ghost from_gives = { λ _ e. e ≡ Memory };

    fn from(_e: AllocError) -> ParseFault {
        ParseFault::Memory
    }
}

impl<T: Drop> From<AllocFailed<T>> for ParseFault {
    ghost from_gives = { λ _ e. e ≡ Memory };

    fn from(_e: AllocFailed<T>) -> ParseFault {
        ParseFault::Memory
    }
}
