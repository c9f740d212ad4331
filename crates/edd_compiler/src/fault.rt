//! Why a text is not compiled.

ghost use Rattle.std.specs.Prelude.{◌≡◌, Some, IfOk, string_bytes};
ghost use Rattle.edd_compiler.specs.Faults.{of_lex, of_parse, of_rule, of_lower};
ghost use Rattle.edd_compiler.specs.Words.{IsRefusalOf, fault_words, refusal_words, token_said};

use edd_breaches::RuleFault;
use edd_code::LowerFault;
use edd_lexer::fault::LexFault;
use edd_lexer::token::Token;
use edd_lexer::{lex, line_of};
use edd_parser::fault::ParseFault;
use edd_syntax::numbers::TokenNo;
use std::alloc::{AllocError, AllocFailed, Global};
use std::error::Error;
use std::fmt;

/// Why a text is not compiled. It prints its number, its kind and the names at fault; `refusal` has
/// its line as well.
#[derive(Debug, Drop)]
pub enum Fault {
    Lex(LexFault),
    Parse(ParseFault),
    Rule(RuleFault),
    /// More than 65,535 different strings.
    TooManyStrings,
    Memory,
}

impl fmt::Display for Fault {
    ghost output = { λ f. Some (fault_words f) };

    fn fmt<W: fmt::Write>(&self, f: &mut fmt::Formatter<W>) -> fmt::Result {
        match self {
            Fault::Lex(fault) => write!(f, "{fault}"),
            Fault::Parse(fault) => write!(f, "{fault}"),
            Fault::Rule(fault) => write!(f, "{fault}"),
            Fault::TooManyStrings => write!(f, "40 TOO_MANY strings"),
            Fault::Memory => write!(f, "no memory"),
        }
    }
}

impl Error for Fault {}

impl Fault {
    // The token whose line the refusal says, where it says one.
    fn token(&self) -> Option<TokenNo>
        ensures { result ≡ token_said self.now }
    {
        match self {
            Fault::Parse(ParseFault::Syntax { at } | ParseFault::TooDeep { at }) => Some(*at),
            Fault::Rule(fault) => fault.place(),
            _ => None,
        }
    }

    /// The refusal of the text that has this fault: its number, its kind, and the names or the line
    /// at fault, which counts from 1.
    pub fn refusal(&self, alloc: Global, text: &[u8]) -> Result<String, AllocError>
        ensures sound { IfOk result (λ s. IsRefusalOf text.now self.now (string_bytes s)) }
    {
        if self.token().is_none() {
            return self.to_string(alloc);
        }
        match lex(alloc, text) {
            Ok(tokens) => self.refusal_among(alloc, text, &tokens),
            Err(_) => Err(AllocError),
        }
    }

    /// The same, where the tokens of the text are at hand.
    pub fn refusal_among(
        &self,
        alloc: Global,
        text: &[u8],
        tokens: &[Token],
    ) -> Result<String, AllocError>
        ensures sound { IfOk result (λ s. string_bytes s ≡ refusal_words text.now tokens.now
            self.now) }
    {
        match self.token() {
            Some(at) => {
                let line = line_of(text, tokens, at);
                format!(in alloc; "{self} line {line}")
            }
            None => self.to_string(alloc),
        }
    }
}

impl From<LexFault> for Fault {
    ghost from_gives = { λ given made. made ≡ of_lex given };

    fn from(fault: LexFault) -> Fault {
        match fault {
            LexFault::Memory => Fault::Memory,
            other => Fault::Lex(other),
        }
    }
}

impl From<ParseFault> for Fault {
    ghost from_gives = { λ given made. made ≡ of_parse given };

    fn from(fault: ParseFault) -> Fault {
        match fault {
            ParseFault::Memory => Fault::Memory,
            other => Fault::Parse(other),
        }
    }
}

impl From<RuleFault> for Fault {
    ghost from_gives = { λ given made. made ≡ of_rule given };

    fn from(fault: RuleFault) -> Fault {
        match fault {
            RuleFault::Memory => Fault::Memory,
            other => Fault::Rule(other),
        }
    }
}

impl From<LowerFault> for Fault {
    ghost from_gives = { λ given made. made ≡ of_lower given };

    fn from(fault: LowerFault) -> Fault {
        match fault {
            LowerFault::TooMany => Fault::TooManyStrings,
            LowerFault::Memory => Fault::Memory,
        }
    }
}

impl From<AllocError> for Fault {
    ghost use Rattle.edd_compiler.specs.declared.fault.Fault.TheVariants.{Memory};

    ghost from_gives = { λ _ made. made ≡ Memory };

    fn from(_error: AllocError) -> Fault {
        Fault::Memory
    }
}

impl<T: Drop> From<AllocFailed<T>> for Fault {
    ghost use Rattle.edd_compiler.specs.declared.fault.Fault.TheVariants.{Memory};

    ghost from_gives = { λ _ made. made ≡ Memory };

    fn from(_error: AllocFailed<T>) -> Fault {
        Fault::Memory
    }
}
