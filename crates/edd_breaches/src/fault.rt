//! Why a description is refused: the first rule that it breaks.

ghost use Rattle.std.specs.Prelude.{◌≡◌, Some, IfOk};
ghost use Rattle.edd_breaches.specs.Faults.{limit_word, place_kept, place_of_fault, refusal_of_fault};
ghost use Rattle.edd_breaches.specs.Told.{refusal_of};
ghost use Rattle.edd_breaches.specs.Words.{fault_words};

use crate::breach::{Breach, Rule};
use edd_syntax::limits::Limit;
use edd_syntax::numbers::TokenNo;
use std::alloc::{AllocError, Global};
use std::error::Error;
use std::fmt;

/// The first rule that is broken, or that memory was refused.
///
/// TooMany: more than 4,096 items of a kind or transactions of a command, 64 locals of a method, or
/// 524,288 nodes. DuplicateName: an item, a member of a collection or a local of a block with the
/// name of an earlier one. DuplicateAttribute: an attribute that is there already.
/// MissingAttribute: an item without an attribute that its kind needs. UnknownName: a name that
/// nothing has. WrongKind: an item of a kind that may not be there.
///
/// FloatVariable: a variable of type FLOAT or DOUBLE. OtherType: another word for its type. BadSize:
/// a size other than 1 to 4 octets. Mismatch: arguments that a function does not take, an abort
/// inside an expression, or an option or an enumerator that a type does not have. FloatValue: a
/// decimal in an expression. BreakOutside: `break` outside a loop and `switch`, or `continue`
/// outside a loop. ConstRange: a data constant over 255, or a mask of 0. DuplicateCase: two equal
/// labels of one `switch`, a second `default`, or a second DEFAULT of one SELECT. DuplicateElement:
/// two elements of one array with one number.
///
/// It prints the rule's number and word, and the names or the word at fault; those without a name
/// have the token at fault, whose line a refusal says.
#[derive(Debug, Drop)]
pub enum RuleFault {
    TooMany(Limit),
    DuplicateName(String),
    DuplicateAttribute(&'static str),
    MissingAttribute { item: String, word: &'static str },
    UnknownName(String),
    WrongKind(String),
    FloatVariable(String),
    OtherType { variable: String, word: String },
    BadSize(String),
    Mismatch { at: Option<TokenNo> },
    FloatValue { at: Option<TokenNo> },
    BreakOutside { at: Option<TokenNo> },
    ConstRange { at: Option<TokenNo> },
    DuplicateCase { at: Option<TokenNo> },
    DuplicateElement { at: Option<TokenNo> },
    Memory,
}

// What there are too many of, as it is printed.
fn word_of(limit: &Limit) -> &'static str
    ensures { result.now ≡ limit_word limit.now }
{
    match limit {
        Limit::Items => "items",
        Limit::Transactions => "transactions",
        Limit::Locals => "locals",
        Limit::Nodes => "nodes",
        Limit::Strings => "strings",
    }
}

impl fmt::Display for RuleFault {
    ghost output = { λ f. Some (fault_words f) };

    fn fmt<W: fmt::Write>(&self, f: &mut fmt::Formatter<W>) -> fmt::Result {
        match self {
            RuleFault::TooMany(limit) => write!(f, "40 TOO_MANY {}", word_of(limit)),
            RuleFault::DuplicateName(name) => write!(f, "20 DUPLICATE_NAME {name}"),
            RuleFault::DuplicateAttribute(word) => write!(f, "23 DUPLICATE_ATTRIBUTE {word}"),
            RuleFault::MissingAttribute { item, word } => write!(
                f,
                "24 MISSING_ATTRIBUTE {item} {word}"
            ),
            RuleFault::UnknownName(name) => write!(f, "21 UNKNOWN_NAME {name}"),
            RuleFault::WrongKind(name) => write!(f, "22 WRONG_KIND {name}"),
            RuleFault::FloatVariable(variable) => write!(f, "30 FLOAT_VARIABLE {variable}"),
            RuleFault::OtherType { variable, word } => write!(f, "31 OTHER_TYPE {variable} {word}"),
            RuleFault::BadSize(variable) => write!(f, "32 BAD_SIZE {variable}"),
            RuleFault::Mismatch { .. } => write!(f, "33 MISMATCH"),
            RuleFault::FloatValue { .. } => write!(f, "34 FLOAT_VALUE"),
            RuleFault::BreakOutside { .. } => write!(f, "35 BREAK_OUTSIDE"),
            RuleFault::ConstRange { .. } => write!(f, "36 CONST_RANGE"),
            RuleFault::DuplicateCase { .. } => write!(f, "37 DUPLICATE_CASE"),
            RuleFault::DuplicateElement { .. } => write!(f, "38 DUPLICATE_ELEMENT"),
            RuleFault::Memory => write!(f, "no memory"),
        }
    }
}

impl Error for RuleFault {}

impl RuleFault {
    /// The fault of a rule that is broken, with copies of its names.
    pub fn of(alloc: Global, breach: &Breach<'_>) -> Result<RuleFault, AllocError>
        ensures sound { IfOk result (λ f. refusal_of_fault f ≡ Some (refusal_of breach.now.rule)) }
        ensures placed { IfOk result
            (λ f. place_of_fault f ≡ place_kept (refusal_of breach.now.rule) breach.now.place) }
    {
        let at = breach.place;
        match breach.rule {
            Rule::TooMany(limit) => Ok(RuleFault::TooMany(limit)),
            Rule::DuplicateName(name) => {
                Ok(RuleFault::DuplicateName(String::from_str(alloc, name)?))
            }
            Rule::DuplicateAttribute(word) => Ok(RuleFault::DuplicateAttribute(word)),
            Rule::MissingAttribute { item, word } => {
                let item = String::from_str(alloc, item)?;
                Ok(RuleFault::MissingAttribute { item, word })
            }
            Rule::UnknownName(name) => Ok(RuleFault::UnknownName(String::from_str(alloc, name)?)),
            Rule::WrongKind(name) => Ok(RuleFault::WrongKind(String::from_str(alloc, name)?)),
            Rule::FloatVariable(name) => {
                Ok(RuleFault::FloatVariable(String::from_str(alloc, name)?))
            }
            Rule::OtherType { variable, word } => {
                let variable = String::from_str(alloc, variable)?;
                let word = String::from_str(alloc, word)?;
                Ok(RuleFault::OtherType { variable, word })
            }
            Rule::BadSize(name) => Ok(RuleFault::BadSize(String::from_str(alloc, name)?)),
            Rule::Mismatch => Ok(RuleFault::Mismatch { at }),
            Rule::FloatValue => Ok(RuleFault::FloatValue { at }),
            Rule::BreakOutside => Ok(RuleFault::BreakOutside { at }),
            Rule::ConstRange => Ok(RuleFault::ConstRange { at }),
            Rule::DuplicateCase => Ok(RuleFault::DuplicateCase { at }),
            Rule::DuplicateElement => Ok(RuleFault::DuplicateElement { at }),
        }
    }

    /// The token at fault, unless the fault has names or is out of memory.
    pub fn place(&self) -> Option<TokenNo>
        ensures { result ≡ place_of_fault self.now }
    {
        match self {
            RuleFault::Mismatch { at }
            | RuleFault::FloatValue { at }
            | RuleFault::BreakOutside { at }
            | RuleFault::ConstRange { at }
            | RuleFault::DuplicateCase { at }
            | RuleFault::DuplicateElement { at } => *at,
            _ => None,
        }
    }
}

impl From<AllocError> for RuleFault {
    ghost use Rattle.edd_breaches.specs.declared.fault.RuleFault.TheVariants.{Memory};

    ghost from_gives = { λ _ fault. fault ≡ Memory };

    fn from(_error: AllocError) -> RuleFault {
        RuleFault::Memory
    }
}
