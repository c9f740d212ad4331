//! A rule that is broken at a place.

use edd_syntax::limits::Limit;
use edd_syntax::numbers::TokenNo;

/// A rule that is broken, with the names that its refusal says.
#[derive(Clone, Copy)]
pub enum Rule<'a> {
    TooMany(Limit),
    DuplicateName(&'a str),
    DuplicateAttribute(&'static str),
    MissingAttribute { item: &'a str, word: &'static str },
    UnknownName(&'a str),
    WrongKind(&'a str),
    FloatVariable(&'a str),
    OtherType { variable: &'a str, word: &'a str },
    BadSize(&'a str),
    Mismatch,
    FloatValue,
    BreakOutside,
    ConstRange,
    DuplicateCase,
    DuplicateElement,
}

/// A rule that is broken, and where.
#[derive(Clone, Copy)]
pub struct Breach<'a> {
    pub rule: Rule<'a>,
    /// None where no token stands for it.
    pub place: Option<TokenNo>,
    /// Where two clash, the token of the earlier one: a help, of which nothing is proved.
    pub earlier: Option<TokenNo>,
}

impl<'a> Breach<'a> {
    /// The number of its token.
    pub fn token(&self) -> Option<usize> {
        Some(self.place?.0 as usize)
    }

    /// The number of the earlier one's token.
    pub fn earlier_token(&self) -> Option<usize> {
        Some(self.earlier?.0 as usize)
    }
}
