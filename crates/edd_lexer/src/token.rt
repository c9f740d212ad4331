//! What the tokens of a text are.

use edd_syntax::symbols::{Keyword, Symbol};

/// What sort of token it is. The bytes of a name or a string are in the text.
#[derive(Clone, Copy, PartialEq, Eq, Debug)]
pub enum TokenKind {
    Keyword(Keyword),
    /// A name that isn't reserved.
    Name,
    Integer(u32),
    /// A number with a fraction or an exponent.
    Decimal,
    /// A string, with its quotes.
    String,
    Symbol(Symbol),
}

/// A token: the bytes of the text from `start` up to `end`.
#[derive(Clone, Copy, PartialEq, Eq, Debug)]
pub struct Token {
    pub start: u32,
    pub end: u32,
    /// The line on which it begins, counted from 1.
    pub line: u32,
    pub kind: TokenKind,
}
