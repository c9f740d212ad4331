//! Places in a text.

ghost use Rattle.std.specs.Prelude.{◌≡◌};
ghost use Rattle.edd_breach_places.specs.Places.{bytes_of, span_at};

use edd_lexer::token::Token;

/// The bytes of a text from `start` up to `end`.
#[derive(Clone, Copy, PartialEq, Eq, Debug)]
pub struct Span {
    pub start: usize,
    pub end: usize,
}

/// The bytes of a token.
pub fn span_of(token: &Token) -> Span
    ensures { result ≡ bytes_of token.now }
{
    Span {
        start: token.start as usize,
        end: token.end as usize,
    }
}

/// The bytes of the token of a number, where there is one.
pub fn span_at(tokens: &[Token], number: usize) -> Option<Span>
    ensures { result ≡ span_at tokens.now number }
{
    if number < tokens.len() {
        return Some(span_of(&tokens[number]));
    }
    None
}
