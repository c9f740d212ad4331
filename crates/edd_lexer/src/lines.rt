//! The lines of a text.

ghost use Rattle.std.specs.Prelude.{◌≡◌};
ghost use Rattle.edd_lexer.specs.Words as words;

use crate::token::Token;
use edd_syntax::numbers::TokenNo;

/// The line on which a text ends.
pub fn last_line(text: &[u8]) -> u32
    ensures { result ≡ words.last_line text.now }
{
    let mut line: u32 = 1;
    for byte in text {
        if *byte == b'\n' {
            line = line.saturating_add(1);
        }
    }
    line
}

/// The line on which a token of a text begins, counted from 1; at the text's end its last line.
pub fn line_of(text: &[u8], tokens: &[Token], at: TokenNo) -> u32
    ensures { result ≡ words.line_at text.now tokens.now at }
{
    match tokens.get(at.0 as usize) {
        Some(token) => token.line,
        None => last_line(text),
    }
}
