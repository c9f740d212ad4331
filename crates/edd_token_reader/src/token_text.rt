//! The text of names and strings.

ghost use Rattle.std.specs.Prelude.{◌≡◌, slice_range};
ghost use Rattle.edd_syntax.specs.Token.{Identifier, String};
ghost use Rattle.edd_lexer.specs.declared.token.TokenKind.TheVariants as kind;
ghost use Rattle.edd_token_reader.specs.TokenTexts.{token_in, IsReadable};

use edd_lexer::token::Token;
use std::str;

// The bytes of a token.
fn bytes_of<'a>(text: &'a [u8], token: &Token) -> &'a [u8]
    requires { IsReadable text.now token.now }
    ensures { result.now ≡ slice_range text.now token.now.start token.now.end }
{
    &text[token.start as usize..token.end as usize]
}

/// The text of a name.
pub fn name_in<'a>(text: &'a [u8], token: &Token) -> &'a str
    requires readable { IsReadable text.now token.now }
    requires name { token.now.kind ≡ kind.Name }
    ensures { Identifier result.now ≡ token_in text.now token.now }
{
    // The lexer checked the whole text.
    unsafe { str::from_utf8_unchecked(bytes_of(text, token)) }
}

/// What is between the quotes of a string.
pub fn string_in<'a>(text: &'a [u8], token: &Token) -> &'a str
    requires readable { IsReadable text.now token.now }
    requires string { token.now.kind ≡ kind.String }
    ensures { String result.now ≡ token_in text.now token.now }
{
    let bytes = bytes_of(text, token);
    // The lexer checked the whole text.
    unsafe { str::from_utf8_unchecked(&bytes[1..bytes.len() - 1]) }
}
