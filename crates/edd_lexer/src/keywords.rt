//! Words: reserved ones and names.

ghost use Rattle.std.specs.Prelude.{◌≡◌, ◌≢◌, ◌<◌, length};
ghost use Rattle.edd_syntax.specs.Token.{word_token};
ghost use Rattle.edd_lexer.specs.declared.token.TokenKind.TheVariants.{String};
ghost use Rattle.edd_lexer.specs.Views.{token_of};

use crate::token::TokenKind;
use edd_syntax::symbols::reserved_word;

/// The token of a word: a reserved word, or a name.
pub fn word_kind(word: &[u8]) -> TokenKind
    requires { 0 < length word.now }
    ensures sound { token_of result word.now ≡ word_token word.now }
    ensures word { result ≢ String }
{
    match reserved_word(word) {
        Some(keyword) => TokenKind::Keyword(keyword),
        None => TokenKind::Name,
    }
}
