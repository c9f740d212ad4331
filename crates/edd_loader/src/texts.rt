//! The text of a string for a language.

ghost use Rattle.std.specs.Prelude.{◌≡◌, ◌∷◌, Some, IsTrue, length, option_and_then, option_map};
ghost use Rattle.edd_syntax.specs.Words.{text_for};
ghost use Rattle.edd_image.specs.Strings.{as_words, is_string, string_in, variants_from};
ghost use Rattle.edd_loader.specs.Texts.{given, seen};
ghost use Rattle.edd_loader.specs.Variants.{all_variants, are_variants, text_from};

use crate::lookups::as_text;
use crate::words::variant_from;

/// The text of a string: words in a language, or the name of a key of the dictionary.
#[derive(Clone, Copy, PartialEq, Eq, Debug)]
pub enum Text<'a> {
    Words(&'a str),
    Key(&'a str),
}

// The first text of a code among the variants.
fn text_in<'a>(bytes: &'a [u8], code: &[u8]) -> Option<&'a str>
    requires { IsTrue (all_variants (length bytes.now) bytes.now) }
    ensures { option_map (λ text. text.now) result ≡ text_from (length bytes.now) code.now
        bytes.now }
{
    let mut rest = bytes;
    while !rest.is_empty() {
        let Some(piece) = variant_from(rest) else {
            return None;
        };
        if piece.code == code {
            return Some(as_text(piece.text));
        }
        rest = piece.behind;
    }
    None
}

// The text of the variants for a language: the first of the code, else the first in English, else
// the first.
fn choose<'a>(bytes: &'a [u8], code: &[u8]) -> &'a str
    requires { IsTrue (are_variants bytes.now) }
    ensures { option_map (λ words. text_for words code.now)
        (option_and_then as_words (variants_from (length bytes.now) bytes.now)) ≡ Some result.now }
{
    if let Some(text) = text_in(bytes, code) {
        return text;
    }
    if let Some(text) = text_in(bytes, b"en") {
        return text;
    }
    match variant_from(bytes) {
        Some(piece) => as_text(piece.text),
        None => "",
    }
}

fn text_of_tag<'a>(tag: u8, rest: &'a [u8], code: &[u8]) -> Text<'a>
    requires { IsTrue (is_string (tag ∷ rest.now)) }
    ensures { option_map (λ words. given words code.now) (string_in (tag ∷ rest.now))
        ≡ Some (seen result) }
{
    if tag == 0 {
        Text::Words(choose(rest, code))
    } else {
        Text::Key(as_text(rest))
    }
}

/// The text of a string, given by its bytes, for a language.
pub fn text_of<'a>(bytes: &'a [u8], code: &[u8]) -> Text<'a>
    requires { IsTrue (is_string bytes.now) }
    ensures { option_map (λ words. given words code.now) (string_in bytes.now)
        ≡ Some (seen result) }
{
    match bytes {
        [] => Text::Key(""),
        [tag, rest @ ..] => text_of_tag(*tag, rest, code),
    }
}
