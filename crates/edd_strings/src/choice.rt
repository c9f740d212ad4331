//! The text for a language.

ghost use Rattle.std.specs.Prelude.{◌≡◌, ◌∷◌, map, option_map};
ghost use Rattle.edd_syntax.specs.Words.{text_for, text_in};
ghost use Rattle.edd_syntax.specs.WordsView.{string_of, variant_of};

use edd_syntax::words::{Variant, Words};

pub const ENGLISH: &str = "en";

/// The text of `words` for the language `code`: the first variant of that code, else the first in
/// English, else the first variant. Of a key it is the key's name.
#[tactic(auto, unfolding(edd_syntax::specs::Words::text_for))]
pub fn choose<'a>(words: &'a Words, code: &str) -> &'a str
    ensures { result.now ≡ text_for (string_of words.now) code.now }
{
    match words {
        Words::Variants { first, rest } => text_in(first, rest, code)
            .or(text_in(first, rest, ENGLISH))
            .unwrap_or(first.text.as_str()),
        Words::Key(key) => key.name.as_str(),
    }
}

// The first text of a code, if there is one.
fn text_in<'a>(first: &'a Variant, rest: &'a [Variant], code: &str) -> Option<&'a str>
    ensures { option_map (λ t. t.now) result
        ≡ text_in code.now (map variant_of (first.now ∷ rest.now)) }
{
    if first.code.as_str() == code {
        return Some(first.text.as_str());
    }
    for variant in rest {
        if variant.code.as_str() == code {
            return Some(variant.text.as_str());
        }
    }
    None
}
