//! The strings of texts of the source.

ghost use Rattle.std.specs.Prelude.{◌≡◌, ◌≢◌, ◌↔◌, ◌<◌, ◌∷◌, ◌++◌, IfOk, IfErr, IsTrue, Some, false, map};
ghost use Rattle.edd_syntax.specs.Names.{is_name};
ghost use Rattle.edd_syntax.specs.Text.{Quoted};
ghost use Rattle.edd_syntax.specs.Words.{has_escapes, unescape, unescaped, words_of};
ghost use Rattle.edd_syntax.specs.Words as strings;
ghost use Rattle.edd_syntax.specs.WordsView.{string_of, text_bytes, variant_of};
ghost use Rattle.edd_strings.specs.Parts.{left_len, variants_from, words_of_part};

use crate::choice::ENGLISH;
use crate::codes::first_part;
use crate::escapes::{has_escapes, unescape};
use crate::fault::StringFault;
use crate::parts::{Opened, Part};
use edd_syntax::text::CompactString;
use edd_syntax::words::{Key, Variant, Words, code_of};
use std::alloc::{AllocError, Global};

/// The string of a text: the raw insides of adjacent strings, joined.
pub fn split(alloc: Global, raw: &str) -> Result<Words, StringFault>
    ensures sound { IfOk result (λ words. string_of words ≡ words_of (Quoted raw.now)) }
    ensures refused { (result ≡ Err StringFault.BadEscape) ↔ (has_escapes raw.now ≡ false) }
    ensures bounded { result ≢ Err StringFault.TooMany }
{
    if !has_escapes(raw) {
        return Err(StringFault::BadEscape);
    }
    Ok(variants_of(alloc, raw)?)
}

/// The key of a name.
pub fn key(alloc: Global, name: &str) -> Result<Words, StringFault>
    requires { IsTrue (is_name name.now) }
    ensures sound { IfOk result (λ words. string_of words ≡ strings.Key name.now) }
    ensures refused { IfErr result (λ fault. fault ≡ StringFault.Memory) }
{
    let name = String::from_str(alloc, name)?;
    Ok(Words::Key(Key { name }))
}

// The variants of a raw text.
#[tactic(auto, unfolding(edd_syntax::specs::Words::words_of))]
fn variants_of(alloc: Global, raw: &str) -> Result<Words, AllocError>
    ensures { IfOk result (λ words. string_of words ≡ words_of (Quoted raw.now)) }
{
    let part = first_part(raw);
    let (first, next) = first_variant(alloc, part)?;
    let rest = variants(alloc, next)?;
    Ok(Words::Variants { first, rest })
}

// The first variant, and the code after its text. The text before the first code is English; it is
// left out where it is empty and a code follows.
fn first_variant<'a>(
    alloc: Global,
    part: Part<'a>,
) -> Result<(Variant, Option<Opened<'a>>), AllocError>
    ensures { IfOk result
        (λ r. words_of_part part.entry ≡ strings.Variants (variant_of r.0)
        (map unescaped (variants_from r.1))) }
{
    if part.text.is_empty()
        && let Some(opened) = part.next
    {
        return variant(alloc, opened);
    }
    let first = Variant {
        code: code_of(ENGLISH),
        text: text_of(alloc, part)?,
    };
    Ok((first, part.next))
}

// The variants of the codes from `next` on.
fn variants(alloc: Global, next: Option<Opened>) -> Result<Vec<Variant>, AllocError>
    ensures { IfOk result (λ all. map variant_of all.items
        ≡ map unescaped (variants_from next.entry)) }
{
    let mut all = Vec::new(alloc);
    let mut next = next;
    while let Some(opened) = next {
        next = push_variant(alloc, &mut all, opened)?;
    }
    Ok(all)
}

// Adds the variant of a code, and gives the next code.
fn push_variant<'a>(
    alloc: Global,
    all: &mut Vec<Variant>,
    opened: Opened<'a>,
) -> Result<Option<Opened<'a>>, AllocError>
    ensures value { IfOk result
        (λ next. map variant_of all.old.items ++ map unescaped (variants_from (Some opened.entry))
        ≡ map variant_of all.new.items ++ map unescaped (variants_from next)) }
    ensures shorter { IfOk result (λ next. left_len next < left_len (Some opened.entry)) }
{
    let (variant, next) = variant(alloc, opened)?;
    all.push(variant)?;
    Ok(next)
}

// The variant of a code, and the code after its text.
fn variant<'a>(
    alloc: Global,
    opened: Opened<'a>,
) -> Result<(Variant, Option<Opened<'a>>), AllocError>
    ensures value { IfOk result
        (λ r. map unescaped (variants_from (Some opened.entry)) ≡ variant_of r.0
        ∷ map unescaped (variants_from r.1)) }
    ensures shorter { IfOk result (λ r. left_len r.1 < left_len (Some opened.entry)) }
{
    let part = first_part(opened.behind);
    let variant = Variant {
        code: code_of(opened.code),
        text: text_of(alloc, part)?,
    };
    Ok((variant, part.next))
}

// The text of a part with its escapes replaced.
fn text_of(alloc: Global, part: Part<'_>) -> Result<CompactString, AllocError>
    ensures { IfOk result (λ text. text_bytes text ≡ unescape part.entry.text.now) }
{
    if part.is_plain {
        return CompactString::new(alloc, part.text);
    }
    Ok(CompactString::Long(unescape(alloc, part.text)?))
}
