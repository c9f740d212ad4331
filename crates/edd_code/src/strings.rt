//! The strings of an attribute, by their numbers in the table.

ghost use Rattle.std.specs.Prelude.{◌≡◌, ◌∷◌, [], IfErr, IfOk, IsErrOf, IsTrue, option_map};
ghost use Rattle.std.specs.Option.{option_to_list};
ghost use Rattle.edd_syntax.specs.WellFormed.{if_some, is_text};
ghost use Rattle.edd_syntax.specs.Words.{name_words, words_of};
ghost use Rattle.edd_syntax.specs.WordsView.{string_of, text_of};
ghost use Rattle.edd_code.specs.Tables.{Grows, GrowsBy, Keeps, KeepsOptional, Overflows};

use crate::fault::LowerFault;
use edd_strings::{Table, key, split};
use edd_syntax::numbers::StrNo;
use edd_syntax::text::{CompactString, Text};
use edd_syntax::words::{Variant, Words, code_of};
use std::alloc::{AllocError, Global};

// The string of a text.
#[tactic(auto, unfolding(edd_syntax::specs::Words::words_of))]
fn words_of(alloc: Global, text: &Text) -> Result<Words, LowerFault>
    requires { IsTrue (is_text (text_of text.now)) }
    ensures value { IfOk result (λ words. string_of words ≡ words_of (text_of text.now)) }
    ensures memory { IfErr result (λ fault. fault ≡ LowerFault.Memory) }
{
    match text {
        Text::Quoted(raw) => Ok(split(alloc, raw.as_str())?),
        Text::Key(name) => Ok(key(alloc, name.as_str())?),
    }
}

// The string of a class word or of a member's name: the one variant in English.
fn name_words(alloc: Global, name: &str) -> Result<Words, AllocError>
    ensures { IfOk result (λ words. string_of words ≡ name_words name.now) }
{
    let first = Variant {
        code: code_of("en"),
        text: CompactString::new(alloc, name)?,
    };
    let rest = Vec::new(alloc);
    Ok(Words::Variants { first, rest })
}

// The number of a string, which may be a new one.
#[tactic(auto, using(crate::proofs::Growing::adding))]
fn add(table: &mut Table, words: Words) -> Result<StrNo, LowerFault>
    ensures table { IfOk result (λ number. GrowsBy table.old (string_of words ∷ []) table.new) }
    ensures number { IfOk result (λ number. Keeps table.new (string_of words) number) }
    ensures grows { Grows table.old table.new }
    ensures refused { IsErrOf result LowerFault.TooMany
        → Overflows table.old (string_of words ∷ []) }
{
    Ok(table.add(words)?)
}

/// The number of the string of a text, which may be a new one.
#[tactic(auto, using(crate::proofs::Growing::no_growth))]
pub fn add_text(alloc: Global, table: &mut Table, text: &Text) -> Result<StrNo, LowerFault>
    requires { IsTrue (is_text (text_of text.now)) }
    ensures table { IfOk result (λ number. GrowsBy table.old (words_of (text_of text.now) ∷ [])
        table.new) }
    ensures number { IfOk result (λ number. Keeps table.new (words_of (text_of text.now)) number) }
    ensures grows { Grows table.old table.new }
    ensures refused { IsErrOf result LowerFault.TooMany
        → Overflows table.old (words_of (text_of text.now) ∷ []) }
{
    let words = words_of(alloc, text)?;
    add(table, words)
}

/// The same of a text that may be missing.
#[tactic(auto, using(crate::proofs::Growing::nothing_added, crate::proofs::Growing::no_growth))]
pub fn add_optional(
    alloc: Global,
    table: &mut Table,
    text: &Option<Text>,
) -> Result<Option<StrNo>, LowerFault>
    requires { IsTrue (if_some is_text (option_map text_of text.now)) }
    ensures table { IfOk result
        (λ number. GrowsBy table.old
        (option_to_list (option_map words_of (option_map text_of text.now))) table.new) }
    ensures number { IfOk result
        (λ number. KeepsOptional table.new (option_map words_of (option_map text_of text.now))
        number) }
    ensures grows { Grows table.old table.new }
    ensures refused { IsErrOf result LowerFault.TooMany
        → Overflows table.old (option_to_list (option_map words_of (option_map text_of text.now))) }
{
    match text {
        None => Ok(None),
        Some(text) => Ok(Some(add_text(alloc, table, text)?)),
    }
}

/// The number of the string of a class word or of a member's name, which may be a new one.
#[tactic(auto, using(crate::proofs::Growing::no_growth))]
pub fn add_name(alloc: Global, table: &mut Table, name: &str) -> Result<StrNo, LowerFault>
    ensures table { IfOk result (λ number. GrowsBy table.old (name_words name.now ∷ []) table.new) }
    ensures number { IfOk result (λ number. Keeps table.new (name_words name.now) number) }
    ensures grows { Grows table.old table.new }
    ensures refused { IsErrOf result LowerFault.TooMany
        → Overflows table.old (name_words name.now ∷ []) }
{
    let words = name_words(alloc, name)?;
    add(table, words)
}
