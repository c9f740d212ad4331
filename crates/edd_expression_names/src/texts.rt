//! Copies of texts.

ghost use Rattle.std.specs.Prelude.{◌≡◌, IfOk, option_map};
ghost use Rattle.edd_syntax.specs.WordsView.{text_of};

use edd_syntax::text::{CompactString, Text};
use std::alloc::{AllocError, Global};

/// A copy of a text.
pub fn copy_text(text: &Text, alloc: Global) -> Result<Text, AllocError>
    ensures sound { IfOk result (λ t. text_of t ≡ text_of text.now) }
{
    match text {
        Text::Quoted(raw) => Ok(Text::Quoted(CompactString::new(alloc, raw.as_str())?)),
        Text::Key(name) => Ok(Text::Key(CompactString::new(alloc, name.as_str())?)),
    }
}

/// A copy of a text that may be missing.
pub fn copy_optional_text(text: &Option<Text>, alloc: Global) -> Result<Option<Text>, AllocError>
    ensures sound { IfOk result (λ t. option_map text_of t ≡ option_map text_of text.now) }
{
    match text {
        Some(text) => Ok(Some(copy_text(text, alloc)?)),
        None => Ok(None),
    }
}
