//! The strings of an image and their rows.

ghost use Rattle.std.specs.Prelude.{◌≡◌, ◌++◌, ◌∷◌, [], map, OnOk, IfOk, length};
ghost use Rattle.std.specs.List.{flat_map};
ghost use Rattle.edd_syntax.specs.WordsView.{variant_of, string_of};
ghost use Rattle.edd_image.specs.Strings as pure;
ghost use Rattle.edd_assembly.specs.Assembly.{string_row_at, string_rows};

use crate::lengths::narrow_length;
use edd_image::StringRow;
use edd_syntax::words::{Variant, Words};
use std::alloc::{AllocError, Global};

fn put_variant(out: &mut Vec<u8>, variant: &Variant) -> Result<(), AllocError>
    ensures { OnOk result (out.new.items ≡ out.old.items
        ++ pure.variant_bytes (variant_of variant.now)) }
{
    let code = variant.code.as_str();
    let text = variant.text.as_str();
    let length = narrow_length(text.len())?;
    out.push(code.len() as u8)?;
    out.extend_from_slice(code.as_bytes())?;
    out.extend_from_slice(&length.to_be_bytes())?;
    out.extend_from_slice(text.as_bytes())
}

fn put_variants(out: &mut Vec<u8>, variants: &[Variant]) -> Result<(), AllocError>
    ensures { OnOk result (out.new.items ≡ out.old.items ++ flat_map pure.variant_bytes
        (map variant_of variants.now)) }
{
    for variant in variants {
        put_variant(out, variant)?;
    }
    Ok(())
}

/// Appends the bytes of a string.
pub fn put_words(out: &mut Vec<u8>, words: &Words) -> Result<(), AllocError>
    ensures { OnOk result (out.new.items ≡ out.old.items
        ++ pure.string_bytes (string_of words.now)) }
{
    match words {
        Words::Variants { first, rest } => {
            out.push(0)?;
            put_variant(out, first)?;
            put_variants(out, rest)
        }
        Words::Key(key) => {
            out.push(1)?;
            out.extend_from_slice(key.name.as_bytes())
        }
    }
}

/// The rows and the bytes of strings.
#[derive(Drop)]
pub struct StringSection {
    pub rows: Vec<StringRow>,
    pub bytes: Vec<u8>,
}

impl StringSection {
    fn new(alloc: Global) -> StringSection
        ensures rows { result.rows.items ≡ [] }
        ensures bytes { result.bytes.items ≡ [] }
    {
        StringSection {
            rows: Vec::new(alloc),
            bytes: Vec::new(alloc),
        }
    }

    fn push(&mut self, words: &Words) -> Result<(), AllocError>
        ensures rows { OnOk result (self.new.rows.items
            ≡ self.old.rows.items ++ string_row_at (length self.old.bytes.items)
            (string_of words.now) ∷ []) }
        ensures bytes { OnOk result (self.new.bytes.items ≡ self.old.bytes.items
            ++ pure.string_bytes (string_of words.now)) }
    {
        let start = self.bytes.len();
        put_words(&mut self.bytes, words)?;
        let length = narrow_length(self.bytes.len() - start)?;
        self.rows.push(StringRow {
            start: narrow_length(start)?,
            length,
        })?;
        Ok(())
    }
}

/// The strings of an image, by number.
pub fn string_section(alloc: Global, words: &[Words]) -> Result<StringSection, AllocError>
    ensures rows { IfOk result (λ s. s.rows.items ≡ string_rows 0 (map string_of words.now)) }
    ensures bytes { IfOk result
        (λ s. s.bytes.items ≡ flat_map pure.string_bytes (map string_of words.now)) }
{
    let mut section = StringSection::new(alloc);
    for w in words {
        section.push(w)?;
    }
    Ok(section)
}
