//! A line that is put together from the names and texts of an image.

ghost use Rattle.std.specs.Prelude.{◌≡◌, ◌++◌, ◌∷◌, [], IsTrue, OnOk, string_bytes};
ghost use Rattle.std.specs.Char.{encode_utf8};
ghost use Rattle.std.specs.List.{flat_map};
ghost use Rattle.edd_image.specs.Contents.{contents_in};
ghost use Rattle.edd_display.specs.Words.{escape, key_shown, member_shown, name_of, optional_shown, quoted, string_shown};

use edd_image::Counts;
use edd_loader::{Image, Text};
use edd_syntax::numbers::{ItemNo, StrNo};
use std::alloc::AllocError;

/// An image, and the language of its texts.
#[derive(Clone, Copy)]
pub struct Page<'i, 'b> {
    pub image: &'i Image<'b>,
    pub language: &'i str,
}

// A character, or its escape.
fn push_escape(line: &mut String, character: char) -> Result<(), AllocError>
    ensures { OnOk result (string_bytes line.new
        ≡ string_bytes line.old ++ flat_map escape (encode_utf8 character)) }
{
    match character {
        '"' => line.push_str("\\\""),
        '\\' => line.push_str("\\\\"),
        '\n' => line.push_str("\\n"),
        '\t' => line.push_str("\\t"),
        other => {
            line.push(other)?;
            Ok(())
        }
    }
}

// Whether a byte stands for itself between quotes.
fn is_plain(byte: u8) -> bool
    ensures { IsTrue result → escape byte ≡ byte ∷ [] }
{
    (byte != b'"') & (byte != b'\\') & (byte != b'\n') & (byte != b'\t')
}

// Whether no byte needs an escape. Each is looked at, which takes less time than to stop at one.
fn are_plain(bytes: &[u8]) -> bool
    ensures { IsTrue result → flat_map escape bytes.now ≡ bytes.now }
{
    let mut are_plain = true;
    for byte in bytes {
        are_plain = are_plain & is_plain(*byte);
    }
    are_plain
}

// A text without escapes between quotes.
#[tactic(auto, unfolding(crate::specs::Words::quoted))]
fn push_plain(line: &mut String, text: &str) -> Result<(), AllocError>
    requires { flat_map escape text.now ≡ text.now }
    ensures { OnOk result (string_bytes line.new ≡ string_bytes line.old ++ quoted text.now) }
{
    line.push('"')?;
    line.push_str(text)?;
    line.push('"')?;
    Ok(())
}

/// The text between quotes, with an escape for each character that needs one.
pub fn push_quoted(line: &mut String, text: &str) -> Result<(), AllocError>
    ensures { OnOk result (string_bytes line.new ≡ string_bytes line.old ++ quoted text.now) }
{
    if are_plain(text.as_bytes()) {
        return push_plain(line, text);
    }
    line.push('"')?;
    for character in text.chars() {
        push_escape(line, character)?;
    }
    line.push('"')?;
    Ok(())
}

// A key of the dictionary.
#[tactic(auto, unfolding(crate::specs::Words::key_shown))]
fn push_key(line: &mut String, key: &str) -> Result<(), AllocError>
    ensures { OnOk result (string_bytes line.new ≡ string_bytes line.old ++ key_shown key.now) }
{
    line.push('[')?;
    line.push_str(key)?;
    line.push(']')?;
    Ok(())
}

impl<'i, 'b> Page<'i, 'b> {
    /// The identification, and how much there is of everything.
    #[tactic(auto, unfolding(edd_image::specs::Contents::contents_in))]
    pub fn counts(&self) -> Counts
        ensures { result ≡ (contents_in self.now.image.now).counts }
    {
        self.image.counts()
    }

    /// The name of an item. An image holds the name of each item that it names.
    #[tactic(auto, unfolding(crate::specs::Words::name_of))]
    pub fn name(&self, item: ItemNo) -> &'b str
        ensures { result.now ≡ name_of (contents_in self.now.image.now) item }
    {
        match self.image.name(item) {
            Some(name) => name,
            None => "",
        }
    }

    /// The text of a string, or its key.
    #[tactic(auto, unfolding(crate::specs::Words::string_shown))]
    pub fn push_text(&self, line: &mut String, string: StrNo) -> Result<(), AllocError>
        ensures { OnOk result (string_bytes line.new ≡ string_bytes line.old
            ++ string_shown (contents_in self.now.image.now) self.now.language.now string) }
    {
        match self.image.text(string, self.language) {
            Some(Text::Words(text)) => push_quoted(line, text),
            Some(Text::Key(key)) => push_key(line, key),
            None => Ok(()),
        }
    }

    /// The name of a member, which is a string without quotes.
    #[tactic(auto, unfolding(crate::specs::Words::member_shown))]
    pub fn push_member(&self, line: &mut String, string: StrNo) -> Result<(), AllocError>
        ensures { OnOk result (string_bytes line.new ≡ string_bytes line.old
            ++ member_shown (contents_in self.now.image.now) self.now.language.now string) }
    {
        match self.image.text(string, self.language) {
            Some(Text::Words(name)) => line.push_str(name),
            Some(Text::Key(key)) => push_key(line, key),
            None => Ok(()),
        }
    }

    /// A blank and the text, where there is one.
    pub fn push_optional(&self, line: &mut String, string: Option<StrNo>) -> Result<(), AllocError>
        ensures { OnOk result (string_bytes line.new ≡ string_bytes line.old
            ++ optional_shown (contents_in self.now.image.now) self.now.language.now string) }
    {
        let Some(string) = string else {
            return Ok(());
        };
        line.push(' ')?;
        self.push_text(line, string)
    }
}
