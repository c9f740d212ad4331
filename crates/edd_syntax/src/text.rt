//! Texts as they are written.

ghost use Rattle.std.specs.Prelude.{IsTrue};
ghost use Rattle.std.specs.Str.{is_utf8};

use arrayvec::ArrayString;

/// A text. Up to 24 bytes lie in the value itself: most names, and labels of a few words.
#[derive(Drop)]
pub enum CompactString {
    Short(ShortText),
    Long(String),
}

/// A text of at most 24 bytes, which lie in the value itself.
#[derive(Drop)]
pub struct ShortText {
    pub text: ArrayString<24>,
    pub ghost valid: { IsTrue (is_utf8 text.bytes) },
}

/// A text: the raw insides of adjacent strings, joined and with their escapes, or a key of the
/// dictionary.
#[derive(Drop)]
pub enum Text {
    Quoted(CompactString),
    Key(CompactString),
}
