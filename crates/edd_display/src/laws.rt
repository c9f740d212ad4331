//! Laws of what is printed.

ghost use Rattle.std.specs.Prelude.{◌≡◌, ℕ, ℤ, List};
ghost use Rattle.std.specs.List.{flat_map};
ghost use Rattle.edd_syntax.specs.Words.{unescape};
ghost use Rattle.edd_image.specs.Contents.{Contents};
ghost use Rattle.edd_display.specs.Shown.{AreOnce, Entry, Shows, entries_of};
ghost use Rattle.edd_display.specs.Words.{escape, quoted};

use edd_instructions::readings_are_unique;

/// A text between quotes is the text again where its escapes are replaced, so what is between quotes
/// determines it.
pub fn quoted_texts_are_told_apart()
    ensures read { (text : List ℕ) → unescape (flat_map escape text) ≡ text }
    ensures apart { (text other : List ℕ) → quoted text ≡ quoted other → text ≡ other }
{}

/// An image shows one text under the same values and in the same language.
pub fn one_text_is_shown()
    ensures { (b : List ℕ) (values : List ℤ) (code : List ℕ) (entries : List Entry)
        (text other : List ℕ) → Shows b values code entries text → Shows b values code entries other
        → text ≡ other }
{
    readings_are_unique();
}

/// No entry of an image stands twice.
pub fn entries_stand_once()
    ensures { (c : Contents) → AreOnce (entries_of c) }
{}
