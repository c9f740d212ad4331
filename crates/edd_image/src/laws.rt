//! Laws of the definitions, for the crates above.

ghost use Rattle.std.specs.Prelude.{◌≡◌, Some};
ghost use Rattle.edd_image.specs.Layout.{Sections, AreSections, layout};
ghost use Rattle.edd_syntax.specs.Words.{Words};
ghost use Rattle.edd_image.specs.Strings.{WordsFit, string_bytes, string_in};
ghost use Rattle.edd_image.specs.Contents.{contents_in, contents_of};

/// The fields of a layout are its parts.
pub fn fields_are_parts()
    ensures { (s : Sections) → AreSections s → contents_in (layout s) ≡ contents_of s }
{}

/// A string that was written is read again.
pub fn written_strings_are_read()
    ensures { (w : Words) → WordsFit w → string_in (string_bytes w) ≡ Some w }
{}
