//! Laws of the strings of attributes.

ghost use Rattle.std.specs.List.{Contains};
ghost use Rattle.edd_syntax.specs.declared.numbers.AttrRef.{AttrRef};
ghost use Rattle.edd_syntax.specs.declared.reference.Target.{Target};
ghost use Rattle.edd_syntax.specs.Item.{Description};
ghost use Rattle.edd_syntax.specs.Strings.{unit_strings};
ghost use Rattle.edd_syntax.specs.Words.{Words};
ghost use Rattle.edd_attrs.specs.Sizes.{strings_at};

/// The strings of an attribute are strings of its description.
pub fn strings_are_the_descriptions()
    ensures { (unit : Description Target) (row : AttrRef) (w : Words)
        → Contains (strings_at unit row) w → Contains (unit_strings unit) w }
{}
