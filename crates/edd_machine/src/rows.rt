//! The unit of an attribute or of a method's body.

ghost use Rattle.std.specs.Prelude.{◌≡◌, ◌+◌, ◌≤◌, IfSome, length, option_map};
ghost use Rattle.edd_image.specs.Contents.{attribute_fields, contents_in};
ghost use Rattle.edd_instructions.specs.Reading.{row_of, body_of};
ghost use Rattle.edd_instructions.specs.Validity.{IsValid};
ghost use Rattle.edd_instructions.specs.declared.unit.Sort.TheVariants.{Method};
ghost use Rattle.edd_loader.specs.Starts.{starts_in};
ghost use Rattle.edd_machine.specs.Running.{unit_at, IsUnitOf};

use crate::code_unit::CodeUnit;
use edd_image::{
    ATTRIBUTE_ROW, attribute_item, attribute_length, attribute_number, attribute_start,
    attribute_sub,
};
use edd_instructions::Sort;
use edd_loader::{Image, Starts, attribute_row, body_row};
use edd_syntax::numbers::{Attr, AttrRef, MethNo};

// The number of DEFINITION, whose unit is a method's body.
const DEFINITION: u8 = Attr::Definition as u8;

// The unit of a row.
fn placed_unit(bytes: &[u8], starts: Starts, row: usize) -> CodeUnit
    requires valid { IsValid bytes.now }
    requires starts { starts ≡ starts_in bytes.now }
    requires row { row + ATTRIBUTE_ROW ≤ length bytes.now }
    ensures { result ≡ unit_at bytes.now (attribute_fields bytes.now row) }
{
    let start = starts.code + attribute_start(bytes, row) as usize;
    let size = attribute_length(bytes, row) as usize;
    let item = attribute_item(bytes, row);
    if attribute_number(bytes, row) == DEFINITION {
        CodeUnit {
            sort: Sort::Method,
            item,
            slots: attribute_sub(bytes, row),
            start,
            size,
        }
    } else {
        CodeUnit {
            sort: Sort::Attribute,
            item,
            slots: 0,
            start,
            size,
        }
    }
}

/// The unit of an attribute, if it has a row.
pub fn find_attribute(image: &Image<'_>, attr: AttrRef) -> Option<CodeUnit>
    ensures { result ≡ option_map (unit_at image.now) (row_of (contents_in image.now) attr) }
{
    let bytes = image.bytes();
    let starts = image.starts();
    let row = attribute_row(bytes, starts.attribute_rows, attr)?;
    Some(placed_unit(bytes, starts, row))
}

/// The unit of a method's body, if it has a row: a `Machine` may be opened on it.
pub fn find_body(image: &Image<'_>, method: MethNo) -> Option<CodeUnit>
    ensures value { result ≡ option_map (unit_at image.now)
        (body_of (contents_in image.now) method) }
    ensures valid { IsValid image.now }
    ensures unit { IfSome result (IsUnitOf image.now) }
    ensures sort { IfSome result (λ unit. unit.sort ≡ Method) }
    ensures slots { IfSome result (λ unit. unit.slots ≤ 64) }
{
    let bytes = image.bytes();
    let starts = image.starts();
    let row = body_row(bytes, starts.attribute_rows, method)?;
    Some(placed_unit(bytes, starts, row))
}
