//! The fields of a row. `row` is the place of its first byte.

ghost use Rattle.std.specs.Prelude.{◌≡◌, ◌+◌, ◌≤◌, length};
ghost use Rattle.edd_image.specs.Fields.{variable_type, variable_size, variable_padding, name_start, name_length, name_padding, attribute_kind, attribute_number, attribute_item, attribute_sub, attribute_padding, attribute_start, attribute_length, element_array, element_variable, element_number, string_start, string_length};

use crate::fields::{u8_at, u16_at, u32_at};

/// How many bytes a variable row has.
pub const VARIABLE_ROW: usize = 4;

/// How many bytes a name row has.
pub const NAME_ROW: usize = 8;

/// How many bytes an attribute row has.
pub const ATTRIBUTE_ROW: usize = 16;

/// How many bytes an element row has.
pub const ELEMENT_ROW: usize = 8;

/// How many bytes a string row has.
pub const STRING_ROW: usize = 8;

/// The type of a variable: 1 INTEGER, 2 UNSIGNED_INTEGER, 3 ENUMERATED, 4 BIT_ENUMERATED.
pub fn variable_type(bytes: &[u8], row: usize) -> u8
    requires { row + VARIABLE_ROW ≤ length bytes.now }
    ensures { result ≡ variable_type bytes.now row }
{
    u8_at(bytes, row)
}

/// The size of a variable in octets.
pub fn variable_size(bytes: &[u8], row: usize) -> u8
    requires { row + VARIABLE_ROW ≤ length bytes.now }
    ensures { result ≡ variable_size bytes.now row }
{
    u8_at(bytes, row + 1)
}

/// The zero of a variable row.
pub fn variable_padding(bytes: &[u8], row: usize) -> u16
    requires { row + VARIABLE_ROW ≤ length bytes.now }
    ensures { result ≡ variable_padding bytes.now row }
{
    u16_at(bytes, row + 2)
}

/// Where a name starts among the bytes of the names.
pub fn name_start(bytes: &[u8], row: usize) -> u32
    requires { row + NAME_ROW ≤ length bytes.now }
    ensures { result ≡ name_start bytes.now row }
{
    u32_at(bytes, row)
}

/// How many bytes a name has.
pub fn name_length(bytes: &[u8], row: usize) -> u16
    requires { row + NAME_ROW ≤ length bytes.now }
    ensures { result ≡ name_length bytes.now row }
{
    u16_at(bytes, row + 4)
}

/// The zero of a name row.
pub fn name_padding(bytes: &[u8], row: usize) -> u16
    requires { row + NAME_ROW ≤ length bytes.now }
    ensures { result ≡ name_padding bytes.now row }
{
    u16_at(bytes, row + 6)
}

/// The number of the item's kind.
pub fn attribute_kind(bytes: &[u8], row: usize) -> u8
    requires { row + ATTRIBUTE_ROW ≤ length bytes.now }
    ensures { result ≡ attribute_kind bytes.now row }
{
    u8_at(bytes, row)
}

/// The number of the attribute.
pub fn attribute_number(bytes: &[u8], row: usize) -> u8
    requires { row + ATTRIBUTE_ROW ≤ length bytes.now }
    ensures { result ≡ attribute_number bytes.now row }
{
    u8_at(bytes, row + 1)
}

/// The item's number among the items of its kind.
pub fn attribute_item(bytes: &[u8], row: usize) -> u16
    requires { row + ATTRIBUTE_ROW ≤ length bytes.now }
    ensures { result ≡ attribute_item bytes.now row }
{
    u16_at(bytes, row + 2)
}

/// A transaction's position, a method's number of slots, or 0.
pub fn attribute_sub(bytes: &[u8], row: usize) -> u16
    requires { row + ATTRIBUTE_ROW ≤ length bytes.now }
    ensures { result ≡ attribute_sub bytes.now row }
{
    u16_at(bytes, row + 4)
}

/// The zero of an attribute row.
pub fn attribute_padding(bytes: &[u8], row: usize) -> u16
    requires { row + ATTRIBUTE_ROW ≤ length bytes.now }
    ensures { result ≡ attribute_padding bytes.now row }
{
    u16_at(bytes, row + 6)
}

/// Where the unit starts in the code.
pub fn attribute_start(bytes: &[u8], row: usize) -> u32
    requires { row + ATTRIBUTE_ROW ≤ length bytes.now }
    ensures { result ≡ attribute_start bytes.now row }
{
    u32_at(bytes, row + 8)
}

/// How many bytes the unit has.
pub fn attribute_length(bytes: &[u8], row: usize) -> u32
    requires { row + ATTRIBUTE_ROW ≤ length bytes.now }
    ensures { result ≡ attribute_length bytes.now row }
{
    u32_at(bytes, row + 12)
}

/// The array of an element.
pub fn element_array(bytes: &[u8], row: usize) -> u16
    requires { row + ELEMENT_ROW ≤ length bytes.now }
    ensures { result ≡ element_array bytes.now row }
{
    u16_at(bytes, row)
}

/// The variable of an element.
pub fn element_variable(bytes: &[u8], row: usize) -> u16
    requires { row + ELEMENT_ROW ≤ length bytes.now }
    ensures { result ≡ element_variable bytes.now row }
{
    u16_at(bytes, row + 2)
}

/// The number of an element.
pub fn element_number(bytes: &[u8], row: usize) -> u32
    requires { row + ELEMENT_ROW ≤ length bytes.now }
    ensures { result ≡ element_number bytes.now row }
{
    u32_at(bytes, row + 4)
}

/// Where a string starts among the bytes of the strings.
pub fn string_start(bytes: &[u8], row: usize) -> u32
    requires { row + STRING_ROW ≤ length bytes.now }
    ensures { result ≡ string_start bytes.now row }
{
    u32_at(bytes, row)
}

/// How many bytes a string has.
pub fn string_length(bytes: &[u8], row: usize) -> u32
    requires { row + STRING_ROW ≤ length bytes.now }
    ensures { result ≡ string_length bytes.now row }
{
    u32_at(bytes, row + 4)
}
