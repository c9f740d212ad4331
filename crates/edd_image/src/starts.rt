//! Where the sections start. The variable rows come after the header, and each section after the
//! one before it. From the element rows on the numbers of a header may add up to more than a length
//! holds on a machine of 32 bits, so these places are of 64 bits.

ghost use Rattle.std.specs.Prelude.{◌≡◌, ◌≤◌, ◌<◌, ◌+◌, ◌*◌, ◌^◌, length};
ghost use Rattle.edd_image.specs.Fields.{header_length, variable_rows_start, name_rows_start, attribute_rows_start, element_rows_start, code_start, string_rows_start, name_bytes_start, string_bytes_start, sections_end};

use crate::fields::u16_at;
use crate::header::{
    EXTENDED_HEADER_LENGTH, HEADER_LENGTH, array_count, attribute_count, code_length,
    element_count, names_length, string_count, strings_length, variable_count,
};

/// Where the variable rows start.
#[tactic(auto, unfolding(crate::specs::Fields::variable_rows_start))]
pub fn variable_rows_start(bytes: &[u8]) -> usize
    requires { header_length ≤ length bytes.now }
    ensures start { result ≡ variable_rows_start bytes.now }
    ensures small { result ≤ 64 }
{
    if u16_at(bytes, 4) == 2 {
        EXTENDED_HEADER_LENGTH
    } else {
        HEADER_LENGTH
    }
}

/// Where the name rows start.
#[tactic(auto, unfolding(crate::specs::Fields::name_rows_start))]
pub fn name_rows_start(bytes: &[u8]) -> usize
    requires { header_length ≤ length bytes.now }
    ensures start { result ≡ name_rows_start bytes.now }
    ensures small { result < 2 ^ 20 }
{
    variable_rows_start(bytes) + 4 * variable_count(bytes) as usize
}

/// Where the attribute rows start.
#[tactic(auto, unfolding(crate::specs::Fields::attribute_rows_start))]
pub fn attribute_rows_start(bytes: &[u8]) -> usize
    requires { header_length ≤ length bytes.now }
    ensures start { result ≡ attribute_rows_start bytes.now }
    ensures small { result < 2 ^ 24 }
{
    // Of variables, commands, menus, collections, methods and arrays.
    let items = variable_count(bytes) as usize
        + u16_at(bytes, 30) as usize
        + u16_at(bytes, 32) as usize
        + u16_at(bytes, 34) as usize
        + u16_at(bytes, 36) as usize
        + array_count(bytes) as usize;
    name_rows_start(bytes) + 8 * items
}

/// Where the element rows start.
#[tactic(auto, unfolding(crate::specs::Fields::element_rows_start))]
pub fn element_rows_start(bytes: &[u8]) -> u64
    requires { header_length ≤ length bytes.now }
    ensures start { result ≡ element_rows_start bytes.now }
    ensures small { result < 2 ^ 37 }
{
    attribute_rows_start(bytes) as u64 + 16 * u64::from(attribute_count(bytes))
}

/// Where the code starts.
#[tactic(auto, unfolding(crate::specs::Fields::code_start))]
pub fn code_start(bytes: &[u8]) -> u64
    requires { header_length ≤ length bytes.now }
    ensures start { result ≡ code_start bytes.now }
    ensures small { result < 2 ^ 38 }
{
    element_rows_start(bytes) + 8 * u64::from(element_count(bytes))
}

/// Where the string rows start.
#[tactic(auto, unfolding(crate::specs::Fields::string_rows_start))]
pub fn string_rows_start(bytes: &[u8]) -> u64
    requires { header_length ≤ length bytes.now }
    ensures start { result ≡ string_rows_start bytes.now }
    ensures small { result < 2 ^ 39 }
{
    code_start(bytes) + u64::from(code_length(bytes))
}

/// Where the bytes of the names start.
#[tactic(auto, unfolding(crate::specs::Fields::name_bytes_start))]
pub fn name_bytes_start(bytes: &[u8]) -> u64
    requires { header_length ≤ length bytes.now }
    ensures start { result ≡ name_bytes_start bytes.now }
    ensures small { result < 2 ^ 40 }
{
    string_rows_start(bytes) + 8 * u64::from(string_count(bytes))
}

/// Where the bytes of the strings start.
#[tactic(auto, unfolding(crate::specs::Fields::string_bytes_start))]
pub fn string_bytes_start(bytes: &[u8]) -> u64
    requires { header_length ≤ length bytes.now }
    ensures start { result ≡ string_bytes_start bytes.now }
    ensures small { result < 2 ^ 41 }
{
    name_bytes_start(bytes) + u64::from(names_length(bytes))
}

/// The place after the last section.
#[tactic(auto, unfolding(crate::specs::Fields::sections_end))]
pub fn sections_end(bytes: &[u8]) -> u64
    requires { header_length ≤ length bytes.now }
    ensures start { result ≡ sections_end bytes.now }
    ensures small { result < 2 ^ 42 }
{
    string_bytes_start(bytes) + u64::from(strings_length(bytes))
}
