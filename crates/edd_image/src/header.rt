//! The fields of the header, and where the sections start.

ghost use Rattle.std.specs.Prelude.{◌≡◌, ◌≤◌, length};
ghost use Rattle.edd_image.specs.Contents.{version_of};
ghost use Rattle.edd_image.specs.Fields.{has_magic, version_number, is_extended, header_padding, extension_padding, array_count, element_count, total_length, counts_in, attribute_count, names_length, code_length, strings_length, header_length};

use crate::fields::{u8_at, u16_at, u32_at};
use crate::parts::Counts;
use crate::versions::Version;

/// How many bytes the header has at least.
pub const HEADER_LENGTH: usize = 56;

/// How many bytes the header has in the second version.
pub const EXTENDED_HEADER_LENGTH: usize = 64;

/// Whether the image begins with `EDI1`.
pub fn has_magic(bytes: &[u8]) -> bool
    requires { header_length ≤ length bytes.now }
    ensures { result ≡ has_magic bytes.now }
{
    u8_at(bytes, 0) == 0x45
        && u8_at(bytes, 1) == 0x44
        && u8_at(bytes, 2) == 0x49
        && u8_at(bytes, 3) == 0x31
}

/// The version of the layout, where its number is known.
pub fn version(bytes: &[u8]) -> Option<Version>
    requires { header_length ≤ length bytes.now }
    ensures { result ≡ version_of (version_number bytes.now) }
{
    match u16_at(bytes, 4) {
        1 => Some(Version::One),
        2 => Some(Version::Two),
        _ => None,
    }
}

// Whether the header is that of the second version, and whole.
fn is_extended(bytes: &[u8]) -> bool
    requires { header_length ≤ length bytes.now }
    ensures { result ≡ is_extended bytes.now }
{
    u16_at(bytes, 4) == 2 && bytes.len() >= EXTENDED_HEADER_LENGTH
}

/// The zero after the version.
pub fn header_padding(bytes: &[u8]) -> u16
    requires { header_length ≤ length bytes.now }
    ensures { result ≡ header_padding bytes.now }
{
    u16_at(bytes, 6)
}

/// How many bytes the image has.
pub fn total_length(bytes: &[u8]) -> u32
    requires { header_length ≤ length bytes.now }
    ensures { result ≡ total_length bytes.now }
{
    u32_at(bytes, 8)
}

/// The manufacturer's number.
pub fn manufacturer(bytes: &[u8]) -> u32
    requires { header_length ≤ length bytes.now }
    ensures { result ≡ (counts_in bytes.now).manufacturer }
{
    u32_at(bytes, 12)
}

/// The number of the type of device.
pub fn device_type(bytes: &[u8]) -> u32
    requires { header_length ≤ length bytes.now }
    ensures { result ≡ (counts_in bytes.now).device_type }
{
    u32_at(bytes, 16)
}

/// The revision of the device.
pub fn device_revision(bytes: &[u8]) -> u32
    requires { header_length ≤ length bytes.now }
    ensures { result ≡ (counts_in bytes.now).device_revision }
{
    u32_at(bytes, 20)
}

/// The revision of the description.
pub fn dd_revision(bytes: &[u8]) -> u32
    requires { header_length ≤ length bytes.now }
    ensures { result ≡ (counts_in bytes.now).dd_revision }
{
    u32_at(bytes, 24)
}

/// How many variables there are.
pub fn variable_count(bytes: &[u8]) -> u16
    requires { header_length ≤ length bytes.now }
    ensures { result ≡ (counts_in bytes.now).variables }
{
    u16_at(bytes, 28)
}

/// How many arrays there are.
pub fn array_count(bytes: &[u8]) -> u16
    requires { header_length ≤ length bytes.now }
    ensures { result ≡ array_count bytes.now }
{
    if is_extended(bytes) {
        u16_at(bytes, 56)
    } else {
        0
    }
}

/// The zero after the count of arrays.
pub fn extension_padding(bytes: &[u8]) -> u16
    requires { header_length ≤ length bytes.now }
    ensures { result ≡ extension_padding bytes.now }
{
    if is_extended(bytes) {
        u16_at(bytes, 58)
    } else {
        0
    }
}

/// How many element rows there are.
pub fn element_count(bytes: &[u8]) -> u32
    requires { header_length ≤ length bytes.now }
    ensures { result ≡ element_count bytes.now }
{
    if is_extended(bytes) {
        u32_at(bytes, 60)
    } else {
        0
    }
}

/// How many strings there are.
pub fn string_count(bytes: &[u8]) -> u16
    requires { header_length ≤ length bytes.now }
    ensures { result ≡ (counts_in bytes.now).strings }
{
    u16_at(bytes, 38)
}

/// How many attribute rows there are.
pub fn attribute_count(bytes: &[u8]) -> u32
    requires { header_length ≤ length bytes.now }
    ensures { result ≡ attribute_count bytes.now }
{
    u32_at(bytes, 40)
}

/// How many bytes the names have.
pub fn names_length(bytes: &[u8]) -> u32
    requires { header_length ≤ length bytes.now }
    ensures { result ≡ names_length bytes.now }
{
    u32_at(bytes, 44)
}

/// How many bytes the code has.
pub fn code_length(bytes: &[u8]) -> u32
    requires { header_length ≤ length bytes.now }
    ensures { result ≡ code_length bytes.now }
{
    u32_at(bytes, 48)
}

/// How many bytes the strings have.
pub fn strings_length(bytes: &[u8]) -> u32
    requires { header_length ≤ length bytes.now }
    ensures { result ≡ strings_length bytes.now }
{
    u32_at(bytes, 52)
}

/// The identification and the seven counts.
pub fn counts(bytes: &[u8]) -> Counts
    requires { header_length ≤ length bytes.now }
    ensures { result ≡ counts_in bytes.now }
{
    Counts {
        variables: variable_count(bytes),
        commands: u16_at(bytes, 30),
        menus: u16_at(bytes, 32),
        collections: u16_at(bytes, 34),
        methods: u16_at(bytes, 36),
        arrays: array_count(bytes),
        strings: string_count(bytes),
        manufacturer: manufacturer(bytes),
        device_type: device_type(bytes),
        device_revision: device_revision(bytes),
        dd_revision: dd_revision(bytes),
    }
}
