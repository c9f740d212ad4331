//! What an image is made of.

ghost use Rattle.std.specs.Prelude.{◌≡◌, ◌+◌, ◌*◌, ◌<◌, ◌^◌, vec_len};
ghost use Rattle.edd_image.specs.declared.versions.Version.TheVariants.{One};
ghost use Rattle.edd_image.specs.Versions.{header_size};
ghost use Rattle.edd_image.specs.Existing.{string_exists, optional_string_exists, variable_exists, array_exists, method_exists, item_exists};

use crate::versions::Version;
use edd_syntax::numbers::{ArrNo, Attr, Element, ItemNo, MethNo, StrNo, VarNo};
use edd_syntax::types::VarType;

/// The type and the size of a variable, in octets.
#[derive(Clone, Copy, PartialEq, Eq, Debug)]
pub struct VarKind {
    pub var_type: VarType,
    pub size: u8,
}

/// Where an item's name is among the name bytes.
#[derive(Clone, Copy, PartialEq, Eq, Debug)]
pub struct NameRow {
    pub start: u32,
    pub length: u16,
}

/// An attribute of an item, and where its unit is in the code. `sub` is a transaction's
/// position for TRANSACTION, REQUEST and REPLY, the number of slots for DEFINITION, and else 0.
#[derive(Clone, Copy, PartialEq, Eq, Debug)]
pub struct AttributeRow {
    pub item: ItemNo,
    pub attr: Attr,
    pub sub: u16,
    pub start: u32,
    pub length: u32,
}

/// Where a string is among the string bytes.
#[derive(Clone, Copy, PartialEq, Eq, Debug)]
pub struct StringRow {
    pub start: u32,
    pub length: u32,
}

/// How many there are of what has a number, and the four identification numbers of the description.
#[derive(Clone, Copy, PartialEq, Eq, Debug)]
pub struct Counts {
    pub variables: u16,
    pub commands: u16,
    pub menus: u16,
    pub collections: u16,
    pub methods: u16,
    pub arrays: u16,
    pub strings: u16,
    pub manufacturer: u32,
    pub device_type: u32,
    pub device_revision: u32,
    pub dd_revision: u32,
}

impl Counts {
    /// Whether there is such a string.
    pub fn has_string(self, string: StrNo) -> bool
        ensures { result ≡ string_exists self string }
    {
        string.0 < self.strings
    }

    /// Whether there is such a string, where one is named.
    pub fn has_optional_string(self, string: Option<StrNo>) -> bool
        ensures { result ≡ optional_string_exists self string }
    {
        match string {
            None => true,
            Some(string) => self.has_string(string),
        }
    }

    /// Whether there is such a variable.
    pub fn has_variable(self, variable: VarNo) -> bool
        ensures { result ≡ variable_exists self variable }
    {
        variable.0 < self.variables
    }

    /// Whether there is such an array.
    pub fn has_array(self, array: ArrNo) -> bool
        ensures { result ≡ array_exists self array }
    {
        array.0 < self.arrays
    }

    /// Whether there is such a method.
    pub fn has_method(self, method: MethNo) -> bool
        ensures { result ≡ method_exists self method }
    {
        method.0 < self.methods
    }

    /// Whether there is such an item.
    pub fn has_item(self, item: ItemNo) -> bool
        ensures { result ≡ item_exists self item }
    {
        match item {
            ItemNo::Variable(number) => number.0 < self.variables,
            ItemNo::Command(number) => number.0 < self.commands,
            ItemNo::Menu(number) => number.0 < self.menus,
            ItemNo::Collection(number) => number.0 < self.collections,
            ItemNo::Method(number) => number.0 < self.methods,
            ItemNo::Array(number) => self.has_array(number),
        }
    }
}

/// The sections of an image in their order. Names are in the order of kind and number, elements in
/// that of array and number. There are no arrays in the first version of the layout.
#[derive(Debug, Drop)]
pub struct Parts {
    pub version: Version,
    pub counts: Counts,
    pub variables: Vec<VarKind>,
    pub names: Vec<NameRow>,
    pub attributes: Vec<AttributeRow>,
    pub elements: Vec<Element>,
    pub code: Vec<u8>,
    pub strings: Vec<StringRow>,
    pub name_bytes: Vec<u8>,
    pub string_bytes: Vec<u8>,
    ghost variables_counted: { counts.variables ≡ vec_len variables },
    ghost names_counted: { counts.variables + counts.commands + counts.menus + counts.collections
        + counts.methods
        + counts.arrays ≡ vec_len names },
    ghost no_arrays: { version ≡ One → counts.arrays ≡ 0 },
    ghost no_elements: { version ≡ One → vec_len elements ≡ 0 },
    ghost strings_counted: { counts.strings ≡ vec_len strings },
    ghost fits: { header_size version + 4 * vec_len variables + 8 * vec_len names
        + 16 * vec_len attributes
        + 8 * vec_len elements
        + vec_len code
        + 8 * vec_len strings + vec_len name_bytes + vec_len string_bytes < 2 ^ 32 },
}
