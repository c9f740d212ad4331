//! What an image has, as a program in C looks it up.

ghost use Rattle.std.specs.Prelude.{◌≡◌, ◌≢◌, IfNone, IfSome, Some, option_and_then, option_map};
ghost use Rattle.std.specs.List.{slice_get};
ghost use Rattle.edd_syntax.specs.declared.numbers.ItemNo.{ItemNo};
ghost use Rattle.edd_syntax.specs.Elements.{element_variable};
ghost use Rattle.edd_syntax.specs.Numbers.{item_from_numbers};
ghost use Rattle.edd_image.specs.Contents.{contents_in};
ghost use Rattle.edd_image.specs.Layout.{type_code};
ghost use Rattle.edd_instructions.specs.Agreement.{name_numbered, string_numbered};
ghost use Rattle.edd_instructions.specs.Reading.{environment_of};
ghost use Rattle.edd_loader.specs.Lookups.{IsFirstNamed, type_of_kind};
ghost use Rattle.edd_embed.specs.Lookups.{language_of, plain_given, plain_item, plain_type, shown};

use edd_image::VarKind;
use edd_loader::{Image, Text};
use edd_syntax::numbers::{ArrNo, ItemNo, StrNo, VarNo};
use edd_syntax::types::VarType;

/// Bytes of an image that are a text or a name: UTF-8, without a 0 at the end.
#[repr(C)]
#[derive(Clone, Copy, Drop)]
pub struct Words<'b> {
    pub bytes: &'b [u8],
    /// 1 where it is the name of a key of the dictionary, else 0.
    pub is_key: u8,
}

/// An item, by its kind from 1 to 6 and its number among those of the kind.
#[repr(C)]
#[derive(Clone, Copy, PartialEq, Eq, Debug)]
pub struct PlainItem {
    pub number: u16,
    pub kind: u8,
}

/// The type of a variable: 1 INTEGER, 2 UNSIGNED_INTEGER, 3 ENUMERATED, 4 BIT_ENUMERATED; and its
/// size in octets, from 1 to 4.
#[repr(C)]
#[derive(Clone, Copy, PartialEq, Eq, Debug)]
pub struct PlainType {
    pub var_type: u8,
    pub size: u8,
}

fn plain_item(item: ItemNo) -> PlainItem
    ensures { result ≡ plain_item item }
{
    PlainItem {
        number: item.index(),
        kind: item.kind().number(),
    }
}

fn type_number(var_type: VarType) -> u8
    ensures { result ≡ type_code var_type }
{
    match var_type {
        VarType::Integer => 1,
        VarType::UnsignedInteger => 2,
        VarType::Enumerated => 3,
        VarType::BitEnumerated => 4,
    }
}

fn plain_type(kind: VarKind) -> PlainType
    ensures { result ≡ plain_type (type_of_kind kind) }
{
    PlainType {
        var_type: type_number(kind.var_type),
        size: kind.size,
    }
}

/// The first item of this name, if there is one.
pub fn find_item(image: &Image<'_>, name: &[u8]) -> Option<PlainItem>
    ensures sound { IfSome result (λ found. (item : ItemNo) × (found ≡ plain_item item)
        × (name_numbered (contents_in image.now) item ≡ Some name.now)
        × IsFirstNamed (contents_in image.now) name.now item) }
    ensures complete { IfNone result ((item : ItemNo)
        → name_numbered (contents_in image.now) item ≢ Some name.now) }
{
    // The names of an image are UTF-8.
    let _bytes = image.bytes();
    match str::from_utf8(name) {
        Ok(name) => match image.find(name) {
            Some(item) => Some(plain_item(item)),
            None => None,
        },
        Err(_) => None,
    }
}

/// The name of an item, if there is such an item.
pub fn name_of<'b>(image: &Image<'b>, kind: u8, number: u16) -> Option<Words<'b>>
    ensures { option_map shown result ≡ option_map (λ name. (0, name))
        (option_and_then (name_numbered (contents_in image.now))
        (item_from_numbers kind number)) }
{
    let item = ItemNo::from_numbers(kind, number)?;
    let name = image.name(item)?;
    Some(Words {
        bytes: name.as_bytes(),
        is_key: 0,
    })
}

// The code, or none where it is no UTF-8.
fn language_of(code: &[u8]) -> &str
    ensures { result.now ≡ language_of code.now }
{
    match str::from_utf8(code) {
        Ok(code) => code,
        Err(_) => "",
    }
}

/// The text of a string for a language, given by its code, if there is such a string.
pub fn text_for<'b>(image: &Image<'b>, string: u16, code: &[u8]) -> Option<Words<'b>>
    ensures { option_map shown result
        ≡ option_map (λ words. plain_given words (language_of code.now))
        (string_numbered (contents_in image.now) (record { 0 = string })) }
{
    match image.text(StrNo(string), language_of(code)) {
        Some(Text::Words(words)) => Some(Words {
            bytes: words.as_bytes(),
            is_key: 0,
        }),
        Some(Text::Key(name)) => Some(Words {
            bytes: name.as_bytes(),
            is_key: 1,
        }),
        None => None,
    }
}

/// The type of a variable, if there is such a variable.
pub fn type_of(image: &Image<'_>, variable: u16) -> Option<PlainType>
    ensures { result ≡ option_map plain_type
        (slice_get (environment_of (contents_in image.now)).types variable) }
{
    let kind = image.variable(VarNo(variable))?;
    Some(plain_type(kind))
}

/// The variable of an element, if the array has an element of this number.
pub fn element_of(image: &Image<'_>, array: u16, number: i64) -> Option<u16>
    ensures { result ≡ option_map (λ v. v.0)
        (element_variable (contents_in image.now).elements (record { 0 = array }) number) }
{
    let variable = image.element(ArrNo(array), number)?;
    Some(variable.0)
}
