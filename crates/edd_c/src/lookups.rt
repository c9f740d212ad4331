//! Names, texts, types and elements.

ghost use Rattle.std.specs.Prelude.{◌≡◌, ◌≢◌, ◌⊎◌, None, Some, option_and_then, option_map};
ghost use Rattle.std.specs.List.{slice_get};
ghost use Rattle.edd_syntax.specs.declared.numbers.ItemNo.{ItemNo};
ghost use Rattle.edd_syntax.specs.Elements.{element_variable};
ghost use Rattle.edd_syntax.specs.Numbers.{item_from_numbers};
ghost use Rattle.edd_image.specs.Contents.{contents_in};
ghost use Rattle.edd_instructions.specs.Agreement.{name_numbered, string_numbered};
ghost use Rattle.edd_instructions.specs.Reading.{environment_of};
ghost use Rattle.edd_instructions.specs.Validity.{IsValid};
ghost use Rattle.edd_loader.specs.Lookups.{IsFirstNamed};
ghost use Rattle.edd_embed.specs.Images.{AreOf};
ghost use Rattle.edd_embed.specs.Lookups.{language_of, plain_given, plain_item, plain_type, shown};

use edd_embed::statuses::{DONE, NO_ITEM, OTHER_IMAGE};
use edd_embed::{
    ImageNumbers, PlainItem, PlainType, Words, element_of, find_item, name_of, text_for, type_of,
};

/// The first item of a name.
#[unsafe(no_mangle)]
pub extern "C" fn edd_find(
    bytes: &[u8],
    image: &ImageNumbers,
    name: &[u8],
    item: &mut PlainItem,
) -> u32
    requires { AreOf image.now bytes.now → IsValid bytes.now }
    ensures sound { result ≡ 0 → (found : ItemNo) × (item.new ≡ plain_item found)
        × (name_numbered (contents_in bytes.now) found ≡ Some name.now)
        × IsFirstNamed (contents_in bytes.now) name.now found }
    ensures none { result ≡ 203 → (found : ItemNo)
        → name_numbered (contents_in bytes.now) found ≢ Some name.now }
    ensures refused { result ≢ 0 → (result ≡ 203) ⊎ (result ≡ 260) }
    ensures accepted { result ≢ 260 → AreOf image.now bytes.now }
    ensures other { result ≡ 260 → ¬ AreOf image.now bytes.now }
    ensures kept { result ≢ 0 → item.new ≡ item.old }
{
    let Some(image) = image.image(bytes) else {
        return OTHER_IMAGE;
    };
    match find_item(&image, name) {
        Some(found) => {
            *item = found;
            DONE
        }
        None => NO_ITEM,
    }
}

/// The name of an item.
#[unsafe(no_mangle)]
pub extern "C" fn edd_name<'b>(
    bytes: &'b [u8],
    image: &ImageNumbers,
    kind: u8,
    number: u16,
    name: &mut Words<'b>,
) -> u32
    requires { AreOf image.now bytes.now → IsValid bytes.now }
    ensures sound { result ≡ 0 → option_map (λ name. (0, name))
        (option_and_then (name_numbered (contents_in bytes.now)) (item_from_numbers kind number))
        ≡ Some (shown name.new) }
    ensures none { result ≡ 203
        → option_and_then (name_numbered (contents_in bytes.now)) (item_from_numbers kind number)
        ≡ None }
    ensures refused { result ≢ 0 → (result ≡ 203) ⊎ (result ≡ 260) }
    ensures accepted { result ≢ 260 → AreOf image.now bytes.now }
    ensures other { result ≡ 260 → ¬ AreOf image.now bytes.now }
    ensures kept { result ≢ 0 → name.new ≡ name.old }
{
    let Some(image) = image.image(bytes) else {
        return OTHER_IMAGE;
    };
    match name_of(&image, kind, number) {
        Some(found) => {
            *name = found;
            DONE
        }
        None => NO_ITEM,
    }
}

/// The text of a string for a language.
#[unsafe(no_mangle)]
pub extern "C" fn edd_text<'b>(
    bytes: &'b [u8],
    image: &ImageNumbers,
    string: u16,
    code: &[u8],
    text: &mut Words<'b>,
) -> u32
    requires { AreOf image.now bytes.now → IsValid bytes.now }
    ensures sound { result ≡ 0
        → option_map (λ words. plain_given words (language_of code.now))
        (string_numbered (contents_in bytes.now) (record { 0 = string }))
        ≡ Some (shown text.new) }
    ensures none { result ≡ 203
        → string_numbered (contents_in bytes.now) (record { 0 = string }) ≡ None }
    ensures refused { result ≢ 0 → (result ≡ 203) ⊎ (result ≡ 260) }
    ensures accepted { result ≢ 260 → AreOf image.now bytes.now }
    ensures other { result ≡ 260 → ¬ AreOf image.now bytes.now }
    ensures kept { result ≢ 0 → text.new ≡ text.old }
{
    let Some(image) = image.image(bytes) else {
        return OTHER_IMAGE;
    };
    match text_for(&image, string, code) {
        Some(found) => {
            *text = found;
            DONE
        }
        None => NO_ITEM,
    }
}

/// The type of a variable.
#[unsafe(no_mangle)]
pub extern "C" fn edd_variable(
    bytes: &[u8],
    image: &ImageNumbers,
    variable: u16,
    type_found: &mut PlainType,
) -> u32
    requires { AreOf image.now bytes.now → IsValid bytes.now }
    ensures sound { result ≡ 0 → option_map plain_type
        (slice_get (environment_of (contents_in bytes.now)).types variable)
        ≡ Some type_found.new }
    ensures none { result ≡ 203
        → slice_get (environment_of (contents_in bytes.now)).types variable ≡ None }
    ensures refused { result ≢ 0 → (result ≡ 203) ⊎ (result ≡ 260) }
    ensures accepted { result ≢ 260 → AreOf image.now bytes.now }
    ensures other { result ≡ 260 → ¬ AreOf image.now bytes.now }
    ensures kept { result ≢ 0 → type_found.new ≡ type_found.old }
{
    let Some(image) = image.image(bytes) else {
        return OTHER_IMAGE;
    };
    match type_of(&image, variable) {
        Some(found) => {
            *type_found = found;
            DONE
        }
        None => NO_ITEM,
    }
}

/// The variable of an element of an array.
#[unsafe(no_mangle)]
pub extern "C" fn edd_element(
    bytes: &[u8],
    image: &ImageNumbers,
    array: u16,
    number: i64,
    variable: &mut u16,
) -> u32
    requires { AreOf image.now bytes.now → IsValid bytes.now }
    ensures sound { result ≡ 0 → option_map (λ v. v.0)
        (element_variable (contents_in bytes.now).elements (record { 0 = array }) number)
        ≡ Some variable.new }
    ensures none { result ≡ 203
        → element_variable (contents_in bytes.now).elements (record { 0 = array }) number
        ≡ None }
    ensures refused { result ≢ 0 → (result ≡ 203) ⊎ (result ≡ 260) }
    ensures accepted { result ≢ 260 → AreOf image.now bytes.now }
    ensures other { result ≡ 260 → ¬ AreOf image.now bytes.now }
    ensures kept { result ≢ 0 → variable.new ≡ variable.old }
{
    let Some(image) = image.image(bytes) else {
        return OTHER_IMAGE;
    };
    match element_of(&image, array, number) {
        Some(found) => {
            *variable = found;
            DONE
        }
        None => NO_ITEM,
    }
}
