//! What a valid image has at a number.

ghost use Rattle.std.specs.Prelude.{◌≡◌, ◌≢◌, ◌<◌, IfNone, IfSome, Some, true, is_some, option_map, IsTrue};
ghost use Rattle.std.specs.List.{slice_get};
ghost use Rattle.std.specs.Str.{is_utf8};
ghost use Rattle.edd_image.specs.Contents.{contents_in, fields_of_variable};
ghost use Rattle.edd_image.specs.Fields.{counts_in};
ghost use Rattle.edd_image.specs.Layout.{item_count};
ghost use Rattle.edd_image.specs.Existing.{item_exists, variable_exists};
ghost use Rattle.edd_instructions.specs.Validity.{IsValid};
ghost use Rattle.edd_image.specs.Strings.{is_string};
ghost use Rattle.edd_instructions.specs.Agreement.{name_numbered, place_of_item};
ghost use Rattle.edd_instructions.specs.Reading.{environment_of};
ghost use Rattle.edd_loader.specs.Lookups.{name_in_row, string_in_row, type_of_kind, IsFirstNamed};
ghost use Rattle.edd_loader.specs.Starts.{starts_in};

use crate::sections::item_count;
use crate::spans::part;
use crate::starts::Starts;
use edd_image::{
    Counts, NAME_ROW, STRING_ROW, VARIABLE_ROW, VarKind, counts, name_length, name_start,
    string_length, string_start, type_of, variable_count, variable_rows_start, variable_size,
    variable_type,
};
use edd_syntax::numbers::{ArrNo, CmdNo, CollNo, ItemNo, MenuNo, MethNo, VarNo};

/// How many names there are before that of an item.
pub fn place_of_item(counts: Counts, item: ItemNo) -> usize
    ensures { result ≡ place_of_item counts item }
{
    let commands = counts.variables as usize;
    let menus = commands + counts.commands as usize;
    let collections = menus + counts.menus as usize;
    let methods = collections + counts.collections as usize;
    let arrays = methods + counts.methods as usize;
    match item {
        ItemNo::Variable(number) => number.0 as usize,
        ItemNo::Command(number) => commands + number.0 as usize,
        ItemNo::Menu(number) => menus + number.0 as usize,
        ItemNo::Collection(number) => collections + number.0 as usize,
        ItemNo::Method(number) => methods + number.0 as usize,
        ItemNo::Array(number) => arrays + number.0 as usize,
    }
}

/// The item whose name is at a place.
pub fn item_at(counts: Counts, place: usize) -> ItemNo
    requires { place < item_count counts }
    ensures exists { item_exists counts result ≡ true }
    ensures place { place_of_item counts result ≡ place }
{
    let commands = counts.variables as usize;
    let menus = commands + counts.commands as usize;
    let collections = menus + counts.menus as usize;
    let methods = collections + counts.collections as usize;
    let arrays = methods + counts.methods as usize;
    if place < commands {
        ItemNo::Variable(VarNo(place as u16))
    } else if place < menus {
        ItemNo::Command(CmdNo((place - commands) as u16))
    } else if place < collections {
        ItemNo::Menu(MenuNo((place - menus) as u16))
    } else if place < methods {
        ItemNo::Collection(CollNo((place - collections) as u16))
    } else if place < arrays {
        ItemNo::Method(MethNo((place - methods) as u16))
    } else {
        ItemNo::Array(ArrNo((place - arrays) as u16))
    }
}

/// The name at a place.
pub fn name_at(bytes: &[u8], starts: Starts, place: usize) -> &[u8]
    requires valid { IsValid bytes.now }
    requires starts { starts ≡ starts_in bytes.now }
    requires place { place < item_count (counts_in bytes.now) }
    ensures sound { name_in_row (contents_in bytes.now) place ≡ Some result.now }
    ensures utf8 { IsTrue (is_utf8 result.now) }
{
    let row = starts.name_rows + NAME_ROW * place;
    let from = starts.names + name_start(bytes, row) as usize;
    part(bytes, from, name_length(bytes, row) as usize)
}

/// Text from bytes that are UTF-8.
pub fn as_text(bytes: &[u8]) -> &str
    requires { IsTrue (is_utf8 bytes.now) }
    ensures { result.now ≡ bytes.now }
{
    match str::from_utf8(bytes) {
        Ok(text) => text,
        Err(_) => "",
    }
}

/// The first item with this name, if there is one.
pub fn find(bytes: &[u8], starts: Starts, name: &[u8]) -> Option<ItemNo>
    requires valid { IsValid bytes.now }
    requires starts { starts ≡ starts_in bytes.now }
    ensures exists { IfSome result (λ item. IsTrue (item_exists (counts_in bytes.now) item)) }
    ensures sound { IfSome result (λ item. name_numbered (contents_in bytes.now) item
        ≡ Some name.now) }
    ensures first { IfSome result (IsFirstNamed (contents_in bytes.now) name.now) }
    ensures complete { IfNone result ((item : ItemNo) → name_numbered (contents_in bytes.now) item
        ≢ Some name.now) }
{
    let counts = counts(bytes);
    let count = item_count(counts);
    for place in 0..count {
        if name_at(bytes, starts, place) == name {
            return Some(item_at(counts, place));
        }
    }
    None
}

/// The type and the size of a variable, if there is such a variable.
pub fn variable_at(bytes: &[u8], number: VarNo) -> Option<VarKind>
    requires { IsValid bytes.now }
    ensures exists { is_some result ≡ variable_exists (counts_in bytes.now) number }
    ensures row { IfSome result (λ kind. slice_get (contents_in bytes.now).variables number.0
        ≡ Some (fields_of_variable kind)) }
    ensures sound { option_map type_of_kind result
        ≡ slice_get (environment_of (contents_in bytes.now)).types number.0 }
{
    if number.0 >= variable_count(bytes) {
        return None;
    }
    let row = variable_rows_start(bytes) + VARIABLE_ROW * number.0 as usize;
    let var_type = type_of(variable_type(bytes, row))?;
    let size = variable_size(bytes, row);
    Some(VarKind { var_type, size })
}

/// The bytes of the string of a number.
pub fn string_at(bytes: &[u8], starts: Starts, number: usize) -> &[u8]
    requires valid { IsValid bytes.now }
    requires starts { starts ≡ starts_in bytes.now }
    requires number { number < (counts_in bytes.now).strings }
    ensures sound { string_in_row (contents_in bytes.now) number ≡ Some result.now }
    ensures string { IsTrue (is_string result.now) }
{
    let row = starts.string_rows + STRING_ROW * number;
    let from = starts.strings + string_start(bytes, row) as usize;
    part(bytes, from, string_length(bytes, row) as usize)
}
