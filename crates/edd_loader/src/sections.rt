//! The rules on rows, names and strings of an image whose sections fill its bytes.

ghost use Rattle.std.specs.Prelude.{◌≡◌, ◌+◌, ◌*◌, ◌≤◌, length, IfSome, IsTrue};
ghost use Rattle.std.specs.List.{list_all};
ghost use Rattle.std.specs.Option.{is_none};
ghost use Rattle.edd_syntax.specs.Names.{is_name};
ghost use Rattle.edd_image.specs.Layout.{item_count};
ghost use Rattle.edd_image.specs.Contents.{part, rows_from, name_fields, string_fields, contents_in};
ghost use Rattle.edd_image.specs.Strings.{is_string};
ghost use Rattle.edd_instructions.specs.Validity.{are_variable_rows, are_name_rows, are_attribute_rows, are_element_rows, are_string_rows, are_rows, are_names, are_strings};
ghost use Rattle.edd_loader.specs.Sections.{AreSectionsOf, lies_within};
ghost use Rattle.edd_loader.specs.Spots.{IsFirstBroken, IsSpotOf};
ghost use Rattle.edd_loader.specs.declared.spot.Spot.TheVariants as spot;

use crate::attributes::broken_attribute_row;
use crate::elements::broken_element_row;
use crate::names::is_name;
use crate::rows::{broken_name_row, broken_string_row, broken_variable_row};
use crate::spans::{part, place_in};
use crate::spot::Spot;
use crate::words::is_string;
use edd_image::{
    Counts, NAME_ROW, STRING_ROW, attribute_count, attribute_rows_start, code_length, counts,
    element_count, element_rows_start, extension_padding, header_padding, name_bytes_start,
    name_length, name_rows_start, name_start, names_length, string_bytes_start, string_count,
    string_length, string_rows_start, string_start, strings_length, variable_count,
    variable_rows_start,
};

/// How many items there are.
pub fn item_count(counts: Counts) -> usize
    ensures { result ≡ item_count counts }
{
    counts.variables as usize
        + counts.commands as usize
        + counts.menus as usize
        + counts.collections as usize
        + counts.methods as usize
        + counts.arrays as usize
}

fn in_variable_rows(bytes: &[u8]) -> Option<usize>
    requires { AreSectionsOf bytes.now }
    ensures whether { is_none result ≡ are_variable_rows (contents_in bytes.now) }
    ensures first { IfSome result (λ n. IsSpotOf bytes.now (spot.VariableRow n)) }
{
    let start = variable_rows_start(bytes);
    broken_variable_row(bytes, start, variable_count(bytes) as usize)
}

fn in_name_rows(bytes: &[u8]) -> Option<usize>
    requires { AreSectionsOf bytes.now }
    ensures whether { is_none result ≡ are_name_rows (contents_in bytes.now) }
    ensures first { IfSome result (λ n. IsSpotOf bytes.now (spot.NameRow n)) }
{
    let start = name_rows_start(bytes);
    let count = item_count(counts(bytes));
    let end = names_length(bytes) as usize;
    broken_name_row(bytes, start, count, end)
}

fn in_attribute_rows(bytes: &[u8]) -> Option<usize>
    requires { AreSectionsOf bytes.now }
    ensures whether { is_none result ≡ are_attribute_rows (contents_in bytes.now) }
    ensures first { IfSome result (λ n. IsSpotOf bytes.now (spot.AttributeRow n)) }
{
    let start = attribute_rows_start(bytes);
    let count = attribute_count(bytes) as usize;
    let end = code_length(bytes) as usize;
    broken_attribute_row(bytes, counts(bytes), start, count, end)
}

fn in_element_rows(bytes: &[u8]) -> Option<usize>
    requires { AreSectionsOf bytes.now }
    ensures whether { is_none result ≡ are_element_rows (contents_in bytes.now) }
    ensures first { IfSome result (λ n. IsSpotOf bytes.now (spot.ElementRow n)) }
{
    let start = place_in(bytes, element_rows_start(bytes));
    let count = element_count(bytes) as usize;
    broken_element_row(bytes, counts(bytes), start, count)
}

fn in_string_rows(bytes: &[u8]) -> Option<usize>
    requires { AreSectionsOf bytes.now }
    ensures whether { is_none result ≡ are_string_rows (contents_in bytes.now) }
    ensures first { IfSome result (λ n. IsSpotOf bytes.now (spot.StringRow n)) }
{
    let start = place_in(bytes, string_rows_start(bytes));
    let count = string_count(bytes) as usize;
    let end = strings_length(bytes) as usize;
    broken_string_row(bytes, start, count, end)
}

/// The first zero that is not zero, or row that holds what it may not hold.
#[tactic(auto, unfolding(edd_image::specs::Contents::contents_in))]
pub fn broken_row(bytes: &[u8]) -> Option<Spot>
    requires { AreSectionsOf bytes.now }
    ensures whether { is_none result ≡ are_rows (contents_in bytes.now) }
    ensures first { IfSome result (IsSpotOf bytes.now) }
{
    if header_padding(bytes) != 0 {
        return Some(Spot::Zero);
    }
    if extension_padding(bytes) != 0 {
        return Some(Spot::SecondZero);
    }
    if let Some(number) = in_variable_rows(bytes) {
        return Some(Spot::VariableRow(number));
    }
    if let Some(number) = in_name_rows(bytes) {
        return Some(Spot::NameRow(number));
    }
    if let Some(number) = in_attribute_rows(bytes) {
        return Some(Spot::AttributeRow(number));
    }
    if let Some(number) = in_element_rows(bytes) {
        return Some(Spot::ElementRow(number));
    }
    if let Some(number) = in_string_rows(bytes) {
        return Some(Spot::StringRow(number));
    }
    None
}

// The first of `count` name rows from `start` on that names no name among these bytes.
fn first_no_name(bytes: &[u8], names: &[u8], start: usize, count: usize) -> Option<usize>
    requires room { start + NAME_ROW * count ≤ length bytes.now }
    requires within { IsTrue (list_all (λ r. lies_within (length names.now) r.span)
        (rows_from (name_fields bytes.now) 8 count start)) }
    ensures whether { is_none result ≡ list_all (λ r. is_name (part r.span names.now))
        (rows_from (name_fields bytes.now) 8 count start) }
    ensures first { IfSome result (IsFirstBroken (list_all (λ r. is_name (part r.span names.now)))
        (λ n. rows_from (name_fields bytes.now) 8 n start) count) }
{
    for index in 0..count {
        let row = start + NAME_ROW * index;
        let place = name_start(bytes, row) as usize;
        let size = name_length(bytes, row) as usize;
        if !is_name(part(names, place, size)) {
            return Some(index);
        }
    }
    None
}

/// The first name that is none.
pub fn broken_name(bytes: &[u8]) -> Option<usize>
    requires sections { AreSectionsOf bytes.now }
    requires rows { IsTrue (are_rows (contents_in bytes.now)) }
    ensures whether { is_none result ≡ are_names (contents_in bytes.now) }
    ensures first { IfSome result (λ n. IsSpotOf bytes.now (spot.Name n)) }
{
    let start = name_rows_start(bytes);
    let count = item_count(counts(bytes));
    let place = place_in(bytes, name_bytes_start(bytes));
    let size = names_length(bytes) as usize;
    first_no_name(bytes, part(bytes, place, size), start, count)
}

// The first of `count` string rows from `start` on that gives no string among these bytes.
fn first_no_string(bytes: &[u8], strings: &[u8], start: usize, count: usize) -> Option<usize>
    requires room { start + STRING_ROW * count ≤ length bytes.now }
    requires within { IsTrue
        (list_all (lies_within (length strings.now))
        (rows_from (string_fields bytes.now) 8 count start)) }
    ensures whether { is_none result ≡ list_all (λ span. is_string (part span strings.now))
        (rows_from (string_fields bytes.now) 8 count start) }
    ensures first { IfSome result
        (IsFirstBroken (list_all (λ span. is_string (part span strings.now)))
        (λ n. rows_from (string_fields bytes.now) 8 n start) count) }
{
    for index in 0..count {
        let row = start + STRING_ROW * index;
        let place = string_start(bytes, row) as usize;
        let size = string_length(bytes, row) as usize;
        if !is_string(part(strings, place, size)) {
            return Some(index);
        }
    }
    None
}

/// The first string that is none.
pub fn broken_string(bytes: &[u8]) -> Option<usize>
    requires sections { AreSectionsOf bytes.now }
    requires rows { IsTrue (are_rows (contents_in bytes.now)) }
    ensures whether { is_none result ≡ are_strings (contents_in bytes.now) }
    ensures first { IfSome result (λ n. IsSpotOf bytes.now (spot.String n)) }
{
    let start = place_in(bytes, string_rows_start(bytes));
    let count = string_count(bytes) as usize;
    let place = place_in(bytes, string_bytes_start(bytes));
    let size = strings_length(bytes) as usize;
    first_no_string(bytes, part(bytes, place, size), start, count)
}
