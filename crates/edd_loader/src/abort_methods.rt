//! The rule that each abort method that is added has a body.

ghost use Rattle.std.specs.Prelude.{◌≡◌, ◌+◌, ◌*◌, ◌≤◌, IsTrue, false, length};
ghost use Rattle.std.specs.List.{list_all};
ghost use Rattle.std.specs.Option.{is_none};
ghost use Rattle.edd_image.specs.Contents.{attribute_fields, contents_in, rows_from};
ghost use Rattle.edd_image.specs.Fields.{attribute_rows_start, header_length};
ghost use Rattle.edd_instructions.specs.Validity.{EachUnitKeeps, adds_with_body, all_add_with_body, are_rows};
ghost use Rattle.edd_instructions.specs.declared.rules.UnitRule.TheVariants.{Chain};
ghost use Rattle.edd_image.specs.declared.versions.Version.TheVariants.{One};
ghost use Rattle.edd_loader.specs.AbortMethods.{is_body_or_adds, row_adds_with_body, unit_adds_with_body};
ghost use Rattle.edd_loader.specs.Sections.{AreSectionsOf, lies_within};

use crate::attributes::DEFINITION;
use crate::ranks::body_row;
use crate::spans::{part, place_in};
use crate::spot::Site;
use edd_image::{
    ATTRIBUTE_ROW, Version, attribute_count, attribute_length, attribute_number,
    attribute_rows_start, attribute_start, code_length, code_start, version,
};
use edd_instructions::{Instruction, decode};

// Whether the method that an instruction adds, if it adds one, has a body. The rows of attributes
// begin at `start`.
fn adds_with_body(bytes: &[u8], start: usize, instruction: Instruction) -> bool
    requires sections { AreSectionsOf bytes.now }
    requires rows { IsTrue (are_rows (contents_in bytes.now)) }
    requires start { start ≡ attribute_rows_start bytes.now }
    ensures { result ≡ adds_with_body (contents_in bytes.now) instruction }
{
    match instruction {
        Instruction::AddAbortMethod(method) => body_row(bytes, start, method).is_some(),
        _ => true,
    }
}

// The first place of a unit that adds a method without a body.
fn bodiless_in_unit(bytes: &[u8], start: usize, unit: &[u8]) -> Option<usize>
    requires sections { AreSectionsOf bytes.now }
    requires rows { IsTrue (are_rows (contents_in bytes.now)) }
    requires start { start ≡ attribute_rows_start bytes.now }
    ensures { is_none result ≡ unit_adds_with_body (contents_in bytes.now) unit.now }
{
    let mut place = 0;
    while let Some((instruction, next)) = decode(unit, place) {
        if !adds_with_body(bytes, start, instruction) {
            return Some(place);
        }
        place = next;
    }
    None
}

// The same of the unit of a row, which adds none if it is no method's body.
fn bodiless_in_row(bytes: &[u8], start: usize, code: &[u8], row: usize) -> Option<usize>
    requires sections { AreSectionsOf bytes.now }
    requires rows { IsTrue (are_rows (contents_in bytes.now)) }
    requires start { start ≡ attribute_rows_start bytes.now }
    requires room { row + ATTRIBUTE_ROW ≤ length bytes.now }
    requires within { IsTrue (lies_within (length code.now)
        (attribute_fields bytes.now row).span) }
    requires others { IsTrue (is_body_or_adds (contents_in bytes.now) code.now
        (attribute_fields bytes.now row)) }
    ensures { is_none result ≡ row_adds_with_body (contents_in bytes.now) code.now
        (attribute_fields bytes.now row) }
{
    if attribute_number(bytes, row) != DEFINITION {
        return None;
    }
    let place = attribute_start(bytes, row) as usize;
    let size = attribute_length(bytes, row) as usize;
    bodiless_in_unit(bytes, start, part(code, place, size))
}

// The same of `count` rows, which are all that there are.
fn bodiless_in_rows(bytes: &[u8], start: usize, code: &[u8], count: usize) -> Option<Site>
    requires sections { AreSectionsOf bytes.now }
    requires rows { IsTrue (are_rows (contents_in bytes.now)) }
    requires start { start ≡ attribute_rows_start bytes.now }
    requires room { start + ATTRIBUTE_ROW * count ≤ length bytes.now }
    requires within { IsTrue (list_all (λ r. lies_within (length code.now) r.span)
        (rows_from (attribute_fields bytes.now) 16 count start)) }
    requires others { IsTrue (list_all (is_body_or_adds (contents_in bytes.now) code.now)
        (rows_from (attribute_fields bytes.now) 16 count start)) }
    ensures { is_none result ≡ list_all (row_adds_with_body (contents_in bytes.now) code.now)
        (rows_from (attribute_fields bytes.now) 16 count start) }
{
    for row in 0..count {
        if let Some(place) = bodiless_in_row(bytes, start, code, start + ATTRIBUTE_ROW * row) {
            return Some(Site { row, place });
        }
    }
    None
}

// Whether the version is the second one, if it is known. The first has no abort methods.
#[tactic(auto, unfolding(edd_image::specs::Contents::contents_in))]
fn is_of_version_two(bytes: &[u8]) -> bool
    requires { header_length ≤ length bytes.now }
    ensures { result ≡ false → (contents_in bytes.now).version ≡ One }
{
    match version(bytes) {
        Some(Version::Two) => true,
        Some(Version::One) | None => false,
    }
}

/// The first instruction that adds an abort method without a body. It takes no memory: for each the
/// rows are searched by halving.
pub fn first_bodiless(bytes: &[u8]) -> Option<Site>
    requires sections { AreSectionsOf bytes.now }
    requires rows { IsTrue (are_rows (contents_in bytes.now)) }
    requires chains { EachUnitKeeps (contents_in bytes.now) Chain }
    ensures { is_none result ≡ all_add_with_body (contents_in bytes.now) }
{
    if !is_of_version_two(bytes) {
        return None;
    }
    let start = attribute_rows_start(bytes);
    let count = attribute_count(bytes) as usize;
    let place = place_in(bytes, code_start(bytes));
    let size = code_length(bytes) as usize;
    bodiless_in_rows(bytes, start, part(bytes, place, size), count)
}
