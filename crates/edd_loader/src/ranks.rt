//! The row of an attribute or of a method's body, searched among the rising rows.

ghost use Rattle.std.specs.Prelude.{◌≡◌, ℕ, ◌+◌, ◌*◌, ◌<◌, ◌≤◌, IfSome, IsTrue, length, option_map};
ghost use Rattle.edd_image.specs.Contents.{attribute_fields, contents_in};
ghost use Rattle.edd_image.specs.Fields.{attribute_count, attribute_rows_start};
ghost use Rattle.edd_instructions.specs.Reading.{row_of, body_of};
ghost use Rattle.edd_instructions.specs.Validity.{are_rows};
ghost use Rattle.edd_loader.specs.Ranks.{rank, rank_of, row_at, is_row};
ghost use Rattle.edd_loader.specs.Sections.{AreSectionsOf};

use crate::attributes::DEFINITION;
use edd_image::{
    ATTRIBUTE_ROW, attribute_count, attribute_item, attribute_kind, attribute_number, attribute_sub,
};
use edd_syntax::numbers::{AttrRef, Kind, MethNo};

// The number of METHOD.
const METHOD: u8 = Kind::Method as u8;

// The four numbers by which rows rise, as one.
fn rank(kind: u8, attribute: u8, item: u16, sub: u16) -> u64
    ensures { result ≡ rank kind attribute item sub }
{
    ((u64::from(kind) * 256 + u64::from(attribute)) * 65_536 + u64::from(item)) * 65_536
        + u64::from(sub)
}

fn rank_at(bytes: &[u8], row: usize) -> u64
    requires { row + ATTRIBUTE_ROW ≤ length bytes.now }
    ensures { result ≡ rank_of (attribute_fields bytes.now row) }
{
    let kind = attribute_kind(bytes, row);
    let attribute = attribute_number(bytes, row);
    let item = attribute_item(bytes, row);
    rank(kind, attribute, item, attribute_sub(bytes, row))
}

// The number of the first of `count` rows, the first of which is at `start`, that is not below the
// rank `key`.
fn first_from(bytes: &[u8], start: usize, count: usize, key: u64) -> usize
    requires room { start + ATTRIBUTE_ROW * count ≤ length bytes.now }
    requires rising { (i j : ℕ) → i < j → j < count
        → rank_of (attribute_fields bytes.now (start + 16 * i))
        < rank_of (attribute_fields bytes.now (start + 16 * j)) }
    ensures end { result ≤ count }
    ensures below { (i : ℕ) → i < result → rank_of (attribute_fields bytes.now (start + 16 * i))
        < key }
    ensures above { (i : ℕ) → result ≤ i → i < count
        → key ≤ rank_of (attribute_fields bytes.now (start + 16 * i)) }
{
    let mut low = 0;
    let mut high = count;
    while low < high {
        let middle = low + (high - low) / 2;
        if rank_at(bytes, start + ATTRIBUTE_ROW * middle) < key {
            low = middle + 1;
        } else {
            high = middle;
        }
    }
    low
}

// Whether the row is that of an attribute of an item.
fn is_row_of(bytes: &[u8], row: usize, kind: u8, attribute: u8, item: u16) -> bool
    requires { row + ATTRIBUTE_ROW ≤ length bytes.now }
    ensures { result ≡ is_row kind attribute item (attribute_fields bytes.now row) }
{
    attribute_kind(bytes, row) == kind
        && attribute_number(bytes, row) == attribute
        && attribute_item(bytes, row) == item
}

// The number of the first row of an image that is not below the rank.
fn first_row(bytes: &[u8], start: usize, key: u64) -> usize
    requires sections { AreSectionsOf bytes.now }
    requires rows { IsTrue (are_rows (contents_in bytes.now)) }
    requires start { start ≡ attribute_rows_start bytes.now }
    ensures end { result ≤ attribute_count bytes.now }
    ensures below { (i : ℕ) → i < result → rank_of (row_at bytes.now i) < key }
    ensures above { (i : ℕ) → result ≤ i → i < attribute_count bytes.now
        → key ≤ rank_of (row_at bytes.now i) }
{
    let count = attribute_count(bytes) as usize;
    first_from(bytes, start, count, key)
}

/// Where the row of an attribute is, if it has one. The rows begin at `start`.
pub fn attribute_row(bytes: &[u8], start: usize, attr: AttrRef) -> Option<usize>
    requires sections { AreSectionsOf bytes.now }
    requires rows { IsTrue (are_rows (contents_in bytes.now)) }
    requires start { start ≡ attribute_rows_start bytes.now }
    ensures row { option_map (attribute_fields bytes.now) result ≡ row_of (contents_in bytes.now)
        attr }
    ensures inside { IfSome result (λ row. row + ATTRIBUTE_ROW ≤ length bytes.now) }
{
    let kind = attr.item.kind().number();
    let attribute = attr.attr.number();
    let item = attr.item.index();
    let first = first_row(bytes, start, rank(kind, attribute, item, attr.sub));
    if first == attribute_count(bytes) as usize {
        return None;
    }
    let row = start + ATTRIBUTE_ROW * first;
    if !is_row_of(bytes, row, kind, attribute, item) {
        return None;
    }
    if attribute_sub(bytes, row) != attr.sub {
        return None;
    }
    Some(row)
}

/// Where the row of a method's body is, if it has one. The rows begin at `start`.
pub fn body_row(bytes: &[u8], start: usize, method: MethNo) -> Option<usize>
    requires sections { AreSectionsOf bytes.now }
    requires rows { IsTrue (are_rows (contents_in bytes.now)) }
    requires start { start ≡ attribute_rows_start bytes.now }
    ensures row { option_map (attribute_fields bytes.now) result ≡ body_of (contents_in bytes.now)
        method }
    ensures inside { IfSome result (λ row. row + ATTRIBUTE_ROW ≤ length bytes.now) }
{
    let first = first_row(bytes, start, rank(METHOD, DEFINITION, method.0, 0));
    if first == attribute_count(bytes) as usize {
        return None;
    }
    let row = start + ATTRIBUTE_ROW * first;
    if !is_row_of(bytes, row, METHOD, DEFINITION, method.0) {
        return None;
    }
    Some(row)
}
