//! The rules on attribute rows. What rows say adds up in 64 bits, since it may be more than a
//! length holds on a machine of 32.

ghost use Rattle.std.specs.Prelude.{◌≡◌, ◌+◌, ◌*◌, ◌≤◌, ◌&&◌, IfSome, length, map};
ghost use Rattle.std.specs.List.{list_all};
ghost use Rattle.std.specs.Option.{is_none};
ghost use Rattle.edd_image.specs.Contents.{rows_from, attribute_fields};
ghost use Rattle.edd_instructions.specs.Validity.{fills, rise, rises, sub_fits, has_attribute, is_attribute_row};
ghost use Rattle.edd_loader.specs.Rows.{rises_next};
ghost use Rattle.edd_loader.specs.Spots.{IsFirstBroken, attribute_rows_follow};

use edd_image::{
    ATTRIBUTE_ROW, Counts, attribute_item, attribute_kind, attribute_length, attribute_number,
    attribute_padding, attribute_start, attribute_sub,
};
use edd_syntax::numbers::{Attr, ItemNo};

/// The number of DEFINITION. Its unit is the body of a method, and each other one's gives an
/// attribute.
pub const DEFINITION: u8 = Attr::Definition as u8;

// Whether the attribute may have this transaction's position, number of slots or 0.
fn sub_fits(attr: Attr, sub: u16) -> bool
    ensures { result ≡ sub_fits attr sub }
{
    if attr.is_of_transaction() {
        return true;
    }
    if attr == Attr::Definition {
        sub <= 64
    } else {
        sub == 0
    }
}

fn has_attribute(counts: Counts, item: ItemNo, attr: Attr, sub: u16) -> bool
    ensures { result ≡ has_attribute counts item attr sub }
{
    counts.has_item(item) && attr.may_belong_to(item.kind()) && sub_fits(attr, sub)
}

// Whether the item exists and may have the attribute, and the zero is 0.
fn is_attribute_row(bytes: &[u8], counts: Counts, row: usize) -> bool
    requires { row + ATTRIBUTE_ROW ≤ length bytes.now }
    ensures { result ≡ is_attribute_row counts (attribute_fields bytes.now row) }
{
    let Some(item) = ItemNo::from_numbers(attribute_kind(bytes, row), attribute_item(bytes, row))
    else {
        return false;
    };
    let Some(attr) = Attr::from_number(attribute_number(bytes, row)) else {
        return false;
    };
    has_attribute(counts, item, attr, attribute_sub(bytes, row))
        && attribute_padding(bytes, row) == 0
}

// Whether a row rises to the next by kind, attribute, item and sub, and is no second body of a
// method.
fn rises(bytes: &[u8], row: usize, next: usize) -> bool
    requires row { row + ATTRIBUTE_ROW ≤ length bytes.now }
    requires next { next + ATTRIBUTE_ROW ≤ length bytes.now }
    ensures { result ≡ rises (attribute_fields bytes.now row) (attribute_fields bytes.now next) }
{
    let kind = attribute_kind(bytes, row);
    let next_kind = attribute_kind(bytes, next);
    if kind != next_kind {
        return kind < next_kind;
    }
    let attribute = attribute_number(bytes, row);
    let next_attribute = attribute_number(bytes, next);
    if attribute != next_attribute {
        return attribute < next_attribute;
    }
    let item = attribute_item(bytes, row);
    let next_item = attribute_item(bytes, next);
    if item != next_item {
        return item < next_item;
    }
    attribute_sub(bytes, row) < attribute_sub(bytes, next) && attribute != DEFINITION
}

// Whether a row rises to the next, where `left` rows come after it.
#[tactic(auto, unfolding(edd_image::specs::Contents::rows_from))]
fn rises_next(bytes: &[u8], row: usize, left: usize) -> bool
    requires { row + ATTRIBUTE_ROW + ATTRIBUTE_ROW * left ≤ length bytes.now }
    ensures { result ≡ rises_next (attribute_fields bytes.now row)
        (rows_from (attribute_fields bytes.now) 16 left (row + 16)) }
{
    left == 0 || rises(bytes, row, row + ATTRIBUTE_ROW)
}

/// The first of `count` attribute rows from `start` on that holds what it may not hold, whose unit
/// doesn't begin where the one before it ends, or to which the row before it doesn't rise. `count`
/// where the units don't fill `end` bytes.
pub fn broken_attribute_row(
    bytes: &[u8],
    counts: Counts,
    start: usize,
    count: usize,
    end: usize,
) -> Option<usize>
    requires { start + ATTRIBUTE_ROW * count ≤ length bytes.now }
    ensures whether { is_none result ≡ (list_all (is_attribute_row counts)
        (rows_from (attribute_fields bytes.now) 16 count start)
        && (rise (rows_from (attribute_fields bytes.now) 16 count start)
        && fills 0 (map (λ r. r.span) (rows_from (attribute_fields bytes.now) 16 count start))
        end)) }
    ensures first { IfSome result (IsFirstBroken (attribute_rows_follow counts)
        (λ n. rows_from (attribute_fields bytes.now) 16 n start) count) }
{
    let mut place: u64 = 0;
    for index in 0..count {
        let row = start + ATTRIBUTE_ROW * index;
        if !is_attribute_row(bytes, counts, row) {
            return Some(index);
        }
        if attribute_start(bytes, row) as u64 != place {
            return Some(index);
        }
        if !rises_next(bytes, row, count - index - 1) {
            return Some(index + 1);
        }
        place += attribute_length(bytes, row) as u64;
    }
    if place != end as u64 {
        return Some(count);
    }
    None
}
