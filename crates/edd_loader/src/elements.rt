//! The rule on element rows, and the search for an element among them.

ghost use Rattle.std.specs.Prelude.{◌≡◌, ◌≢◌, ℕ, ◌+◌, ◌*◌, ◌<◌, ◌≤◌, ◌&&◌, IfNone, IfSome, length, pos};
ghost use Rattle.std.specs.List.{list_all};
ghost use Rattle.std.specs.Option.{is_none};
ghost use Rattle.edd_image.specs.Contents.{rows_from, element_fields, contents_in};
ghost use Rattle.edd_syntax.specs.Elements.{element_variable};
ghost use Rattle.edd_instructions.specs.Validity.{IsValid, elements_rise, is_element_before, is_element_row};
ghost use Rattle.edd_loader.specs.Elements.{element_key, key_of};
ghost use Rattle.edd_loader.specs.Rows.{is_before_next};
ghost use Rattle.edd_loader.specs.Spots.{IsFirstBroken, element_rows_follow};
ghost use Rattle.edd_loader.specs.Starts.{starts_in};

use crate::starts::Starts;
use edd_image::{Counts, ELEMENT_ROW, element_array, element_number, element_variable};
use edd_syntax::numbers::{ArrNo, VarNo};

// Whether the array and the variable exist.
fn is_element_row(bytes: &[u8], counts: Counts, row: usize) -> bool
    requires { row + ELEMENT_ROW ≤ length bytes.now }
    ensures { result ≡ is_element_row counts (element_fields bytes.now row) }
{
    counts.has_array(ArrNo(element_array(bytes, row)))
        && counts.has_variable(VarNo(element_variable(bytes, row)))
}

// Whether a row rises to the next by array and number.
fn is_element_before(bytes: &[u8], row: usize, next: usize) -> bool
    requires row { row + ELEMENT_ROW ≤ length bytes.now }
    requires next { next + ELEMENT_ROW ≤ length bytes.now }
    ensures { result ≡ is_element_before (element_fields bytes.now row)
        (element_fields bytes.now next) }
{
    let array = element_array(bytes, row);
    let next_array = element_array(bytes, next);
    if array != next_array {
        return array < next_array;
    }
    element_number(bytes, row) < element_number(bytes, next)
}

// Whether a row rises to the next, where `left` rows come after it.
#[tactic(auto, unfolding(edd_image::specs::Contents::rows_from))]
fn is_before_next(bytes: &[u8], row: usize, left: usize) -> bool
    requires { row + ELEMENT_ROW + ELEMENT_ROW * left ≤ length bytes.now }
    ensures { result ≡ is_before_next (element_fields bytes.now row)
        (rows_from (element_fields bytes.now) 8 left (row + 8)) }
{
    left == 0 || is_element_before(bytes, row, row + ELEMENT_ROW)
}

/// The first of `count` element rows from `start` on whose array or variable doesn't exist, or to
/// which the row before it doesn't rise.
pub fn broken_element_row(bytes: &[u8], counts: Counts, start: usize, count: usize) -> Option<usize>
    requires { start + ELEMENT_ROW * count ≤ length bytes.now }
    ensures whether { is_none result ≡ (list_all (is_element_row counts)
        (rows_from (element_fields bytes.now) 8 count start)
        && elements_rise (rows_from (element_fields bytes.now) 8 count start)) }
    ensures first { IfSome result (IsFirstBroken (element_rows_follow counts)
        (λ n. rows_from (element_fields bytes.now) 8 n start) count) }
{
    for index in 0..count {
        let row = start + ELEMENT_ROW * index;
        if !is_element_row(bytes, counts, row) {
            return Some(index);
        }
        if !is_before_next(bytes, row, count - index - 1) {
            return Some(index + 1);
        }
    }
    None
}

// The two numbers by which rows rise, as one.
#[inline(always)]
fn element_key(array: u16, number: u32) -> u64
    ensures { result ≡ element_key array number }
{
    u64::from(array) * 281_474_976_710_656 + u64::from(number)
}

// The key of a row. All of the row is read as one number, and what lies between the two is left
// out.
#[inline(always)]
#[tactic(auto, unfolding(edd_image::specs::Fields::number_at))]
fn key_at(bytes: &[u8], row: usize) -> u64
    requires { row + ELEMENT_ROW ≤ length bytes.now }
    ensures { result ≡ key_of (element_fields bytes.now row) }
{
    let whole = u64::from_be_bytes([
        bytes[row],
        bytes[row + 1],
        bytes[row + 2],
        bytes[row + 3],
        bytes[row + 4],
        bytes[row + 5],
        bytes[row + 6],
        bytes[row + 7],
    ]);
    whole / 281_474_976_710_656 * 281_474_976_710_656 + whole % 4_294_967_296
}

// The number of the row with this key among `count` rows, the first of which is at `start`. Where
// an array has each number between those of two rows, the rows are as far apart as their numbers:
// so each turn tries the row that is as far from the middle one.
fn row_with(bytes: &[u8], start: usize, count: usize, key: u64) -> Option<usize>
    requires room { start + ELEMENT_ROW * count ≤ length bytes.now }
    requires rising { (i j : ℕ) → i < j → j < count
        → key_of (element_fields bytes.now (start + 8 * i))
        < key_of (element_fields bytes.now (start + 8 * j)) }
    ensures inside { IfSome result (λ i. i < count) }
    ensures sound { IfSome result (λ i. key_of (element_fields bytes.now (start + 8 * i)) ≡ key) }
    ensures complete { IfNone result ((i : ℕ) → i < count
        → key_of (element_fields bytes.now (start + 8 * i)) ≢ key) }
{
    let mut low = 0;
    let mut high = count;
    while low < high {
        let middle = (low + high) / 2;
        let there = key_at(bytes, start + ELEMENT_ROW * middle);
        let guess = middle.wrapping_add(key.wrapping_sub(there) as usize);
        if guess < high && key_at(bytes, start + ELEMENT_ROW * guess) == key {
            return Some(guess);
        }
        if there < key {
            low = middle + 1;
        } else if key < there {
            high = middle;
        } else {
            return Some(middle);
        }
    }
    None
}

// The variable of the element of a number that a row may have.
fn element_numbered(bytes: &[u8], starts: Starts, array: ArrNo, number: u32) -> Option<VarNo>
    requires valid { IsValid bytes.now }
    requires starts { starts ≡ starts_in bytes.now }
    ensures { result ≡ element_variable (contents_in bytes.now).elements array (pos number) }
{
    let count = (starts.code - starts.element_rows) / ELEMENT_ROW;
    let key = element_key(array.0, number);
    let found = row_with(bytes, starts.element_rows, count, key)?;
    let row = starts.element_rows + ELEMENT_ROW * found;
    Some(VarNo(element_variable(bytes, row)))
}

/// The variable of the element of this number, if the array has such an element.
pub fn element_at(bytes: &[u8], starts: Starts, array: ArrNo, number: i64) -> Option<VarNo>
    requires valid { IsValid bytes.now }
    requires starts { starts ≡ starts_in bytes.now }
    ensures { result ≡ element_variable (contents_in bytes.now).elements array number }
{
    if number < 0 {
        return None;
    }
    if number > 4_294_967_295 {
        return None;
    }
    element_numbered(bytes, starts, array, number as u32)
}
