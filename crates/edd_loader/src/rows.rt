//! The rules on the rows of variables, names and strings. What rows say adds up in 64 bits, since
//! it may be more than a length holds on a machine of 32.

ghost use Rattle.std.specs.Prelude.{◌≡◌, ◌+◌, ◌*◌, ◌≤◌, ◌&&◌, ◌==◌, IfSome, length, map};
ghost use Rattle.std.specs.List.{list_all};
ghost use Rattle.std.specs.Option.{is_none};
ghost use Rattle.edd_image.specs.Contents.{rows_from, variable_fields, name_fields, string_fields};
ghost use Rattle.edd_instructions.specs.Validity.{fills, is_variable_row};
ghost use Rattle.edd_loader.specs.Spots.{IsFirstBroken, follow, name_rows_follow};

use edd_image::{
    NAME_ROW, STRING_ROW, VARIABLE_ROW, name_length, name_padding, name_start, string_length,
    string_start, type_of, variable_padding, variable_size, variable_type,
};

fn is_variable_row(bytes: &[u8], row: usize) -> bool
    requires { row + VARIABLE_ROW ≤ length bytes.now }
    ensures { result ≡ is_variable_row (variable_fields bytes.now row) }
{
    let size = variable_size(bytes, row);
    type_of(variable_type(bytes, row)).is_some()
        && 1 <= size
        && size <= 4
        && variable_padding(bytes, row) == 0
}

/// The first of `count` variable rows from `start` on that lacks a type, a size of 1 to 4 octets or
/// a zero.
pub fn broken_variable_row(bytes: &[u8], start: usize, count: usize) -> Option<usize>
    requires { start + VARIABLE_ROW * count ≤ length bytes.now }
    ensures whether { is_none result ≡ list_all is_variable_row
        (rows_from (variable_fields bytes.now) 4 count start) }
    ensures first { IfSome result (IsFirstBroken (list_all is_variable_row)
        (λ n. rows_from (variable_fields bytes.now) 4 n start) count) }
{
    for index in 0..count {
        if !is_variable_row(bytes, start + VARIABLE_ROW * index) {
            return Some(index);
        }
    }
    None
}

/// The first of `count` name rows from `start` on that lacks its zero, or whose name doesn't begin
/// where the one before it ends. `count` where the names don't fill `end` bytes.
pub fn broken_name_row(bytes: &[u8], start: usize, count: usize, end: usize) -> Option<usize>
    requires { start + NAME_ROW * count ≤ length bytes.now }
    ensures whether { is_none result ≡ (list_all (λ r. r.padding == 0)
        (rows_from (name_fields bytes.now) 8 count start)
        && fills 0 (map (λ r. r.span) (rows_from (name_fields bytes.now) 8 count start)) end) }
    ensures first { IfSome result (IsFirstBroken name_rows_follow
        (λ n. rows_from (name_fields bytes.now) 8 n start) count) }
{
    let mut place: u64 = 0;
    for index in 0..count {
        let row = start + NAME_ROW * index;
        if name_padding(bytes, row) != 0 {
            return Some(index);
        }
        if name_start(bytes, row) as u64 != place {
            return Some(index);
        }
        place += name_length(bytes, row) as u64;
    }
    if place != end as u64 {
        return Some(count);
    }
    None
}

/// The first of `count` string rows from `start` on whose string doesn't begin where the one before
/// it ends. `count` where the strings don't fill `end` bytes.
pub fn broken_string_row(bytes: &[u8], start: usize, count: usize, end: usize) -> Option<usize>
    requires { start + STRING_ROW * count ≤ length bytes.now }
    ensures whether { is_none result ≡ fills 0 (rows_from (string_fields bytes.now) 8 count start)
        end }
    ensures first { IfSome result (IsFirstBroken (follow 0)
        (λ n. rows_from (string_fields bytes.now) 8 n start) count) }
{
    let mut place: u64 = 0;
    for index in 0..count {
        let row = start + STRING_ROW * index;
        if string_start(bytes, row) as u64 != place {
            return Some(index);
        }
        place += string_length(bytes, row) as u64;
    }
    if place != end as u64 {
        return Some(count);
    }
    None
}
