//! Which attributes of the items of a kind have a row. One walk over all rows finds them, where each
//! attribute would need a search of its own.

ghost use Rattle.std.specs.Prelude.{◌≡◌, ℕ, ◌+◌, ◌*◌, ◌<◌, ◌≤◌, IfOk, length, true, vec_len};
ghost use Rattle.edd_syntax.specs.Numbers.{attr_number};
ghost use Rattle.edd_image.specs.Contents.{attribute_fields, contents_in};
ghost use Rattle.edd_display.specs.Written.{AreAllWritten, IsNoted, bits_of, has_bit};

use edd_image::{ATTRIBUTE_ROW, attribute_count, attribute_item, attribute_kind, attribute_number};
use edd_loader::Image;
use edd_syntax::numbers::{Attr, Kind};
use std::alloc::{AllocError, Global};

// The bits with that of an attribute.
fn with_bit(bits: u32, number: u8) -> u32
    ensures set { has_bit result number ≡ true }
    ensures kept { (other : ℕ) → has_bit bits other ≡ true → has_bit result other ≡ true }
{
    bits | 1 << (number % 32)
}

/// Whether an attribute has its bit.
pub fn is_written(bits: u32, attr: Attr) -> bool
    ensures { result ≡ has_bit bits (attr_number attr) }
{
    (bits >> (attr.number() % 32)) % 2 == 1
}

// Sets the bit of a row, if it is of an item of this kind.
fn note_row(all: &mut Vec<u32>, bytes: &[u8], row: usize, kind: u8)
    requires { row + ATTRIBUTE_ROW ≤ length bytes.now }
    ensures len { vec_len all.new ≡ vec_len all.old }
    ensures noted { IsNoted kind all.new.items (attribute_fields bytes.now row) }
    ensures kept { (item number : ℕ) → has_bit (bits_of all.old.items item) number ≡ true
        → has_bit (bits_of all.new.items item) number ≡ true }
{
    if attribute_kind(bytes, row) != kind {
        return;
    }
    let item = attribute_item(bytes, row) as usize;
    if item < all.len() {
        all[item] = with_bit(all[item], attribute_number(bytes, row));
    }
}

// Sets the bits of `count` rows, the first of which is at `start`.
fn note_rows(all: &mut Vec<u32>, bytes: &[u8], start: usize, count: usize, kind: u8)
    requires { start + ATTRIBUTE_ROW * count ≤ length bytes.now }
    ensures len { vec_len all.new ≡ vec_len all.old }
    ensures noted { (i : ℕ) → i < count
        → IsNoted kind all.new.items (attribute_fields bytes.now (start + 16 * i)) }
{
    for index in 0..count {
        note_row(all, bytes, start + ATTRIBUTE_ROW * index, kind);
    }
}

/// The bits of each of the `count` items of a kind.
pub fn written_of(
    alloc: Global,
    image: &Image<'_>,
    kind: Kind,
    count: u16,
) -> Result<Vec<u32>, AllocError>
    ensures len { IfOk result (λ all. vec_len all ≡ count) }
    ensures sound { IfOk result (λ all. AreAllWritten (contents_in image.now) kind all.items) }
{
    let bytes = image.bytes();
    let rows = attribute_count(bytes) as usize;
    let mut all = vec![in alloc; 0; count as usize]?;
    note_rows(
        &mut all,
        bytes,
        image.starts().attribute_rows,
        rows,
        kind.number(),
    );
    Ok(all)
}
