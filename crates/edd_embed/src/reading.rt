//! An attribute that is read into the room of a program in C.

ghost use Rattle.std.specs.Prelude.{◌≡◌, IfErr, IfOk, List, OnErr, length, map};
ghost use Rattle.edd_instructions.specs.declared.records.Record.{Record};
ghost use Rattle.edd_embed.specs.Reading.{Gives, IsAttributeFault, ref_of};
ghost use Rattle.edd_embed.specs.Records.{plain_of, written_over};

use crate::records::{PlainRecord, write_records};
use edd_loader::Image;
use edd_machine::{ReadFault, Values, attribute};
use edd_syntax::numbers::{Attr, AttrRef, ItemNo};
use std::alloc::Global;

/// Why records are not given.
#[derive(Clone, Copy, Debug, PartialEq, Eq)]
pub enum AttributeFault {
    Read(ReadFault),
    /// There are so many records, and there is room for fewer.
    Room(usize),
}

/// The attribute of these numbers, where there is such a kind of item and such an attribute.
pub fn ref_of(kind: u8, number: u16, attribute: u8, sub: u16) -> Option<AttrRef>
    ensures { result ≡ ref_of kind number attribute sub }
{
    let item = ItemNo::from_numbers(kind, number)?;
    let attr = Attr::from_number(attribute)?;
    Some(AttrRef { item, attr, sub })
}

/// Writes the records of an attribute under these values at the front of the room, and says how
/// many they are. It takes memory for the values and the records, and gives it back.
///
/// The fault is that of `attribute`, or says how many records there are where there is room for
/// fewer; then the room is as it was.
pub fn read_into(
    alloc: Global,
    image: &Image<'_>,
    attr: AttrRef,
    values: &[i64],
    room: &mut [PlainRecord],
) -> Result<usize, AttributeFault>
    ensures sound { IfOk result (λ n. (rs : List Record) × Gives image.now attr values.now rs
        × (n ≡ length rs) × (room.new ≡ written_over (map plain_of rs) room.old)) }
    ensures refused { IfErr result
        (IsAttributeFault image.now attr values.now (length room.old)) }
    ensures kept { OnErr result (room.new ≡ room.old) }
{
    let Ok(numbers) = Vec::from_slice(alloc, values) else {
        return Err(AttributeFault::Read(ReadFault::Memory));
    };
    let values = Values { numbers };
    match attribute(alloc, image, attr, &values) {
        Ok(records) => {
            if write_records(records.as_slice(), room) {
                Ok(records.len())
            } else {
                Err(AttributeFault::Room(records.len()))
            }
        }
        Err(fault) => Err(AttributeFault::Read(fault)),
    }
}
