//! Records as a program in C has them.

ghost use Rattle.std.specs.Prelude.{◌≡◌, ◌<◌, ◌≤◌, IsTrue, length, map};
ghost use Rattle.edd_embed.specs.Records.{bare, naming, plain_of, string_or_none, written_over};

use edd_instructions::Record;
use edd_syntax::numbers::{ItemNo, StrNo};

// What stands where a record has no string.
const NO_STRING: u16 = 65_535;

/// One record of an attribute. The tag says which it is, from 1 on: words, number, entry of a menu,
/// constant and variable of a transaction, enumerator, response code, member, element. A field
/// that the record doesn't have is 0, and 65,535 where it is the number of a string.
#[repr(C)]
#[derive(Clone, Copy, PartialEq, Eq, Debug)]
pub struct PlainRecord {
    /// A number, a constant or the value of an enumerator.
    pub value: i64,
    /// The mask of a variable, the number of a response code or of an element.
    pub number: u32,
    /// The number of an item among those of its kind.
    pub item: u16,
    /// Of an entry 1 DISPLAY_VALUE, 2 READ_ONLY, 4 HIDDEN, 8 REVIEW; of a variable 1 INFO, 2 INDEX.
    pub qualifiers: u16,
    /// The string of the words, of an enumerator, of a response code, or the name of a member.
    pub text: u16,
    pub label: u16,
    pub help: u16,
    pub tag: u8,
    /// The kind of an item, from 1 to 6.
    pub kind: u8,
    /// The class of a response code, from 0 to 6.
    pub class: u8,
}

fn string_or_none(string: Option<StrNo>) -> u16
    ensures { result ≡ string_or_none string }
{
    match string {
        Some(string) => string.0,
        None => NO_STRING,
    }
}

fn bare(tag: u8) -> PlainRecord
    ensures { result ≡ bare tag }
{
    PlainRecord {
        value: 0,
        number: 0,
        item: 0,
        qualifiers: 0,
        text: NO_STRING,
        label: NO_STRING,
        help: NO_STRING,
        tag,
        kind: 0,
        class: 0,
    }
}

fn naming(item: ItemNo, plain: PlainRecord) -> PlainRecord
    ensures { result ≡ naming item plain }
{
    PlainRecord {
        kind: item.kind().number(),
        item: item.index(),
        ..plain
    }
}

/// What a record is in C.
pub fn plain_of(given: Record) -> PlainRecord
    ensures { result ≡ plain_of given }
{
    match given {
        Record::Words(text) => PlainRecord {
            text: text.0,
            ..bare(1)
        },
        Record::Number(value) => PlainRecord { value, ..bare(2) },
        Record::Entry { item, quals } => naming(
            item,
            PlainRecord {
                qualifiers: quals,
                ..bare(3)
            },
        ),
        Record::DataConst(number) => PlainRecord {
            value: i64::from(number),
            ..bare(4)
        },
        Record::DataVar { var, mask, quals } => naming(
            ItemNo::Variable(var),
            PlainRecord {
                number: mask,
                qualifiers: u16::from(quals),
                ..bare(5)
            },
        ),
        Record::Enumerator { value, text, help } => PlainRecord {
            value,
            text: text.0,
            help: string_or_none(help),
            ..bare(6)
        },
        Record::Response {
            number,
            class,
            text,
        } => PlainRecord {
            number,
            class,
            text: text.0,
            ..bare(7)
        },
        Record::Member {
            name,
            item,
            label,
            help,
        } => naming(
            item,
            PlainRecord {
                text: name.0,
                label: string_or_none(label),
                help: string_or_none(help),
                ..bare(8)
            },
        ),
        Record::Element {
            number,
            var,
            label,
            help,
        } => naming(
            ItemNo::Variable(var),
            PlainRecord {
                number,
                label: string_or_none(label),
                help: string_or_none(help),
                ..bare(9)
            },
        ),
    }
}

/// Writes the records into the caller's room, and says whether there is enough of it; where there
/// isn't, nothing is written.
pub fn write_records(records: &[Record], room: &mut [PlainRecord]) -> bool
    ensures fits { IsTrue result → length records.now ≤ length room.old }
    ensures sound { IsTrue result → room.new ≡ written_over (map plain_of records.now) room.old }
    ensures refused { ¬ IsTrue result → length room.old < length records.now }
    ensures kept { ¬ IsTrue result → room.new ≡ room.old }
{
    if records.len() > room.len() {
        return false;
    }
    for (index, record) in records.iter().enumerate() {
        room[index] = plain_of(*record);
    }
    true
}
