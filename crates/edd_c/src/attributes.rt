//! What an attribute is under the values of a device.

ghost use Rattle.std.specs.Prelude.{◌≡◌, ◌≢◌, ◌⊎◌, List, None, Some, length, map};
ghost use Rattle.edd_syntax.specs.declared.numbers.AttrRef.{AttrRef};
ghost use Rattle.edd_instructions.specs.declared.records.Record.{Record};
ghost use Rattle.edd_instructions.specs.Validity.{IsValid};
ghost use Rattle.edd_embed.specs.declared.reading.AttributeFault.{AttributeFault};
ghost use Rattle.edd_embed.specs.Images.{AreOf};
ghost use Rattle.edd_embed.specs.Reading.{Gives, IsAttributeFault, ref_of};
ghost use Rattle.edd_embed.specs.Records.{plain_of, written_over};
ghost use Rattle.edd_embed.specs.Statuses.{attribute_status};

use edd_embed::statuses::{DONE, NO_ITEM, OTHER_IMAGE, attribute_status};
use edd_embed::{AttributeFault, ImageNumbers, PlainRecord, read_into, ref_of};
use std::alloc::Global;

/// The records of an attribute, and how many they are. That number is written where there is too
/// little room for them as well.
#[unsafe(no_mangle)]
pub extern "C" fn edd_attribute(
    alloc: Global,
    bytes: &[u8],
    image: &ImageNumbers,
    kind: u8,
    number: u16,
    attribute: u8,
    sub: u16,
    values: &[i64],
    records: &mut [PlainRecord],
    given: &mut usize,
) -> u32
    requires { AreOf image.now bytes.now → IsValid bytes.now }
    ensures sound { result ≡ 0 → (ref : AttrRef) × (ref_of kind number attribute sub ≡ Some ref)
        × ((rs : List Record) × Gives bytes.now ref values.now rs × (given.new ≡ length rs)
        × (records.new ≡ written_over (map plain_of rs) records.old)) }
    ensures room { result ≡ 261 → (ref : AttrRef)
        × (ref_of kind number attribute sub ≡ Some ref)
        × IsAttributeFault bytes.now ref values.now (length records.old)
        (AttributeFault.Room given.new) }
    ensures refused { result ≢ 0 → result ≢ 260 → ((result ≡ 203) × (ref_of kind number attribute sub
        ≡ None)) ⊎ ((ref : AttrRef) × (fault : AttributeFault)
        × (ref_of kind number attribute sub ≡ Some ref) × (result ≡ attribute_status fault)
        × IsAttributeFault bytes.now ref values.now (length records.old) fault) }
    ensures accepted { result ≢ 260 → AreOf image.now bytes.now }
    ensures other { result ≡ 260 → ¬ AreOf image.now bytes.now }
    ensures kept { result ≢ 0 → records.new ≡ records.old }
    ensures given_kept { result ≢ 0 → result ≢ 261 → given.new ≡ given.old }
{
    let Some(image) = image.image(bytes) else {
        return OTHER_IMAGE;
    };
    let Some(attr) = ref_of(kind, number, attribute, sub) else {
        return NO_ITEM;
    };
    match read_into(alloc, &image, attr, values, records) {
        Ok(count) => {
            *given = count;
            DONE
        }
        Err(fault) => {
            if let AttributeFault::Room(count) = fault {
                *given = count;
            }
            attribute_status(fault)
        }
    }
}
