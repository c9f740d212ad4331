//! What is read of an attribute.

ghost use Rattle.std.specs.Prelude.{◌≡◌, ℤ, List, IfErr, IfOk, OnOk, Ok, is_some};
ghost use Rattle.edd_syntax.specs.DeviceValues.{AreDeviceValues};
ghost use Rattle.edd_instructions.specs.declared.unit.Sort.TheVariants.{Attribute};
ghost use Rattle.edd_image.specs.Contents.{Contents, contents_in};
ghost use Rattle.edd_instructions.specs.Reading.{Records, IsReading, default_records, environment_of, is_no_item, reading_of, row_of};
ghost use Rattle.edd_instructions.specs.Steps.{opening};
ghost use Rattle.edd_instructions.specs.Validity.{IsValid};
ghost use Rattle.edd_machine.specs.Faults.{IsReadFault};
ghost use Rattle.edd_machine.specs.Given.{Gives, GivesFault};
ghost use Rattle.edd_machine.specs.Running.{running_unit, IsUnitOf};
ghost use Rattle.edd_machine.specs.Types.{types_in};

use crate::code_unit::{CodeUnit, code_of};
use crate::fault::{ReadFault, fault_of};
use crate::operands::Operands;
use crate::outcome::{Outcome, perform};
use crate::rows::find_attribute;
use crate::values::Values;
use edd_image::Counts;
use edd_instructions::{Record, decode};
use edd_loader::Image;
use edd_syntax::numbers::{Attr, AttrRef};
use std::alloc::{AllocError, Global};

// Whether there is no such item, or none that has this attribute, by the counts and by whether the
// attribute has a row.
fn is_no_item(counts: Counts, attr: AttrRef, has_row: bool) -> bool
    ensures { (c : Contents) → c.counts ≡ counts → is_some (row_of c attr) ≡ has_row
        → result ≡ is_no_item c attr }
{
    if !counts.has_item(attr.item) || !attr.attr.may_belong_to(attr.item.kind()) {
        return true;
    }
    if matches!(attr.attr, Attr::Definition) {
        return true;
    }
    if attr.attr.is_of_transaction() {
        !has_row
    } else {
        attr.sub != 0
    }
}

// What an attribute is where its unit gives no record.
fn default_records(alloc: Global, attr: Attr) -> Result<Vec<Record>, AllocError>
    ensures { IfOk result (λ records. records.items ≡ default_records attr) }
{
    let mut records = Vec::new(alloc);
    match attr {
        Attr::Handling => records.push(Record::Number(3))?,
        Attr::Validity => records.push(Record::Number(1))?,
        _ => {}
    }
    Ok(records)
}

// The records, or what the attribute is where there is none.
fn or_default(alloc: Global, attr: Attr, records: Vec<Record>) -> Result<Vec<Record>, AllocError>
    ensures { IfOk result (λ read. reading_of attr (Ok records.items) ≡ Records read.items) }
{
    if records.is_empty() {
        default_records(alloc, attr)
    } else {
        Ok(records)
    }
}

// The records that the unit of an attribute gives, from its first byte to its end.
fn run(
    alloc: Global,
    image: &Image<'_>,
    unit: CodeUnit,
    values: &[i64],
) -> Result<Vec<Record>, ReadFault>
    requires unit { IsUnitOf image.now unit }
    requires sort { unit.sort ≡ Attribute }
    requires values { AreDeviceValues (types_in image.now) values.now }
    ensures valid { IsValid image.now }
    ensures sound { IfOk result (λ records. Gives (environment_of (contents_in image.now))
        (opening (running_unit image.now unit) unit.slots values.now) (Ok records.items)) }
    ensures refused { IfErr result (GivesFault (environment_of (contents_in image.now))
        (opening (running_unit image.now unit) unit.slots values.now)) }
{
    let code = code_of(image.bytes(), unit);
    let mut operands = Operands::new();
    let mut records = Vec::new(alloc);
    let mut place = 0;
    while let Some((instruction, next)) = decode(code, place) {
        match perform(&mut operands, image, unit.sort, values, instruction, next) {
            Outcome::GoesOn(to) => place = to,
            Outcome::Gives(to, record) => {
                records.push(record)?;
                place = to;
            }
            Outcome::Ends => return Ok(records),
            Outcome::Traps(why) => return Err(fault_of(why)),
        }
    }
    unreachable!()
}

/// The records of an attribute under values of a device of this description: what its unit gives
/// from its first byte to its end. Where it has no row or gives no record, HANDLING is 3, VALIDITY
/// is 1, and every other attribute has no records.
///
/// The fault is `NoItem` where there is no such item, its kind hasn't the attribute, the attribute
/// is DEFINITION, a transaction has no row, or `sub` is not 0 elsewhere; else the trap of the unit;
/// and `Memory` where memory for the records is refused.
pub fn attribute_of_device(
    alloc: Global,
    image: &Image<'_>,
    attr: AttrRef,
    values: &Values,
) -> Result<Vec<Record>, ReadFault>
    requires { AreDeviceValues (types_in image.now) values.now.numbers.items }
    ensures sound { IfOk result (λ records. IsReading image.now attr values.now.numbers.items
        (Records records.items)) }
    ensures refused { IfErr result (IsReadFault image.now attr values.now.numbers.items) }
{
    let unit = find_attribute(image, attr);
    if is_no_item(image.counts(), attr, unit.is_some()) {
        return Err(ReadFault::NoItem);
    }
    match unit {
        None => Ok(default_records(alloc, attr.attr)?),
        Some(unit) => {
            let records = run(alloc, image, unit, values.numbers.as_slice())?;
            Ok(or_default(alloc, attr.attr, records)?)
        }
    }
}

// What a read results in under values that are not those of a device of this description.
fn fault_of_values(image: &Image<'_>, attr: AttrRef) -> ReadFault
    ensures { (values : List ℤ) → (¬ AreDeviceValues (types_in image.now) values)
        → IsReadFault image.now attr values result }
{
    let unit = find_attribute(image, attr);
    if is_no_item(image.counts(), attr, unit.is_some()) {
        ReadFault::NoItem
    } else {
        ReadFault::WrongValues
    }
}

/// The records of an attribute under these values, as `attribute_of_device` gives them.
///
/// The fault is its fault, but `WrongValues` where there is such an attribute, and the values are
/// not those of a device of this description.
pub fn attribute(
    alloc: Global,
    image: &Image<'_>,
    attr: AttrRef,
    values: &Values,
) -> Result<Vec<Record>, ReadFault>
    ensures sound { IfOk result (λ records. IsReading image.now attr values.now.numbers.items
        (Records records.items)) }
    ensures accepted { OnOk result (AreDeviceValues (types_in image.now) values.now.numbers.items) }
    ensures refused { IfErr result (IsReadFault image.now attr values.now.numbers.items) }
{
    if !values.are_of(image) {
        return Err(fault_of_values(image, attr));
    }
    attribute_of_device(alloc, image, attr, values)
}
