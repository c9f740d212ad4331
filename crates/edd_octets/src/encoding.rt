//! The octets of a message.

ghost use Rattle.std.specs.Prelude.{◌≡◌, ◌≤◌, ◌++◌, IfErr, IfOk, OnOk, map};
ghost use Rattle.std.specs.Int.{bytes_high_first};
ghost use Rattle.edd_syntax.specs.DeviceValues.{AreDeviceValues, value_at};
ghost use Rattle.edd_machine.specs.Types.{types_in};
ghost use Rattle.edd_octets.specs.Encoding.{bits_at, encoded, gathered, number_in};
ghost use Rattle.edd_octets.specs.Fields.{width_of};
ghost use Rattle.edd_octets.specs.Messages.{IsEncoded, IsNotRead, field_of};

use crate::fault::OctetsFault;
use crate::fields::{Field, Part, width_of};
use crate::masks::{bits_of, kind_at, placed};
use crate::messages::{Message, message_fields};
use edd_loader::Image;
use edd_machine::Values;
use edd_syntax::numbers::VarNo;
use std::alloc::{AllocError, Global};

/// The value of a variable, 0 where there is none.
pub fn value_at(values: &[i64], variable: VarNo) -> i64
    ensures { result ≡ value_at values.now variable }
{
    values.get(usize::from(variable.0)).copied().unwrap_or(0)
}

// The bits of a variable.
fn bits_at(image: &Image<'_>, values: &[i64], part: Part) -> u32
    ensures { result ≡ bits_at (types_in image.now) values.now part }
{
    bits_of(
        kind_at(image, part.variable),
        value_at(values, part.variable),
    )
}

// The number of a field with these parts.
#[tactic(auto, using(crate::proofs::PartLaws::or_again))]
fn gathered(image: &Image<'_>, values: &[i64], parts: &[Part]) -> u32
    ensures { result ≡ gathered (types_in image.now) values.now parts.now }
{
    let mut number = 0;
    for part in parts {
        number = number | placed(part.mask, bits_at(image, values, *part));
    }
    number
}

// The number that the octets of a field are.
fn number_in(image: &Image<'_>, values: &[i64], field: &Field) -> u32
    ensures { result ≡ number_in (types_in image.now) values.now (field_of field.now) }
{
    match field {
        Field::Constant(octet) => u32::from(*octet),
        Field::Variables(parts) => gathered(image, values, parts.as_slice()),
    }
}

// Writes the lowest octets of a number, the highest of them first.
fn push_number(octets: &mut Vec<u8>, width: usize, number: u32) -> Result<(), AllocError>
    requires { width ≤ 4 }
    ensures { OnOk result (octets.new.items ≡ octets.old.items ++ bytes_high_first width number) }
{
    let bytes = number.to_be_bytes();
    octets.extend_from_slice(&bytes[4 - width..])?;
    Ok(())
}

// The octets of fields.
fn encode_fields(
    alloc: Global,
    image: &Image<'_>,
    values: &[i64],
    fields: &[Field],
) -> Result<Vec<u8>, AllocError>
    ensures { IfOk result (λ octets. octets.items
        ≡ encoded (types_in image.now) values.now (map field_of fields.now)) }
{
    let mut octets = Vec::new(alloc);
    for field in fields {
        push_number(
            &mut octets,
            width_of(field),
            number_in(image, values, field),
        )?;
    }
    Ok(octets)
}

/// The octets of a message under the values of the device that sends it, in the order of the
/// message. Bits of an octet that no mask has are 0.
///
/// The fault is `Read` where the transaction is not read, and `Memory` where memory is refused.
pub fn encode(
    alloc: Global,
    image: &Image<'_>,
    message: Message,
    values: &Values,
) -> Result<Vec<u8>, OctetsFault>
    ensures sound { IfOk result (λ octets. IsEncoded image.now message values.now.numbers.items
        octets.items) }
    ensures accepted { OnOk result (AreDeviceValues (types_in image.now) values.now.numbers.items) }
    ensures refused { IfErr result (IsNotRead image.now message values.now.numbers.items) }
{
    let fields = message_fields(alloc, image, message, values)?;
    Ok(encode_fields(alloc, image, values.numbers.as_slice(), fields.as_slice())?)
}
