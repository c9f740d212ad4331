//! What is taken from the octets of a message.

ghost use Rattle.std.specs.Prelude.{◌≡◌, ◌≢◌, ◌≤◌, ◌<◌, ◌+◌, ◌++◌, Err, IfErr, IfOk, IfSome, List, ◌∷◌, None, Ok, OnOk, [], length, map, slice_set};
ghost use Rattle.edd_octets.specs.declared.fault.OctetsFault;
ghost use Rattle.edd_syntax.specs.DeviceValues.{AreDeviceValues};
ghost use Rattle.edd_machine.specs.Types.{types_in};
ghost use Rattle.edd_octets.specs.Decoding.{decoded, fits, misfit, number_of, received, received_in, received_part, sets_of, value_with, wrong_constant};
ghost use Rattle.edd_octets.specs.Fields.{length_of, width_of};
ghost use Rattle.edd_octets.specs.Coming.{coming};
ghost use Rattle.edd_octets.specs.Decoding as decoding;
ghost use Rattle.edd_octets.specs.Messages.{IsDecoded, IsRefusal, change_of, field_of};

use crate::encoding::value_at;
use crate::fault::OctetsFault;
use crate::fields::{Field, Part, width_of};
use crate::masks::{all_bits, bits_of, kind_at, named_by, picked, renewed, value_of};
use crate::messages::{Message, message_fields};
use edd_loader::Image;
use edd_machine::Values;
use edd_syntax::numbers::VarNo;
use std::alloc::{AllocError, Global};

// Bits of a variable that came.
#[derive(Clone, Copy)]
struct Received {
    variable: VarNo,
    named: u32,
    bits: u32,
}

/// The number that the octets of a field are, the highest one first.
pub fn number_of(octets: &[u8]) -> u32
    requires { length octets.now ≤ 4 }
    ensures { result ≡ number_of octets.now }
{
    match octets {
        [a] => u32::from(*a),
        [a, b] => u32::from(*a) * 256 + u32::from(*b),
        [a, b, c] => (u32::from(*a) * 256 + u32::from(*b)) * 256 + u32::from(*c),
        [a, b, c, d] => {
            ((u32::from(*a) * 256 + u32::from(*b)) * 256 + u32::from(*c)) * 256 + u32::from(*d)
        }
        _ => 0,
    }
}

// How many of so many octets are left behind the fields, if they are enough.
fn left_behind(fields: &[Field], count: usize) -> Option<usize>
    ensures short { result ≡ None → count < length_of (map field_of fields.now) }
    ensures sound { IfSome result (λ left. length_of (map field_of fields.now) + left ≡ count) }
{
    let mut left = count;
    for field in fields {
        left = left.checked_sub(width_of(field))?;
    }
    Some(left)
}

// What comes with the number of a field with this part, if it is kept.
fn receive_part(number: u32, part: Part, all: &mut Vec<Received>) -> Result<(), AllocError>
    ensures { OnOk result (map coming all.new.items
        ≡ map coming all.old.items ++ received_part number part []) }
{
    if part.is_kept {
        all.push(Received {
            variable: part.variable,
            named: named_by(part.mask),
            bits: picked(part.mask, number),
        })?;
    }
    Ok(())
}

// What comes with the number of a field with these parts.
fn receive_in(number: u32, parts: &[Part], all: &mut Vec<Received>) -> Result<(), AllocError>
    ensures { OnOk result (map coming all.new.items
        ≡ map coming all.old.items ++ received_in number parts.now) }
{
    for part in parts {
        receive_part(number, *part, all)?;
    }
    Ok(())
}

// What comes with the octets of fields.
fn receive(alloc: Global, fields: &[Field], octets: &[u8]) -> Result<Vec<Received>, AllocError>
    requires { length octets.now ≡ length_of (map field_of fields.now) }
    ensures { IfOk result (λ all. map coming all.items
        ≡ received (map field_of fields.now) octets.now) }
{
    let mut all = Vec::new(alloc);
    let mut left = octets;
    for field in fields {
        let (front, rest) = left.split_at(width_of(field));
        if let Field::Variables(parts) = field {
            receive_in(number_of(front), parts.as_slice(), &mut all)?;
        }
        left = rest;
    }
    Ok(all)
}

// The place of the first octet that differs from its constant.
fn wrong_constant(fields: &[Field], octets: &[u8]) -> Option<usize>
    requires { length octets.now ≡ length_of (map field_of fields.now) }
    ensures { result ≡ wrong_constant 0 (map field_of fields.now) octets.now }
{
    let mut place = 0;
    let mut left = octets;
    for field in fields {
        let (front, rest) = left.split_at(width_of(field));
        if let Field::Constant(octet) = field {
            if number_of(front) != u32::from(*octet) {
                return Some(place);
            }
        }
        place = place + front.len();
        left = rest;
    }
    None
}

// Whether the bits that came are bits of their variable.
fn fits(image: &Image<'_>, one: Received) -> bool
    ensures { result ≡ fits (types_in image.now) (coming one) }
{
    one.bits <= all_bits(kind_at(image, one.variable))
}

// The first variable with bits that its type does not have.
fn misfit(image: &Image<'_>, all: &[Received]) -> Option<VarNo>
    ensures { result ≡ misfit (types_in image.now) (map coming all.now) }
{
    for one in all {
        if !fits(image, *one) {
            return Some(one.variable);
        }
    }
    None
}

// The value of a variable with the bits that came.
fn value_with(image: &Image<'_>, values: &[i64], one: Received) -> i64
    ensures { result ≡ value_with (types_in image.now) values.now (coming one) }
{
    let kind = kind_at(image, one.variable);
    let old = bits_of(kind, value_at(values, one.variable));
    value_of(kind, renewed(one.named, old, one.bits))
}

// The values after one set.
fn set_value(values: &mut [i64], variable: VarNo, value: i64)
    ensures { values.new ≡ slice_set values.old variable.0 value }
{
    let place = usize::from(variable.0);
    if place < values.len() {
        values[place] = value;
    }
}

// One set more, and the values after it.
fn add_set(
    image: &Image<'_>,
    now: &mut Vec<i64>,
    sets: &mut Vec<(VarNo, i64)>,
    one: Received,
) -> Result<(), AllocError>
    ensures { OnOk result ((rest : List decoding.Received)
        → map change_of sets.new.items ++ sets_of (types_in image.now) now.new.items rest
        ≡ map change_of sets.old.items ++ sets_of (types_in image.now) now.old.items
        (coming one ∷ rest)) }
{
    let value = value_with(image, now.as_slice(), one);
    sets.push((one.variable, value))?;
    set_value(now.as_mut_slice(), one.variable, value);
    Ok(())
}

// The sets of what came, one after the other.
fn sets_of(
    alloc: Global,
    image: &Image<'_>,
    values: &[i64],
    all: &[Received],
) -> Result<Vec<(VarNo, i64)>, AllocError>
    ensures { IfOk result (λ sets. map change_of sets.items
        ≡ sets_of (types_in image.now) values.now (map coming all.now)) }
{
    let mut now = Vec::from_slice(alloc, values)?;
    let mut sets = Vec::new(alloc);
    for one in all {
        add_set(image, &mut now, &mut sets, *one)?;
    }
    Ok(sets)
}

// What is taken from the octets of fields.
fn decode_fields(
    alloc: Global,
    image: &Image<'_>,
    values: &[i64],
    fields: &[Field],
    octets: &[u8],
) -> Result<Vec<(VarNo, i64)>, OctetsFault>
    ensures sound { IfOk result (λ sets. decoded (types_in image.now) values.now
        (map field_of fields.now) octets.now
        ≡ Ok (map change_of sets.items)) }
    ensures refused { IfErr result (λ fault. fault ≢ OctetsFault.Memory
        → decoded (types_in image.now) values.now (map field_of fields.now) octets.now
        ≡ Err fault) }
{
    match left_behind(fields, octets.len()) {
        None => return Err(OctetsFault::TooShort),
        Some(0) => {}
        Some(_) => return Err(OctetsFault::TooLong),
    }
    if let Some(place) = wrong_constant(fields, octets) {
        return Err(OctetsFault::WrongConstant(place));
    }
    let all = receive(alloc, fields, octets)?;
    if let Some(variable) = misfit(image, all.as_slice()) {
        return Err(OctetsFault::OutOfType(variable));
    }
    Ok(sets_of(alloc, image, values, all.as_slice())?)
}

/// What is taken from the octets of a message under the values of who receives it: the sets of its
/// variables, in the order of the message. Of each variable the bits that the message has are set,
/// and all others stay as they are; INFO items set nothing.
///
/// The fault is `Read` where the transaction is not read, then `TooShort` or `TooLong` where there
/// are not as many octets as the message has, `WrongConstant` where one differs from its constant,
/// and `OutOfType` where a mask that is wider than its variable has bits that the variable does not
/// have; and `Memory` where memory is refused.
pub fn decode(
    alloc: Global,
    image: &Image<'_>,
    message: Message,
    values: &Values,
    octets: &[u8],
) -> Result<Vec<(VarNo, i64)>, OctetsFault>
    ensures sound { IfOk result (λ sets. IsDecoded image.now message values.now.numbers.items
        octets.now (map change_of sets.items)) }
    ensures accepted { OnOk result (AreDeviceValues (types_in image.now) values.now.numbers.items) }
    ensures refused { IfErr result (IsRefusal image.now message values.now.numbers.items
        octets.now) }
{
    let fields = message_fields(alloc, image, message, values)?;
    decode_fields(
        alloc,
        image,
        values.numbers.as_slice(),
        fields.as_slice(),
        octets,
    )
}
