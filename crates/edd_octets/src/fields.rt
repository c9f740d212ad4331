//! How the octets of a message are divided.

ghost use Rattle.std.specs.Prelude.{◌≡◌, ◌≢◌, List, ◌∷◌, [], ◌++◌, IfOk, OnOk, map};
ghost use Rattle.edd_instructions.specs.declared.records.Record.{Record};
ghost use Rattle.edd_syntax.specs.DeviceValues.{VariableType};
ghost use Rattle.edd_machine.specs.Types.{types_in};
ghost use Rattle.edd_octets.specs.Fields.{AreItems, IsItem, closed, ended, fields_after, fields_of, is_kept, length_of, masked, overlaps, sharing, union, whole, width_of};
ghost use Rattle.edd_octets.specs.Messages.{field_of};

use crate::masks::{all_bits, kind_at, octets_for};
use edd_instructions::Record;
use edd_loader::Image;
use edd_syntax::numbers::VarNo;
use std::alloc::{AllocError, Global};
use std::mem;

/// Bits of a variable in the octets of a field.
#[derive(Clone, Copy, Debug, PartialEq, Eq)]
pub struct Part {
    pub variable: VarNo,
    /// Where they are in the number that the octets are.
    pub mask: u32,
    /// Whether who receives them keeps them.
    pub is_kept: bool,
}

/// A field of a message: an octet that is always the same, or octets with bits of variables.
#[derive(Drop)]
pub enum Field {
    Constant(u8),
    Variables(Vec<Part>),
}

/// Whether an item with these qualifiers is kept by who receives it; INFO is the bit 1.
pub fn is_kept(qualifiers: u8) -> bool
    ensures { result ≡ is_kept qualifiers }
{
    qualifiers % 2 == 0
}

// The bits that some part has.
#[tactic(auto, using(crate::proofs::PartLaws::or_again))]
fn union(parts: &[Part]) -> u32
    ensures { result ≡ union parts.now }
{
    let mut taken = 0;
    for part in parts {
        taken = taken | part.mask;
    }
    taken
}

/// How many octets a field has: as many as the highest bit of its parts asks for.
pub fn width_of(field: &Field) -> usize
    ensures { result ≡ width_of (field_of field.now) }
{
    match field {
        Field::Constant(_) => 1,
        Field::Variables(parts) => octets_for(union(parts.as_slice())),
    }
}

// The fields that have ended so far, and the parts of the open one.
#[derive(Drop)]
struct Division {
    fields: Vec<Field>,
    begun: Vec<Part>,
}

// Ends the open field.
fn close(alloc: Global, division: &mut Division) -> Result<(), AllocError>
    ensures fields { OnOk result (map field_of division.new.fields.items
        ≡ map field_of division.old.fields.items ++ closed division.old.begun.items) }
    ensures begun { OnOk result (division.new.begun.items ≡ []) }
{
    if division.begun.is_empty() {
        return Ok(());
    }
    let parts = mem::replace(&mut division.begun, Vec::new(alloc));
    division.fields.push(Field::Variables(parts))?;
    Ok(())
}

// An octet that is always the same.
fn add_constant(alloc: Global, division: &mut Division, octet: u8) -> Result<(), AllocError>
    ensures { OnOk result ((types : List VariableType) (rest : List Record)
        → map field_of division.new.fields.items ++ fields_after types division.new.begun.items rest
        ≡ map field_of division.old.fields.items ++ fields_after types division.old.begun.items
        (Record.DataConst octet ∷ rest)) }
{
    close(alloc, division)?;
    division.fields.push(Field::Constant(octet))?;
    Ok(())
}

// A variable without a mask.
fn add_whole(
    alloc: Global,
    image: &Image<'_>,
    division: &mut Division,
    variable: VarNo,
    qualifiers: u8,
) -> Result<(), AllocError>
    ensures { OnOk result ((rest : List Record)
        → map field_of division.new.fields.items
        ++ fields_after (types_in image.now) division.new.begun.items rest
        ≡ map field_of division.old.fields.items
        ++ fields_after (types_in image.now) division.old.begun.items
        (Record.DataVar variable 0 qualifiers ∷ rest)) }
{
    close(alloc, division)?;
    let mask = all_bits(kind_at(image, variable));
    division.begun.push(Part {
        variable,
        mask,
        is_kept: is_kept(qualifiers),
    })?;
    close(alloc, division)
}

// A variable with a mask.
fn add_masked(
    alloc: Global,
    division: &mut Division,
    variable: VarNo,
    mask: u32,
    qualifiers: u8,
) -> Result<(), AllocError>
    requires { mask ≢ 0 }
    ensures { OnOk result ((types : List VariableType) (rest : List Record)
        → map field_of division.new.fields.items ++ fields_after types division.new.begun.items rest
        ≡ map field_of division.old.fields.items ++ fields_after types division.old.begun.items
        (Record.DataVar variable mask qualifiers ∷ rest)) }
{
    if union(division.begun.as_slice()) & mask != 0 {
        close(alloc, division)?;
    }
    division.begun.push(Part {
        variable,
        mask,
        is_kept: is_kept(qualifiers),
    })?;
    if mask % 2 == 0 {
        return Ok(());
    }
    close(alloc, division)
}

// One item more.
fn add(
    alloc: Global,
    image: &Image<'_>,
    division: &mut Division,
    item: &Record,
) -> Result<(), AllocError>
    ensures within { OnOk result (IsItem item.now) }
    ensures sound { OnOk result ((rest : List Record)
        → map field_of division.new.fields.items
        ++ fields_after (types_in image.now) division.new.begun.items rest
        ≡ map field_of division.old.fields.items
        ++ fields_after (types_in image.now) division.old.begun.items (item.now ∷ rest)) }
{
    match *item {
        Record::DataConst(octet) => add_constant(alloc, division, octet),
        Record::DataVar { var, mask, quals } => {
            if mask == 0 {
                add_whole(alloc, image, division, var, quals)
            } else {
                add_masked(alloc, division, var, mask, quals)
            }
        }
        _ => Ok(()),
    }
}

/// The fields of the items of a message.
pub fn fields_of(
    alloc: Global,
    image: &Image<'_>,
    items: &[Record],
) -> Result<Vec<Field>, AllocError>
    ensures sound { IfOk result (λ fields. map field_of fields.items
        ≡ fields_of (types_in image.now) items.now) }
    ensures within { OnOk result (AreItems items.now) }
{
    let mut division = Division {
        fields: Vec::new(alloc),
        begun: Vec::new(alloc),
    };
    for item in items {
        add(alloc, image, &mut division, item)?;
    }
    close(alloc, &mut division)?;
    Ok(division.fields)
}
