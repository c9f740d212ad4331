//! The bits of a variable, and where a mask has them in the number that octets are.

ghost use Rattle.std.specs.Prelude.{◌≡◌, ◌≤◌, ◌<◌, ◌^◌, ◌*◌};
ghost use Rattle.edd_loader.specs.Lookups.{type_of_kind};
ghost use Rattle.edd_syntax.specs.DeviceValues.{type_at};
ghost use Rattle.edd_machine.specs.Types.{types_in};
ghost use Rattle.edd_octets.specs.Fields.{all_bits, octets_for};
ghost use Rattle.edd_octets.specs.Masks.{bits_of, named_by, picked, placed, renewed, value_of};

use edd_image::VarKind;
use edd_loader::Image;
use edd_machine::stored;
use edd_syntax::numbers::VarNo;
use edd_syntax::types::VarType;

/// The type and size of a variable; of one that the image does not have, those of an integer of one
/// octet.
pub fn kind_at(image: &Image<'_>, variable: VarNo) -> VarKind
    ensures sound { type_of_kind result ≡ type_at (types_in image.now) variable }
    ensures low { 1 ≤ result.size }
    ensures high { result.size ≤ 4 }
{
    // The bytes of an image are valid, so a variable that it has is of 1 to 4 octets.
    let _bytes = image.bytes();
    match image.variable(variable) {
        Some(kind) => kind,
        None => VarKind {
            var_type: VarType::Integer,
            size: 1,
        },
    }
}

/// All bits of a variable of so many octets.
pub fn all_bits(kind: VarKind) -> u32
    requires low { 1 ≤ kind.size }
    requires high { kind.size ≤ 4 }
    ensures { result ≡ all_bits (type_of_kind kind) }
{
    match kind.size {
        1 => 0xff,
        2 => 0xffff,
        3 => 0xff_ffff,
        _ => 0xffff_ffff,
    }
}

/// The bits of a value.
pub fn bits_of(kind: VarKind, value: i64) -> u32
    requires low { 1 ≤ kind.size }
    requires high { kind.size ≤ 4 }
    ensures { result ≡ bits_of (type_of_kind kind) value }
{
    let unsigned = VarKind {
        var_type: VarType::UnsignedInteger,
        size: kind.size,
    };
    stored(unsigned, value) as u32
}

/// The value that has these bits.
pub fn value_of(kind: VarKind, bits: u32) -> i64
    requires low { 1 ≤ kind.size }
    requires high { kind.size ≤ 4 }
    ensures { result ≡ value_of (type_of_kind kind) bits }
{
    stored(kind, i64::from(bits))
}

/// How many octets a number has.
pub fn octets_for(number: u32) -> usize
    ensures { result ≡ octets_for number }
{
    if number < 0x100 {
        1
    } else if number < 0x1_0000 {
        2
    } else if number < 0x100_0000 {
        3
    } else {
        4
    }
}

/// The bits of a variable that a mask names.
pub fn named_by(mask: u32) -> u32
    ensures { result ≡ named_by mask }
{
    (u64::from(mask) >> mask.trailing_zeros()) as u32
}

/// The named ones of these bits, where the mask has them.
pub fn placed(mask: u32, bits: u32) -> u32
    ensures { result ≡ placed mask bits }
{
    (u64::from(bits & named_by(mask)) << mask.trailing_zeros()) as u32
}

/// The bits of a variable that a mask names, from where the mask has them in the number of a field.
pub fn picked(mask: u32, number: u32) -> u32
    ensures { result ≡ picked mask number }
{
    (u64::from(number) >> mask.trailing_zeros()) as u32 & named_by(mask)
}

/// Old bits, in which the named ones are new.
pub fn renewed(named: u32, old: u32, new: u32) -> u32
    ensures { result ≡ renewed named old new }
{
    old & !named | new
}
