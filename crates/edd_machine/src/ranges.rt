//! What a variable keeps of a number, by its type and size.

ghost use Rattle.std.specs.Prelude.{◌≡◌, ◌≤◌, ◌*◌, ◌-◌, ◌^◌, pos};
ghost use Rattle.edd_syntax.specs.DeviceValues.{is_in_range};
ghost use Rattle.edd_syntax.specs.TwosComplement.{store};
ghost use Rattle.edd_loader.specs.Lookups.{type_of_kind};

use edd_image::VarKind;
use edd_syntax::types::VarType;

// How many numbers a variable of so many octets tells apart.
fn modulus(size: u8) -> i64
    requires low { 1 ≤ size }
    requires high { size ≤ 4 }
    ensures { result ≡ pos (2 ^ (8 * size)) }
{
    match size {
        1 => 256,
        2 => 65_536,
        3 => 16_777_216,
        _ => 4_294_967_296,
    }
}

// Half of them.
fn half(size: u8) -> i64
    requires low { 1 ≤ size }
    requires high { size ≤ 4 }
    ensures { result ≡ pos (2 ^ (8 * size - 1)) }
{
    match size {
        1 => 128,
        2 => 32_768,
        3 => 8_388_608,
        _ => 2_147_483_648,
    }
}

/// Whether the number is in the range of the type and size.
pub fn is_in_range(kind: VarKind, number: i64) -> bool
    requires low { 1 ≤ kind.size }
    requires high { kind.size ≤ 4 }
    ensures { result ≡ is_in_range (type_of_kind kind) number }
{
    match kind.var_type {
        VarType::Integer => -half(kind.size) <= number && number <= half(kind.size) - 1,
        VarType::UnsignedInteger | VarType::Enumerated | VarType::BitEnumerated => {
            0 <= number && number <= modulus(kind.size) - 1
        }
    }
}

/// What a variable of the type and size keeps of a number.
#[tactic(auto, unfolding(edd_syntax::specs::TwosComplement::store, edd_syntax::specs::TwosComplement::wrap))]
pub fn stored(kind: VarKind, number: i64) -> i64
    requires low { 1 ≤ kind.size }
    requires high { kind.size ≤ 4 }
    ensures { result ≡ store kind.var_type kind.size number }
{
    let modulus = modulus(kind.size);
    let rest = number.rem_euclid(modulus);
    match kind.var_type {
        VarType::UnsignedInteger | VarType::Enumerated | VarType::BitEnumerated => rest,
        VarType::Integer => {
            if rest < half(kind.size) {
                rest
            } else {
                rest - modulus
            }
        }
    }
}
