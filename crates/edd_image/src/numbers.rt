//! The numbers of types, both ways.

ghost use Rattle.std.specs.Prelude.{◌≡◌};
ghost use Rattle.edd_image.specs.Layout.{type_code};
ghost use Rattle.edd_image.specs.Contents.{type_of};

use edd_syntax::types::VarType;

// The number of a type.
pub(crate) fn type_code(var_type: VarType) -> u8
    ensures { result ≡ type_code var_type }
{
    match var_type {
        VarType::Integer => 1,
        VarType::UnsignedInteger => 2,
        VarType::Enumerated => 3,
        VarType::BitEnumerated => 4,
    }
}

/// The type of a number.
pub fn type_of(number: u8) -> Option<VarType>
    ensures { result ≡ type_of number }
{
    match number {
        1 => Some(VarType::Integer),
        2 => Some(VarType::UnsignedInteger),
        3 => Some(VarType::Enumerated),
        4 => Some(VarType::BitEnumerated),
        _ => None,
    }
}
