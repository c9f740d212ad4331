//! The words that stand for numbers.

ghost use Rattle.std.specs.Prelude.{◌≡◌, ◌++◌, IfErr, OnOk, false, map, string_bytes};
ghost use Rattle.edd_display.specs.Shown.{blames_values};
ghost use Rattle.edd_display.specs.Words as shown;

use crate::fault::ShowFault;
use edd_syntax::answer::Trap;
use edd_syntax::types::VarType;
use std::alloc::AllocError;

/// The word of a type.
pub fn type_word(of: VarType) -> &'static str
    ensures { result.now ≡ shown.type_word of }
{
    match of {
        VarType::Integer => "INTEGER",
        VarType::UnsignedInteger => "UNSIGNED_INTEGER",
        VarType::Enumerated => "ENUMERATED",
        VarType::BitEnumerated => "BIT_ENUMERATED",
    }
}

/// The word of a trap.
pub fn trap_word(trap: Trap) -> &'static str
    ensures { result.now ≡ shown.trap_word trap }
{
    match trap {
        Trap::DivZero => "DIV_ZERO",
        Trap::DivOverflow => "DIV_OVERFLOW",
        Trap::BadShift => "BAD_SHIFT",
        Trap::NoElement => "NO_ELEMENT",
    }
}

/// The word of a response code's class.
pub fn class_word(class: u8) -> &'static str
    ensures { result.now ≡ shown.class_word class }
{
    match class {
        0 => "SUCCESS",
        1 => "MISC_WARNING",
        2 => "DATA_ENTRY_WARNING",
        3 => "DATA_ENTRY_ERROR",
        4 => "MODE_ERROR",
        5 => "PROCESS_ERROR",
        _ => "MISC_ERROR",
    }
}

/// The qualifiers of a menu's entry, in the order of their bits.
pub const MENU_QUALIFIERS: [(u16, &str); 4] = [
    (1, "DISPLAY_VALUE"),
    (2, "READ_ONLY"),
    (4, "HIDDEN"),
    (8, "REVIEW"),
];

/// The qualifiers of a data item, in the order of their bits.
pub const DATA_QUALIFIERS: [(u16, &str); 2] = [(1, "INFO"), (2, "INDEX")];

/// The words of the bits that are set, between parentheses; nothing where none is.
pub fn push_set(
    line: &mut String,
    bits: u16,
    words: &[(u16, &'static str)],
) -> Result<(), AllocError>
    ensures { OnOk result (string_bytes line.new ≡ string_bytes line.old
        ++ shown.qualifiers_shown bits (map (λ w. (w.0, w.1.now)) words.now)) }
{
    let mut before = '(';
    for (bit, word) in words {
        if bits & *bit != 0 {
            line.push(before)?;
            line.push_str(*word)?;
            before = ' ';
        }
    }
    if before == ' ' {
        line.push(')')?;
    }
    Ok(())
}

/// The words of the bits that are set, between parentheses; nothing where none is.
pub fn push_qualifiers(
    line: &mut String,
    bits: u16,
    words: &[(u16, &'static str)],
) -> Result<(), ShowFault>
    ensures sound { OnOk result (string_bytes line.new ≡ string_bytes line.old
        ++ shown.qualifiers_shown bits (map (λ w. (w.0, w.1.now)) words.now)) }
    ensures refused { IfErr result (λ fault. blames_values fault ≡ false) }
{
    push_set(line, bits, words)?;
    Ok(())
}

/// The qualifiers of a menu's entry.
pub fn push_menu_qualifiers(line: &mut String, bits: u16) -> Result<(), AllocError>
    ensures { OnOk result (string_bytes line.new ≡ string_bytes line.old
        ++ shown.qualifiers_shown bits shown.menu_qualifiers) }
{
    push_set(line, bits, &MENU_QUALIFIERS)
}

/// The qualifiers of a data item.
pub fn push_data_qualifiers(line: &mut String, bits: u16) -> Result<(), AllocError>
    ensures { OnOk result (string_bytes line.new ≡ string_bytes line.old
        ++ shown.qualifiers_shown bits shown.data_qualifiers) }
{
    push_set(line, bits, &DATA_QUALIFIERS)
}
