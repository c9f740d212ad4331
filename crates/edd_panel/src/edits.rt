//! Whether a variable may be set to a number.

ghost use Rattle.std.specs.Prelude.{◌≡◌, option_map};
ghost use Rattle.std.specs.List.{list_any, slice_get};
ghost use Rattle.edd_loader.specs.Lookups.{type_of_kind};
ghost use Rattle.edd_machine.specs.Types.{types_in};
ghost use Rattle.edd_panel.specs.Edits.{bits_of, changes_named, edit_fault, enumerators_fault, first_number, handling_fault, has_write, highest_fault, is_enumerator, lowest_fault, named_bits, named_fault, holds, value_fault, with_named};
ghost use Rattle.edd_panel.specs.Found.{reading_of, rules_of};

use crate::fault::EditFault;
use crate::found::Found;
use crate::rules::EditRules;
use edd_image::VarKind;
use edd_instructions::Record;
use edd_loader::Image;
use edd_machine::set_fault;
use edd_syntax::numbers::VarNo;
use edd_syntax::types::VarType;

/// The number that the records begin with.
pub fn first_number(records: &[Record]) -> Option<i64>
    ensures { result ≡ first_number records.now }
{
    match records {
        [Record::Number(number), ..] => Some(*number),
        _ => None,
    }
}

// Whether HANDLING has WRITE.
fn has_write(handling: Option<i64>) -> bool
    ensures { result ≡ has_write handling }
{
    match handling {
        Some(number) => number == 2 || number == 3,
        None => false,
    }
}

/// Why a variable can't be written by its HANDLING, if it can't.
pub fn handling_fault(handling: &Found) -> Option<EditFault>
    ensures { result ≡ handling_fault (reading_of handling.now) }
{
    match handling {
        Found::Records(records) => {
            if has_write(first_number(records)) {
                None
            } else {
                Some(EditFault::ReadOnly)
            }
        }
        Found::Trap(_) => Some(EditFault::Trapped),
        Found::Nothing => Some(EditFault::ReadOnly),
    }
}

fn lowest_fault(lowest: &Found, number: i64) -> Option<EditFault>
    ensures { result ≡ lowest_fault (reading_of lowest.now) number }
{
    match lowest {
        Found::Records(records) => match first_number(records) {
            Some(low) => {
                if low <= number {
                    None
                } else {
                    Some(EditFault::OutOfLimits)
                }
            }
            None => None,
        },
        Found::Trap(_) => Some(EditFault::Trapped),
        Found::Nothing => None,
    }
}

fn highest_fault(highest: &Found, number: i64) -> Option<EditFault>
    ensures { result ≡ highest_fault (reading_of highest.now) number }
{
    match highest {
        Found::Records(records) => match first_number(records) {
            Some(high) => {
                if number <= high {
                    None
                } else {
                    Some(EditFault::OutOfLimits)
                }
            }
            None => None,
        },
        Found::Trap(_) => Some(EditFault::Trapped),
        Found::Nothing => None,
    }
}

/// Whether the record is an enumerator of this value.
pub fn is_enumerator(read: &Record, number: i64) -> bool
    ensures { result ≡ is_enumerator number read.now }
{
    match read {
        Record::Enumerator { value, .. } => *value == number,
        _ => false,
    }
}

/// The bits of a number. A negative one has none that a variable could have.
pub fn bits_of(number: i64) -> u64
    ensures { result ≡ bits_of number }
{
    if number < 0 { 0 } else { number as u64 }
}

fn named_bits(read: &Record) -> u64
    ensures { result ≡ named_bits read.now }
{
    match read {
        Record::Enumerator { value, .. } => bits_of(*value),
        _ => 0,
    }
}

// The bits that the enumerators name.
fn all_named(records: &[Record]) -> u64
    ensures { result ≡ with_named 0 records.now }
{
    let mut bits = 0;
    for item in records {
        bits |= named_bits(item);
    }
    bits
}

fn changes_named(records: &[Record], old: i64, new: i64) -> bool
    ensures { result ≡ changes_named records.now old new }
{
    let named = all_named(records);
    let changed = bits_of(old) ^ bits_of(new);
    changed | named == named
}

fn names(records: &[Record], number: i64) -> bool
    ensures { result ≡ list_any (is_enumerator number) records.now }
{
    records.iter().any(|item| is_enumerator(item, number))
}

fn named_fault(var_type: VarType, records: &[Record], old: i64, new: i64) -> Option<EditFault>
    ensures { result ≡ named_fault var_type records.now old new }
{
    match var_type {
        VarType::Integer | VarType::UnsignedInteger => None,
        VarType::Enumerated => {
            if names(records, new) {
                None
            } else {
                Some(EditFault::NoEnumerator)
            }
        }
        VarType::BitEnumerated => {
            if changes_named(records, old, new) {
                None
            } else {
                Some(EditFault::NoBit)
            }
        }
    }
}

fn enumerators_fault(
    kind: Option<VarKind>,
    enumerators: &Found,
    old: i64,
    new: i64,
) -> Option<EditFault>
    ensures { result ≡ enumerators_fault (option_map type_of_kind kind)
        (reading_of enumerators.now) old new }
{
    let Some(kind) = kind else {
        return None;
    };
    match enumerators {
        Found::Records(records) => named_fault(kind.var_type, records, old, new),
        Found::Trap(_) => Some(EditFault::Trapped),
        Found::Nothing => named_fault(kind.var_type, &[], old, new),
    }
}

/// Why a variable of these rules that has the value `old` can't get the value `new`, if it can't.
/// `held` says whether its type holds that.
pub fn value_fault(rules: &EditRules, held: bool, old: i64, new: i64) -> Option<EditFault>
    requires { held ≡ holds (rules_of rules.now).type new }
    ensures { result ≡ value_fault (rules_of rules.now) old new }
{
    if !held {
        return Some(EditFault::OutOfType);
    }
    if let Some(fault) = lowest_fault(&rules.lowest, new) {
        return Some(fault);
    }
    if let Some(fault) = highest_fault(&rules.highest, new) {
        return Some(fault);
    }
    enumerators_fault(rules.kind, &rules.enumerators, old, new)
}

/// Why a technician can't set a variable so, from an entry that may be READ_ONLY.
pub fn edit_fault(
    rules: &EditRules,
    read_only: bool,
    held: bool,
    old: i64,
    new: i64,
) -> Option<EditFault>
    requires { held ≡ holds (rules_of rules.now).type new }
    ensures { result ≡ edit_fault (rules_of rules.now) read_only old new }
{
    if read_only {
        return Some(EditFault::ReadOnly);
    }
    if let Some(fault) = handling_fault(&rules.handling) {
        return Some(fault);
    }
    value_fault(rules, held, old, new)
}

/// Whether there is such a variable, and its type holds the number.
pub fn holds(image: &Image<'_>, variable: VarNo, number: i64) -> bool
    ensures { result ≡ holds (slice_get (types_in image.now) variable.0) number }
{
    set_fault(image, variable, number).is_none()
}
