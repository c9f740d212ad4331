//! What becomes of an edit, and of a value that a method asks for.

ghost use Rattle.std.specs.Prelude.{◌≡◌, ◌<◌, IfOk, length, slice_set};
ghost use Rattle.edd_syntax.specs.DeviceValues.{AreDeviceValues, value_at};
ghost use Rattle.edd_machine.specs.Types.{types_in};
ghost use Rattle.edd_panel.specs.Edits.{Rules, AreRules, Decides, value_fault};

use crate::edits::{edit_fault, holds, value_fault};
use crate::fault::EditFault;
use crate::place::Field;
use crate::rules::rules_of;
use edd_loader::Image;
use edd_machine::Values;
use edd_syntax::numbers::VarNo;
use std::alloc::{AllocError, Global};

/// The value of a variable, or 0 where there is no such variable.
pub fn value_of(values: &Values, variable: VarNo) -> i64
    ensures { result ≡ value_at values.now.numbers.items variable }
{
    match values.get(variable) {
        Some(number) => number,
        None => 0,
    }
}

/// Why a technician can't set a variable to a number, if he can't.
pub fn decide(
    alloc: Global,
    image: &Image<'_>,
    values: &Values,
    field: Field,
    number: i64,
) -> Result<Option<EditFault>, AllocError>
    requires { AreDeviceValues (types_in image.now) values.now.numbers.items }
    ensures { IfOk result (Decides image.now values.now.numbers.items field.variable
        field.read_only number) }
{
    let rules = rules_of(alloc, image, values, field.variable)?;
    let held = holds(image, field.variable, number);
    let old = value_of(values, field.variable);
    Ok(edit_fault(&rules, field.read_only, held, old, number))
}

/// Why a variable can't get a value that a method asks for, if it can't.
pub fn decide_value(
    alloc: Global,
    image: &Image<'_>,
    values: &Values,
    variable: VarNo,
    number: i64,
) -> Result<Option<EditFault>, AllocError>
    requires { AreDeviceValues (types_in image.now) values.now.numbers.items }
    ensures { IfOk result (λ why. (rules : Rules)
        × AreRules image.now values.now.numbers.items variable rules
        × (value_fault rules (value_at values.now.numbers.items variable) number ≡ why)) }
{
    let rules = rules_of(alloc, image, values, variable)?;
    let held = holds(image, variable, number);
    let old = value_of(values, variable);
    Ok(value_fault(&rules, held, old, number))
}

/// Sets one value.
pub fn set(values: &mut Values, variable: VarNo, number: i64)
    requires { variable.0 < length values.old.numbers.items }
    ensures { values.new.numbers.items ≡ slice_set values.old.numbers.items variable.0 number }
{
    values.numbers[variable.0 as usize] = number;
}
