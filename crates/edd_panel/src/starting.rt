//! The values with which a panel is opened.

ghost use Rattle.std.specs.Prelude.{IfOk};
ghost use Rattle.edd_syntax.specs.DeviceValues.{AreDeviceValues};
ghost use Rattle.edd_machine.specs.Types.{types_in};

use crate::deciding::set;
use crate::edits::{first_number, holds};
use crate::found::{Found, read};
use crate::rules::of_variable;
use edd_loader::Image;
use edd_machine::{Values, ValuesFault};
use edd_syntax::numbers::{Attr, VarNo};
use std::alloc::{AllocError, Global};

// The number that an attribute of a variable gives, if it gives one.
fn number_read(
    alloc: Global,
    image: &Image<'_>,
    values: &Values,
    variable: VarNo,
    attr: Attr,
) -> Result<Option<i64>, AllocError>
    requires { AreDeviceValues (types_in image.now) values.now.numbers.items }
{
    match read(alloc, image, of_variable(variable, attr), values)? {
        Found::Records(records) => Ok(first_number(&records)),
        Found::Trap(_) | Found::Nothing => Ok(None),
    }
}

// The number within the limits; the upper one decides where they contradict each other.
fn within(number: i64, low: Option<i64>, high: Option<i64>) -> i64 {
    let raised = match low {
        Some(low) => number.max(low),
        None => number,
    };
    match high {
        Some(high) => raised.min(high),
        None => raised,
    }
}

// The DEFAULT_VALUE of a variable, or 0, within its limits.
fn default_of(
    alloc: Global,
    image: &Image<'_>,
    values: &Values,
    variable: VarNo,
) -> Result<i64, AllocError>
    requires { AreDeviceValues (types_in image.now) values.now.numbers.items }
{
    if let Some(number) = number_read(alloc, image, values, variable, Attr::DefaultValue)? {
        return Ok(number);
    }
    let low = number_read(alloc, image, values, variable, Attr::MinValue)?;
    let high = number_read(alloc, image, values, variable, Attr::MaxValue)?;
    Ok(within(0, low, high))
}

// Sets a variable, if its type holds the number.
fn set_if_held(image: &Image<'_>, values: &mut Values, variable: VarNo, number: i64)
    requires { AreDeviceValues (types_in image.now) values.old.numbers.items }
    ensures { AreDeviceValues (types_in image.now) values.new.numbers.items }
{
    if holds(image, variable, number) {
        set(values, variable, number);
    }
}

// The numbers that are given, and 0 for each other.
fn numbers_given(alloc: Global, given: &[Option<i64>]) -> Result<Vec<i64>, AllocError> {
    let mut numbers = Vec::new(alloc);
    for number in given {
        numbers.push(match number {
            Some(number) => *number,
            None => 0,
        })?;
    }
    Ok(numbers)
}

// Sets those that are not given to their defaults, in their order.
fn set_defaults(
    alloc: Global,
    image: &Image<'_>,
    given: &[Option<i64>],
    values: &mut Values,
) -> Result<(), AllocError>
    requires { AreDeviceValues (types_in image.now) values.old.numbers.items }
    ensures { IfOk result (λ _. AreDeviceValues (types_in image.now) values.new.numbers.items) }
{
    for number in 0..image.counts().variables {
        let variable = VarNo(number);
        if let Some(None) = given.get(usize::from(number)) {
            let number = default_of(alloc, image, values, variable)?;
            set_if_held(image, values, variable, number);
        }
    }
    Ok(())
}

/// Values of a device: those that are given, by the variables' numbers, and for each other variable
/// its DEFAULT_VALUE under the values so far, or 0 within its limits. A default that its type
/// doesn't hold is left out.
pub fn start_values(
    alloc: Global,
    image: &Image<'_>,
    given: &[Option<i64>],
) -> Result<Values, ValuesFault>
    ensures { IfOk result (λ values. AreDeviceValues (types_in image.now) values.numbers.items) }
{
    let numbers = numbers_given(alloc, given)?;
    let mut values = Values::new(alloc, image, &numbers)?;
    set_defaults(alloc, image, given, &mut values)?;
    Ok(values)
}
