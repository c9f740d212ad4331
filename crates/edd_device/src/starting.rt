//! The values with which a device starts.

ghost use Rattle.std.specs.Prelude.{◌≡◌, IfOk};
ghost use Rattle.edd_syntax.specs.DeviceValues.{AreDeviceValues};
ghost use Rattle.edd_machine.specs.Types.{types_in};
ghost use Rattle.edd_device.specs.Starts.{IsStart, StartsAs, default_of, start_number, zeros};
ghost use Rattle.edd_device.specs.Taken.{reading_of};

use crate::messages::{Taken, number_read, read};
use edd_loader::Image;
use edd_machine::{Values, set_fault};
use edd_syntax::numbers::{Attr, AttrRef, ItemNo, VarNo};
use std::alloc::{AllocError, Global};

// All variables are 0.
fn zeros(alloc: Global, image: &Image<'_>) -> Result<Values, AllocError>
    ensures sound { IfOk result (λ values. values.numbers.items ≡ zeros image.now) }
    ensures values { IfOk result (λ values. AreDeviceValues (types_in image.now)
        values.numbers.items) }
{
    // The bytes of an image are valid, so it has as many types as variables.
    let _bytes = image.bytes();
    let mut numbers = Vec::new(alloc);
    for _variable in 0..image.counts().variables {
        numbers.push(0)?;
    }
    Ok(Values { numbers })
}

// The attribute that says how a variable starts.
fn default_of(variable: u16) -> AttrRef
    ensures { result ≡ default_of variable }
{
    AttrRef {
        item: ItemNo::Variable(VarNo(variable)),
        attr: Attr::DefaultValue,
        sub: 0,
    }
}

// The number that was read, or 0 where there is none or it is out of range.
fn start_number(image: &Image<'_>, variable: u16, taken: &Taken) -> i64
    ensures { result ≡ start_number image.now variable (reading_of taken.now) }
{
    match number_read(taken) {
        Some(number) => {
            if set_fault(image, VarNo(variable), number).is_some() {
                0
            } else {
                number
            }
        }
        None => 0,
    }
}

// How a variable starts, where all values are 0.
fn start_of(
    alloc: Global,
    image: &Image<'_>,
    variable: u16,
    values: &Values,
) -> Result<i64, AllocError>
    requires zeros { values.now.numbers.items ≡ zeros image.now }
    requires values { AreDeviceValues (types_in image.now) values.now.numbers.items }
    ensures { IfOk result (StartsAs image.now variable) }
{
    let taken = read(alloc, image, default_of(variable), values)?;
    Ok(start_number(image, variable, &taken))
}

/// The values with which a device starts.
pub fn start_values(alloc: Global, image: &Image<'_>) -> Result<Vec<i64>, AllocError>
    ensures starts { IfOk result (λ numbers. IsStart image.now numbers.items) }
    ensures values { IfOk result (λ numbers. AreDeviceValues (types_in image.now) numbers.items) }
{
    // The bytes of an image are valid, so it has as many types as variables.
    let _bytes = image.bytes();
    let zeros = zeros(alloc, image)?;
    let mut numbers = Vec::new(alloc);
    for variable in 0..image.counts().variables {
        let number = start_of(alloc, image, variable, &zeros)?;
        numbers.push(number)?;
    }
    Ok(numbers)
}
