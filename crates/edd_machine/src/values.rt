//! The values of a device.

ghost use Rattle.std.specs.Prelude.{◌≡◌, IfErr, IfOk, IsTrue, OnOk, ◌↔◌};
ghost use Rattle.std.specs.List.{slice_get};
ghost use Rattle.edd_syntax.specs.DeviceValues.{AreDeviceValues};
ghost use Rattle.edd_machine.specs.Faults.{IsValuesFault};
ghost use Rattle.edd_machine.specs.Types.{types_in};

use crate::fault::ValuesFault;
use crate::sets::set_fault;
use edd_image::variable_count;
use edd_loader::Image;
use edd_syntax::numbers::VarNo;
use std::alloc::Global;

/// One number for each variable of a description, by the variables' numbers.
#[derive(Debug, Drop)]
pub struct Values {
    pub numbers: Vec<i64>,
}

impl Values {
    /// These numbers, copied, if they are values of a device of this description: one for each
    /// variable, in the range of its type and size.
    ///
    /// The fault is `Count` where there are not as many numbers as variables, `Range` where one of
    /// as many is out of its range, and `Memory` where the copy is refused.
    pub fn new(alloc: Global, image: &Image<'_>, numbers: &[i64]) -> Result<Values, ValuesFault>
        ensures sound { IfOk result (λ values. values.numbers.items ≡ numbers.now) }
        ensures accepted { OnOk result (AreDeviceValues (types_in image.now) numbers.now) }
        ensures refused { IfErr result (λ fault. IsValuesFault fault (types_in image.now)
            numbers.now) }
    {
        let bytes = image.bytes();
        if numbers.len() != variable_count(bytes) as usize {
            return Err(ValuesFault::Count);
        }
        if !are_values(image, numbers) {
            return Err(ValuesFault::Range);
        }
        let numbers = Vec::from_slice(alloc, numbers)?;
        Ok(Values { numbers })
    }

    /// The value of a variable, if there is such a variable.
    pub fn get(&self, variable: VarNo) -> Option<i64>
        ensures { result ≡ slice_get self.now.numbers.items variable.0 }
    {
        self.numbers.as_slice().get(variable.0 as usize).copied()
    }

    /// Whether they are values of a device of this description.
    pub fn are_of(&self, image: &Image<'_>) -> bool
        ensures { IsTrue result ↔ AreDeviceValues (types_in image.now) self.now.numbers.items }
    {
        are_values(image, self.numbers.as_slice())
    }
}

/// Whether the numbers are values of a device of this description.
pub fn are_values(image: &Image<'_>, numbers: &[i64]) -> bool
    ensures { IsTrue result ↔ AreDeviceValues (types_in image.now) numbers.now }
{
    let bytes = image.bytes();
    if numbers.len() != variable_count(bytes) as usize {
        return false;
    }
    for (index, number) in numbers.iter().enumerate() {
        if set_fault(image, VarNo(index as u16), *number).is_some() {
            return false;
        }
    }
    true
}
