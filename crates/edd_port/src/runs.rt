//! Whether numbers are a state of a method.

ghost use Rattle.std.specs.Prelude.{◌≡◌, ◌↔◌, ℕ, ℤ, IsTrue, List};
ghost use Rattle.std.specs.List.{AllByRecursion};
ghost use Rattle.edd_instructions.specs.declared.unit.Context.{Context};
ghost use Rattle.edd_instructions.specs.declared.unit.Sort.TheVariants.{Method};
ghost use Rattle.edd_instructions.specs.Steps.{Fits, Stands};
ghost use Rattle.edd_instructions.specs.Units.{IsValidUnit};
ghost use Rattle.edd_machine.specs.Running.{code_at, state_of, IsMachine, IsUnitOf};

use crate::depths::stands_with;
use edd_instructions::Status;
use edd_loader::Image;
use edd_machine::{Machine, are_values, code_of};

// Whether a number has 32 bits.
fn fits(number: i64) -> bool
    ensures { IsTrue result ↔ Fits Method number }
{
    i64::from(i32::MIN) <= number && number <= i64::from(i32::MAX)
}

// Whether each number has 32 bits.
fn all_fit(numbers: &[i64]) -> bool
    ensures { IsTrue result ↔ AllByRecursion (Fits Method) numbers.now }
{
    for number in numbers {
        if !fits(*number) {
            return false;
        }
    }
    true
}

// Whether the machine is at an instruction of this code, with the operands that belong there, if it
// runs or asks: the answer of a request will be one more.
fn stands(code: &[u8], machine: &Machine) -> bool
    requires { (context : Context) × IsValidUnit context code.now }
    ensures { (b : List ℕ) (values : List ℤ) → code_at b machine.now.unit ≡ code.now
        → (IsTrue result ↔ Stands (state_of b machine.now values) machine.now.status) }
{
    let count = machine.operands.numbers().len();
    match machine.status {
        Status::Running => stands_with(code, machine.place, count),
        Status::Asking(_) => stands_with(code, machine.place, count + 1),
        Status::Ended | Status::Aborted | Status::Trapped(_) => true,
    }
}

/// Whether the machine is at a state of its method in the image under these values of the device.
/// It takes no memory.
pub fn is_run(image: &Image<'_>, machine: &Machine, values: &[i64]) -> bool
    requires unit { IsUnitOf image.now machine.now.unit }
    requires sort { machine.now.unit.sort ≡ Method }
    ensures { IsTrue result ↔ IsMachine image.now machine.now values.now }
{
    let unit = machine.unit;
    if machine.slots.len() != usize::from(unit.slots) {
        return false;
    }
    if !all_fit(machine.operands.numbers()) {
        return false;
    }
    if !all_fit(machine.slots.as_slice()) {
        return false;
    }
    if !stands(code_of(image.bytes(), unit), machine) {
        return false;
    }
    are_values(image, values)
}
