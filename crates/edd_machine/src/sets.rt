//! The test of one set of an answer.

ghost use Rattle.std.specs.Prelude.{◌≡◌, option_map};
ghost use Rattle.edd_syntax.specs.Answers.{set_fault};
ghost use Rattle.edd_machine.specs.Faults.{set_fault_of};
ghost use Rattle.edd_machine.specs.Types.{types_in};

use crate::fault::SetFault;
use crate::ranges::is_in_range;
use edd_loader::Image;
use edd_syntax::numbers::VarNo;

/// Why an answer can't set the variable to this value, if it can't: the image has no such variable,
/// or the value is out of the range of its type and size.
pub fn set_fault(image: &Image<'_>, variable: VarNo, value: i64) -> Option<SetFault>
    ensures { option_map set_fault_of result
        ≡ set_fault (types_in image.now) (record { variable = variable; value = value }) }
{
    // The bytes of an image are valid, so a variable that it has is of 1 to 4 octets.
    let _bytes = image.bytes();
    match image.variable(variable) {
        Some(kind) => {
            if is_in_range(kind, value) {
                None
            } else {
                Some(SetFault::OutOfRange)
            }
        }
        None => Some(SetFault::BadVariable),
    }
}
