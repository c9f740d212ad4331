//! What is read of an attribute.

ghost use Rattle.std.specs.Prelude.{IfOk};
ghost use Rattle.edd_syntax.specs.DeviceValues.{AreDeviceValues};
ghost use Rattle.edd_instructions.specs.Reading.{IsReading};
ghost use Rattle.edd_machine.specs.Types.{types_in};
ghost use Rattle.edd_panel.specs.Found.{reading_of};

use edd_instructions::Record;
use edd_loader::Image;
use edd_machine::{ReadFault, Values, attribute_of_device};
use edd_syntax::answer::Trap;
use edd_syntax::numbers::AttrRef;
use std::alloc::{AllocError, Global};

/// What a read of an attribute results in.
#[derive(Drop)]
pub enum Found {
    /// There is no such item, or it has no such attribute.
    Nothing,
    Records(Vec<Record>),
    Trap(Trap),
}

/// Reads an attribute under values of a device.
pub fn read(
    alloc: Global,
    image: &Image<'_>,
    attr: AttrRef,
    values: &Values,
) -> Result<Found, AllocError>
    requires { AreDeviceValues (types_in image.now) values.now.numbers.items }
    ensures { IfOk result (λ found. IsReading image.now attr values.now.numbers.items
        (reading_of found)) }
{
    match attribute_of_device(alloc, image, attr, values) {
        Ok(records) => Ok(Found::Records(records)),
        Err(ReadFault::NoItem) => Ok(Found::Nothing),
        Err(ReadFault::DivZero) => Ok(Found::Trap(Trap::DivZero)),
        Err(ReadFault::DivOverflow) => Ok(Found::Trap(Trap::DivOverflow)),
        Err(ReadFault::BadShift) => Ok(Found::Trap(Trap::BadShift)),
        Err(ReadFault::NoElement) => Ok(Found::Trap(Trap::NoElement)),
        Err(ReadFault::WrongValues) => unreachable!(),
        Err(ReadFault::Memory) => Err(AllocError),
    }
}
