//! The messages that carry a variable, one by one, as a program in C asks for them.

ghost use Rattle.std.specs.Prelude.{◌≡◌, IfErr, IfOk, List};
ghost use Rattle.edd_syntax.specs.DeviceValues.{AreDeviceValues};
ghost use Rattle.edd_machine.specs.Types.{types_in};
ghost use Rattle.edd_octets.specs.declared.messages.Message.{Message};
ghost use Rattle.edd_embed.specs.declared.carriers.ListFault.TheVariants.{WrongValues};
ghost use Rattle.edd_embed.specs.Octets.{AreRead, AreWritten, IsAmong};

use crate::octets::{PlainMessage, plain_message};
use edd_loader::Image;
use edd_machine::{ReadFault, Values};
use edd_octets::{Message, readers, writers};
use edd_syntax::numbers::VarNo;
use std::alloc::Global;

/// One of the messages that carry a variable, if there are as many, and how many there are.
#[derive(Clone, Copy, PartialEq, Eq, Debug)]
pub struct Carrier {
    pub message: Option<PlainMessage>,
    pub count: usize,
}

/// Why no messages are listed.
#[derive(Clone, Copy, Debug, PartialEq, Eq)]
pub enum ListFault {
    /// The values are not those of a device of this description.
    WrongValues,
    Memory,
}

// The message of this number among all of them, and how many they are.
fn among(all: &[Message], number: usize) -> Carrier
    ensures { IsAmong all.now number result }
{
    let message = match all.get(number) {
        Some(message) => Some(plain_message(*message)),
        None => None,
    };
    Carrier {
        message,
        count: all.len(),
    }
}

/// The reply of this number, from 0, among those with which a host reads the variable, and how many
/// they are. It takes memory for the values and the messages, and gives it back.
pub fn reader_at(
    alloc: Global,
    image: &Image<'_>,
    variable: u16,
    values: &[i64],
    number: usize,
) -> Result<Carrier, ListFault>
    ensures sound { IfOk result (λ found. (all : List Message)
        × AreRead image.now values.now variable all × IsAmong all number found) }
    ensures refused { IfErr result (λ fault. fault ≡ WrongValues
        → ¬ AreDeviceValues (types_in image.now) values.now) }
{
    let Ok(numbers) = Vec::from_slice(alloc, values) else {
        return Err(ListFault::Memory);
    };
    let values = Values { numbers };
    match readers(alloc, image, VarNo(variable), &values) {
        Ok(all) => Ok(among(all.as_slice(), number)),
        Err(ReadFault::WrongValues) => Err(ListFault::WrongValues),
        Err(_) => Err(ListFault::Memory),
    }
}

/// The same of the requests with which a host sets the variable.
pub fn writer_at(
    alloc: Global,
    image: &Image<'_>,
    variable: u16,
    values: &[i64],
    number: usize,
) -> Result<Carrier, ListFault>
    ensures sound { IfOk result (λ found. (all : List Message)
        × AreWritten image.now values.now variable all × IsAmong all number found) }
    ensures refused { IfErr result (λ fault. fault ≡ WrongValues
        → ¬ AreDeviceValues (types_in image.now) values.now) }
{
    let Ok(numbers) = Vec::from_slice(alloc, values) else {
        return Err(ListFault::Memory);
    };
    let values = Values { numbers };
    match writers(alloc, image, VarNo(variable), &values) {
        Ok(all) => Ok(among(all.as_slice(), number)),
        Err(ReadFault::WrongValues) => Err(ListFault::WrongValues),
        Err(_) => Err(ListFault::Memory),
    }
}
