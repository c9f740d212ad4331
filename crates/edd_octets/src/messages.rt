//! The messages of an image's transactions.

ghost use Rattle.std.specs.Prelude.{◌≡◌, IfErr, IfOk, OnOk, map};
ghost use Rattle.edd_syntax.specs.DeviceValues.{AreDeviceValues};
ghost use Rattle.edd_machine.specs.Types.{types_in};
ghost use Rattle.edd_octets.specs.Messages.{HasFields, IsNotRead, attribute_of, field_of};

use crate::fault::OctetsFault;
use crate::fields::{Field, fields_of};
use edd_loader::Image;
use edd_machine::{Values, attribute};
use edd_syntax::numbers::{Attr, AttrRef, CmdNo, ItemNo};
use std::alloc::Global;

/// Who a message is for: a request goes to the device, and a reply to the host.
#[derive(Clone, Copy, Debug, PartialEq, Eq)]
pub enum Side {
    Request,
    Reply,
}

/// One of the two messages of a transaction, which is named by its position in its command.
#[derive(Clone, Copy, Debug, PartialEq, Eq)]
pub struct Message {
    pub command: CmdNo,
    pub position: u16,
    pub side: Side,
}

/// The attribute that says what a message carries.
pub fn attribute_of(message: Message) -> AttrRef
    ensures { result ≡ attribute_of message }
{
    let attr = match message.side {
        Side::Request => Attr::Request,
        Side::Reply => Attr::Reply,
    };
    AttrRef {
        item: ItemNo::Command(message.command),
        attr,
        sub: message.position,
    }
}

/// The fields of a message under the values of a device.
pub fn message_fields(
    alloc: Global,
    image: &Image<'_>,
    message: Message,
    values: &Values,
) -> Result<Vec<Field>, OctetsFault>
    ensures sound { IfOk result (λ fields. HasFields image.now message values.now.numbers.items
        (map field_of fields.items)) }
    ensures accepted { OnOk result (AreDeviceValues (types_in image.now) values.now.numbers.items) }
    ensures refused { IfErr result (IsNotRead image.now message values.now.numbers.items) }
{
    let items = attribute(alloc, image, attribute_of(message), values)?;
    Ok(fields_of(alloc, image, items.as_slice())?)
}
