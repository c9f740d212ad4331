//! Which messages carry a variable.

ghost use Rattle.std.specs.Prelude.{◌≡◌, ◌++◌, List, [], IfErr, IfOk, OnOk};
ghost use Rattle.edd_syntax.specs.DeviceValues.{AreDeviceValues};
ghost use Rattle.edd_image.specs.Fields.{counts_in};
ghost use Rattle.edd_instructions.specs.Reading.{IsReading, Reading, Records};
ghost use Rattle.edd_machine.specs.Types.{types_in};
ghost use Rattle.edd_octets.specs.declared.messages.Message.{Message};
ghost use Rattle.edd_octets.specs.Carriers.{AreIfSo, AreOfCommand, AreOfCommands, AreReaders, AreWriters, IsListFault, carried, has_kept, is_number, operation_of, where_so};
ghost use Rattle.edd_octets.specs.Messages.{attribute_of};

use crate::fields::is_kept;
use crate::messages::{Message, Side, attribute_of};
use edd_instructions::Record;
use edd_loader::Image;
use edd_machine::{ReadFault, Values, attribute_of_device};
use edd_syntax::numbers::{Attr, AttrRef, CmdNo, ItemNo, VarNo};
use std::alloc::{AllocError, Global};

/// OPERATION of a command that reads.
const READ: u8 = 1;
/// OPERATION of a command that writes.
const WRITE: u8 = 2;
/// How many positions the transactions of a command may have.
const POSITIONS: u32 = 65_536;

// Whether the items have the variable, and who receives it keeps it.
fn has_kept(items: &[Record], variable: VarNo) -> bool
    ensures { result ≡ has_kept variable items.now }
{
    for item in items {
        if let Record::DataVar { var, quals, .. } = *item {
            if var.0 == variable.0 && is_kept(quals) {
                return true;
            }
        }
    }
    false
}

// Whether a message has the variable, if there is such a message.
fn carried(
    alloc: Global,
    image: &Image<'_>,
    values: &Values,
    variable: VarNo,
    message: Message,
) -> Result<Option<bool>, AllocError>
    requires { AreDeviceValues (types_in image.now) values.now.numbers.items }
    ensures { IfOk result (λ found. (r : Reading)
        × IsReading image.now (attribute_of message) values.now.numbers.items r
        × (found ≡ carried variable r)) }
{
    match attribute_of_device(alloc, image, attribute_of(message), values) {
        Ok(items) => Ok(Some(has_kept(items.as_slice(), variable))),
        Err(ReadFault::NoItem) => Ok(None),
        Err(ReadFault::WrongValues) => unreachable!(),
        Err(ReadFault::DivZero) => Ok(Some(false)),
        Err(ReadFault::DivOverflow) => Ok(Some(false)),
        Err(ReadFault::BadShift) => Ok(Some(false)),
        Err(ReadFault::NoElement) => Ok(Some(false)),
        Err(ReadFault::Memory) => Err(AllocError),
    }
}

// Whether this number is the first of the records.
fn is_first(records: &[Record], number: u8) -> bool
    ensures { result ≡ is_number number (Records records.now) }
{
    match records {
        [Record::Number(first), ..] => *first == i64::from(number),
        _ => false,
    }
}

// Whether a command has this OPERATION.
fn has_operation(
    alloc: Global,
    image: &Image<'_>,
    values: &Values,
    command: CmdNo,
    operation: u8,
) -> Result<bool, AllocError>
    requires { AreDeviceValues (types_in image.now) values.now.numbers.items }
    ensures { IfOk result (λ so. (r : Reading)
        × IsReading image.now (operation_of command) values.now.numbers.items r
        × (so ≡ is_number operation r)) }
{
    let attr = AttrRef {
        item: ItemNo::Command(command),
        attr: Attr::Operation,
        sub: 0,
    };
    match attribute_of_device(alloc, image, attr, values) {
        Ok(records) => Ok(is_first(records.as_slice(), operation)),
        Err(ReadFault::NoItem) => Ok(false),
        Err(ReadFault::WrongValues) => unreachable!(),
        Err(ReadFault::DivZero) => Ok(false),
        Err(ReadFault::DivOverflow) => Ok(false),
        Err(ReadFault::BadShift) => Ok(false),
        Err(ReadFault::NoElement) => Ok(false),
        Err(ReadFault::Memory) => Err(AllocError),
    }
}

// The message comes behind those before, if it is one of them.
fn add_if(so: bool, message: Message, all: &mut Vec<Message>) -> Result<(), AllocError>
    ensures { OnOk result (all.new.items ≡ all.old.items ++ where_so so message []) }
{
    if so {
        all.push(message)?;
    }
    Ok(())
}

// The messages of a command that carry the variable come behind those before.
fn add_of_command(
    alloc: Global,
    image: &Image<'_>,
    values: &Values,
    variable: VarNo,
    command: CmdNo,
    side: Side,
    all: &mut Vec<Message>,
) -> Result<(), AllocError>
    requires { AreDeviceValues (types_in image.now) values.now.numbers.items }
    ensures { OnOk result ((own : List Message)
        × AreOfCommand image.now values.now.numbers.items variable command side 0 65536 own
        × (all.new.items ≡ all.old.items ++ own)) }
{
    for position in 0..POSITIONS {
        let message = Message {
            command,
            position: position as u16,
            side,
        };
        let found = carried(alloc, image, values, variable, message)?;
        match found {
            Some(so) => add_if(so, message, all)?,
            None => return Ok(()),
        }
    }
    Ok(())
}

// The same of a command, if it has this OPERATION.
fn add_if_operation(
    alloc: Global,
    image: &Image<'_>,
    values: &Values,
    variable: VarNo,
    operation: u8,
    command: CmdNo,
    side: Side,
    all: &mut Vec<Message>,
) -> Result<(), AllocError>
    requires { AreDeviceValues (types_in image.now) values.now.numbers.items }
    ensures { OnOk result ((r : Reading)
        × IsReading image.now (operation_of command) values.now.numbers.items r
        × (own : List Message)
        × AreIfSo (is_number operation r) (AreOfCommand image.now values.now.numbers.items
        variable command side 0 65536) own
        × (all.new.items ≡ all.old.items ++ own)) }
{
    if has_operation(alloc, image, values, command, operation)? {
        add_of_command(alloc, image, values, variable, command, side, all)?;
    }
    Ok(())
}

// The messages of one side that carry the variable, of the commands of this OPERATION.
fn carriers(
    alloc: Global,
    image: &Image<'_>,
    variable: VarNo,
    values: &Values,
    operation: u8,
    side: Side,
) -> Result<Vec<Message>, AllocError>
    requires { AreDeviceValues (types_in image.now) values.now.numbers.items }
    ensures { IfOk result (λ all. AreOfCommands image.now values.now.numbers.items variable
        operation side 0 (counts_in image.now).commands all.items) }
{
    let mut all = Vec::new(alloc);
    for number in 0..image.counts().commands {
        let command = CmdNo(number);
        add_if_operation(
            alloc, image, values, variable, operation, command, side, &mut all,
        )?;
    }
    Ok(all)
}

/// The replies with which a host reads the variable: those that carry it of the commands that READ,
/// in the order of the source. A reply whose items are not read under these values is none of them.
///
/// The fault is `WrongValues` where the values are not those of a device of this description, and
/// `Memory` where memory is refused.
pub fn readers(
    alloc: Global,
    image: &Image<'_>,
    variable: VarNo,
    values: &Values,
) -> Result<Vec<Message>, ReadFault>
    ensures sound { IfOk result (λ all. AreReaders image.now values.now.numbers.items variable
        all.items) }
    ensures accepted { OnOk result (AreDeviceValues (types_in image.now) values.now.numbers.items) }
    ensures refused { IfErr result (IsListFault image.now values.now.numbers.items) }
{
    if !values.are_of(image) {
        return Err(ReadFault::WrongValues);
    }
    Ok(carriers(alloc, image, variable, values, READ, Side::Reply)?)
}

/// The requests with which a host sets the variable: those that carry it of the commands that
/// WRITE, in the order of the source. A request whose items are not read under these values is none
/// of them.
///
/// The fault is `WrongValues` where the values are not those of a device of this description, and
/// `Memory` where memory is refused.
pub fn writers(
    alloc: Global,
    image: &Image<'_>,
    variable: VarNo,
    values: &Values,
) -> Result<Vec<Message>, ReadFault>
    ensures sound { IfOk result (λ all. AreWriters image.now values.now.numbers.items variable
        all.items) }
    ensures accepted { OnOk result (AreDeviceValues (types_in image.now) values.now.numbers.items) }
    ensures refused { IfErr result (IsListFault image.now values.now.numbers.items) }
{
    if !values.are_of(image) {
        return Err(ReadFault::WrongValues);
    }
    Ok(carriers(alloc, image, variable, values, WRITE, Side::Request)?)
}
