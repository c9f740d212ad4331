//! What the transaction that a method sends carries.

ghost use Rattle.std.specs.Prelude.{◌≡◌, ◌≢◌, ◌↔◌, IfErr, IfOk, IsTrue, Ok, Err, Some};
ghost use Rattle.edd_syntax.specs.DeviceValues.{AreDeviceValues};
ghost use Rattle.edd_instructions.specs.Reading.{IsReading};
ghost use Rattle.edd_machine.specs.Types.{types_in};
ghost use Rattle.edd_device.specs.Messages.{IsCarried, IsCommand, IsMessage, IsPosition, carried, carried_if, entries, first_number, number_read, of_command, transaction_number};
ghost use Rattle.edd_device.specs.Taken.{entries_of, message_of, reading_of};

use crate::fault::DeviceFault;
use edd_instructions::Record;
use edd_loader::Image;
use edd_machine::{ReadFault, Values, attribute_of_device};
use edd_syntax::answer::Trap;
use edd_syntax::numbers::{Attr, AttrRef, CmdNo, ItemNo};
use std::alloc::{AllocError, Global};

/// The most transactions of a command.
const MOST_TRANSACTIONS: u16 = 4096;

/// What is read of an attribute.
#[derive(Drop)]
pub enum Taken {
    NoItem,
    Records(Vec<Record>),
    Trap(Trap),
}

/// The entries of a REQUEST and of a REPLY.
#[derive(Drop)]
pub struct Message {
    pub request: Vec<Record>,
    pub reply: Vec<Record>,
}

/// What is read of an attribute under values of a device.
pub fn read(
    alloc: Global,
    image: &Image<'_>,
    attr: AttrRef,
    values: &Values,
) -> Result<Taken, AllocError>
    requires { AreDeviceValues (types_in image.now) values.now.numbers.items }
    ensures { IfOk result (λ taken. IsReading image.now attr values.now.numbers.items
        (reading_of taken)) }
{
    match attribute_of_device(alloc, image, attr, values) {
        Ok(records) => Ok(Taken::Records(records)),
        Err(ReadFault::NoItem) => Ok(Taken::NoItem),
        Err(ReadFault::WrongValues) => unreachable!(),
        Err(ReadFault::DivZero) => Ok(Taken::Trap(Trap::DivZero)),
        Err(ReadFault::DivOverflow) => Ok(Taken::Trap(Trap::DivOverflow)),
        Err(ReadFault::BadShift) => Ok(Taken::Trap(Trap::BadShift)),
        Err(ReadFault::NoElement) => Ok(Taken::Trap(Trap::NoElement)),
        Err(ReadFault::Memory) => Err(AllocError),
    }
}

// The number that an attribute gives, if it gives one.
fn first_number(records: &[Record]) -> Option<i64>
    ensures { result ≡ first_number records.now }
{
    match records {
        [Record::Number(number), ..] => Some(*number),
        _ => None,
    }
}

/// The number that is read of an attribute, if it gives one.
pub fn number_read(taken: &Taken) -> Option<i64>
    ensures { result ≡ number_read (reading_of taken.now) }
{
    match taken {
        Taken::Records(records) => first_number(records),
        Taken::NoItem => None,
        Taken::Trap(_) => None,
    }
}

// The number of a transaction, which is 0 where it is written without one.
fn transaction_number(taken: &Taken) -> Option<i64>
    ensures { result ≡ transaction_number (reading_of taken.now) }
{
    match taken {
        Taken::Records(records) => {
            if records.is_empty() {
                Some(0)
            } else {
                first_number(records)
            }
        }
        Taken::NoItem => None,
        Taken::Trap(_) => None,
    }
}

// An attribute of a command.
fn of_command(command: u16, attr: Attr, sub: u16) -> AttrRef
    ensures { result ≡ of_command command attr sub }
{
    AttrRef {
        item: ItemNo::Command(CmdNo(command)),
        attr,
        sub,
    }
}

// Whether this number was read.
fn is_number(read: Option<i64>, number: i32) -> bool
    ensures { IsTrue result ↔ read ≡ Some number }
{
    match read {
        Some(read) => read == i64::from(number),
        None => false,
    }
}

// The command of this number.
fn find_command(
    alloc: Global,
    image: &Image<'_>,
    values: &Values,
    number: i32,
) -> Result<Option<u16>, AllocError>
    requires { AreDeviceValues (types_in image.now) values.now.numbers.items }
    ensures { IfOk result (IsCommand image.now values.now.numbers.items number) }
{
    for command in 0..image.counts().commands {
        let taken = read(alloc, image, of_command(command, Attr::Number, 0), values)?;
        if is_number(number_read(&taken), number) {
            return Ok(Some(command));
        }
    }
    Ok(None)
}

// The position of the transaction of this number.
fn find_position(
    alloc: Global,
    image: &Image<'_>,
    values: &Values,
    command: u16,
    transaction: i32,
) -> Result<Option<u16>, AllocError>
    requires { AreDeviceValues (types_in image.now) values.now.numbers.items }
    ensures { IfOk result (IsPosition image.now values.now.numbers.items command transaction) }
{
    for position in 0..MOST_TRANSACTIONS {
        let attr = of_command(command, Attr::Transaction, position);
        let taken = read(alloc, image, attr, values)?;
        if is_number(transaction_number(&taken), transaction) {
            return Ok(Some(position));
        }
    }
    Ok(None)
}

// The entries that are read, or the trap.
fn entries(alloc: Global, taken: Taken) -> Result<Vec<Record>, Trap>
    ensures { entries_of result ≡ entries (reading_of taken) }
{
    match taken {
        Taken::NoItem => Ok(Vec::new(alloc)),
        Taken::Records(records) => Ok(records),
        Taken::Trap(why) => Err(why),
    }
}

// What a command's transaction carries, by what its REQUEST and its REPLY have.
fn join(
    command: u16,
    request: Result<Vec<Record>, Trap>,
    reply: Result<Vec<Record>, Trap>,
) -> Result<Message, DeviceFault>
    ensures sound { IfOk result (λ m. carried command (entries_of request) (entries_of reply)
        ≡ Ok (message_of m)) }
    ensures refused { IfErr result (λ fault. carried command (entries_of request)
        (entries_of reply)
        ≡ Err fault) }
{
    match (request, reply) {
        (Ok(request), Ok(reply)) => Ok(Message { request, reply }),
        (Ok(_), Err(why)) => Err(DeviceFault::NoMessage(CmdNo(command), why)),
        (Err(why), _) => Err(DeviceFault::NoMessage(CmdNo(command), why)),
    }
}

// What the transaction at a position carries.
fn carried(
    alloc: Global,
    image: &Image<'_>,
    values: &Values,
    command: u16,
    position: u16,
) -> Result<Message, DeviceFault>
    requires { AreDeviceValues (types_in image.now) values.now.numbers.items }
    ensures sound { IfOk result (λ m. IsCarried image.now values.now.numbers.items command position
        (Ok (message_of m))) }
    ensures refused { IfErr result (λ fault. fault ≢ DeviceFault.Memory
        → IsCarried image.now values.now.numbers.items command position (Err fault)) }
{
    let request = read(
        alloc,
        image,
        of_command(command, Attr::Request, position),
        values,
    )?;
    let reply = read(
        alloc,
        image,
        of_command(command, Attr::Reply, position),
        values,
    )?;
    join(command, entries(alloc, request), entries(alloc, reply))
}

// Nothing, if the device knows what the instrument doesn't have.
fn carried_if(alloc: Global, is_known: bool, fault: DeviceFault) -> Result<Message, DeviceFault>
    ensures sound { IfOk result (λ m. carried_if is_known fault ≡ Ok (message_of m)) }
    ensures refused { IfErr result (λ why. carried_if is_known fault ≡ Err why) }
{
    if is_known {
        Ok(Message {
            request: Vec::new(alloc),
            reply: Vec::new(alloc),
        })
    } else {
        Err(fault)
    }
}

/// What the transaction of these numbers carries under the instrument's values: nothing, where only
/// the device knows it.
pub fn find_message(
    alloc: Global,
    image: &Image<'_>,
    values: &Values,
    number: i32,
    transaction: i32,
    is_known: bool,
) -> Result<Message, DeviceFault>
    requires { AreDeviceValues (types_in image.now) values.now.numbers.items }
    ensures sound { IfOk result (λ m. IsMessage image.now values.now.numbers.items number
        transaction is_known (Ok (message_of m))) }
    ensures refused { IfErr result (λ fault. fault ≢ DeviceFault.Memory
        → IsMessage image.now values.now.numbers.items number transaction is_known (Err fault)) }
{
    let Some(command) = find_command(alloc, image, values, number)? else {
        return carried_if(alloc, is_known, DeviceFault::NoCommand(number));
    };
    let Some(position) = find_position(alloc, image, values, command, transaction)? else {
        return carried_if(
            alloc,
            is_known,
            DeviceFault::NoTransaction(number, transaction),
        );
    };
    carried(alloc, image, values, command, position)
}
