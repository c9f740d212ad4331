//! The octets of a message, and what is taken from them, in the room of a program in C.

ghost use Rattle.std.specs.Prelude.{◌≡◌, ℕ, ◌<◌, IfErr, IfOk, IsTrue, List, OnErr, length, map};
ghost use Rattle.edd_syntax.specs.Answers.{Change};
ghost use Rattle.edd_octets.specs.Messages.{change_of};
ghost use Rattle.edd_embed.specs.Octets.{Decodes, Encodes, IsDecodeFault, IsEncodeFault, message_of, plain_message, setting_of, side_number, side_numbered};
ghost use Rattle.edd_embed.specs.Records.{written_over};

use crate::answers::Setting;
use edd_loader::Image;
use edd_machine::Values;
use edd_octets::{Message, OctetsFault, Side, decode, encode};
use edd_syntax::numbers::{Attr, CmdNo, VarNo};
use std::alloc::Global;

/// One of the two messages of a transaction: the number of its command, the position of the
/// transaction in it, and the side, 16 for the request and 17 for the reply, which are the numbers
/// of REQUEST and REPLY among the attributes.
#[repr(C)]
#[derive(Clone, Copy, PartialEq, Eq, Debug)]
pub struct PlainMessage {
    pub command: u16,
    pub position: u16,
    pub side: u8,
}

/// Why octets or sets are not given.
#[derive(Clone, Copy, Debug, PartialEq, Eq)]
pub enum MessageFault {
    Octets(OctetsFault),
    /// There are so many, and there is room for fewer.
    Room(usize),
}

fn side_numbered(number: u8) -> Option<Side>
    ensures { result ≡ side_numbered number }
{
    match Attr::from_number(number)? {
        Attr::Request => Some(Side::Request),
        Attr::Reply => Some(Side::Reply),
        _ => None,
    }
}

fn side_number(side: Side) -> u8
    ensures { result ≡ side_number side }
{
    match side {
        Side::Request => Attr::Request.number(),
        Side::Reply => Attr::Reply.number(),
    }
}

/// The message of these numbers, if they have a side.
pub fn message_of(message: PlainMessage) -> Option<Message>
    ensures { result ≡ message_of message }
{
    let side = side_numbered(message.side)?;
    Some(Message {
        command: CmdNo(message.command),
        position: message.position,
        side,
    })
}

/// What a message is in C.
pub fn plain_message(message: Message) -> PlainMessage
    ensures { result ≡ plain_message message }
{
    PlainMessage {
        command: message.command.0,
        position: message.position,
        side: side_number(message.side),
    }
}

// Writes the octets into the caller's room, and says whether there is enough of it; where there
// isn't, nothing is written.
fn write_octets(octets: &[u8], room: &mut [u8]) -> bool
    ensures sound { IsTrue result → room.new ≡ written_over octets.now room.old }
    ensures refused { ¬ IsTrue result → length room.old < length octets.now }
    ensures kept { ¬ IsTrue result → room.new ≡ room.old }
{
    if octets.len() > room.len() {
        return false;
    }
    room[..octets.len()].copy_from_slice(octets);
    true
}

// A set in C.
fn setting_of(set: (VarNo, i64)) -> Setting
    ensures { result ≡ setting_of (change_of set) }
{
    Setting {
        value: set.1,
        variable: set.0.0,
    }
}

// The same of sets.
fn write_settings(sets: &[(VarNo, i64)], room: &mut [Setting]) -> bool
    ensures sound { IsTrue result
        → room.new ≡ written_over (map setting_of (map change_of sets.now)) room.old }
    ensures refused { ¬ IsTrue result → length room.old < length sets.now }
    ensures kept { ¬ IsTrue result → room.new ≡ room.old }
{
    if sets.len() > room.len() {
        return false;
    }
    for (index, set) in sets.iter().enumerate() {
        room[index] = setting_of(*set);
    }
    true
}

/// Writes the octets of a message under these values at the front of the room, and says how many
/// they are. It takes memory for the values, the items and the octets, and gives it back.
///
/// The fault is that of `encode`, or says how many octets there are where there is room for fewer;
/// then the room is as it was.
pub fn encode_into(
    alloc: Global,
    image: &Image<'_>,
    message: Message,
    values: &[i64],
    room: &mut [u8],
) -> Result<usize, MessageFault>
    ensures sound { IfOk result (λ n. (octets : List ℕ)
        × Encodes image.now message values.now octets
        × (n ≡ length octets) × (room.new ≡ written_over octets room.old)) }
    ensures refused { IfErr result
        (IsEncodeFault image.now message values.now (length room.old)) }
    ensures kept { OnErr result (room.new ≡ room.old) }
{
    let Ok(numbers) = Vec::from_slice(alloc, values) else {
        return Err(MessageFault::Octets(OctetsFault::Memory));
    };
    let values = Values { numbers };
    match encode(alloc, image, message, &values) {
        Ok(octets) => {
            if write_octets(octets.as_slice(), room) {
                Ok(octets.len())
            } else {
                Err(MessageFault::Room(octets.len()))
            }
        }
        Err(fault) => Err(MessageFault::Octets(fault)),
    }
}

/// Writes the sets that are taken from the octets of a message under these values at the front of
/// the room, in the order of the message, and says how many they are. It takes memory for the
/// values, the items and the sets, and gives it back.
///
/// The fault is that of `decode`, or says how many sets there are where there is room for fewer;
/// then the room is as it was.
pub fn decode_into(
    alloc: Global,
    image: &Image<'_>,
    message: Message,
    values: &[i64],
    octets: &[u8],
    room: &mut [Setting],
) -> Result<usize, MessageFault>
    ensures sound { IfOk result (λ n. (sets : List Change)
        × Decodes image.now message values.now octets.now sets
        × (n ≡ length sets) × (room.new ≡ written_over (map setting_of sets) room.old)) }
    ensures refused { IfErr result
        (IsDecodeFault image.now message values.now octets.now (length room.old)) }
    ensures kept { OnErr result (room.new ≡ room.old) }
{
    let Ok(numbers) = Vec::from_slice(alloc, values) else {
        return Err(MessageFault::Octets(OctetsFault::Memory));
    };
    let values = Values { numbers };
    match decode(alloc, image, message, &values, octets) {
        Ok(sets) => {
            if write_settings(sets.as_slice(), room) {
                Ok(sets.len())
            } else {
                Err(MessageFault::Room(sets.len()))
            }
        }
        Err(fault) => Err(MessageFault::Octets(fault)),
    }
}
