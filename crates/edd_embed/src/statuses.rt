//! The numbers that calls for C answer: 0 where the call did what was asked, else why it didn't.

ghost use Rattle.std.specs.Prelude.{◌≡◌};
ghost use Rattle.edd_embed.specs.Octets.{told};
ghost use Rattle.edd_embed.specs.Statuses.{answer_status, attribute_status, list_status, load_status, message_status, octets_status, play_status, read_status, refusal_status, session_status, start_status};

use crate::carriers::ListFault;
use crate::octets::MessageFault;
use crate::playing::PlayRefusal;
use crate::reading::AttributeFault;
use crate::turns::SessionRefusal;
use edd_loader::LoadFault;
use edd_machine::ReadFault;
use edd_octets::OctetsFault;
use edd_port::{AnswerFault, PlayFault, StartFault};

/// The call did what was asked.
pub const DONE: u32 = 0;

/// Memory was refused.
pub const MEMORY: u32 = 150;

/// There is no such item, or it has nothing of this kind.
pub const NO_ITEM: u32 = 203;

/// The numbers are not those of an image in these bytes.
pub const OTHER_IMAGE: u32 = 260;

/// There is too little room.
pub const NO_ROOM: u32 = 261;

/// The numbers are no session of the image under these values.
pub const NO_SESSION: u32 = 262;

/// An answer has fewer settings than it says.
pub const NO_SETTINGS: u32 = 263;

/// The number of the rule that bytes break, or of refused memory.
pub fn load_status(fault: LoadFault) -> u32
    ensures { result ≡ load_status fault }
{
    match fault {
        LoadFault::Short => 101,
        LoadFault::Magic => 102,
        LoadFault::Version => 103,
        LoadFault::Length => 104,
        LoadFault::Row => 105,
        LoadFault::Name => 106,
        LoadFault::Text => 107,
        LoadFault::Instruction => 108,
        LoadFault::Jump => 109,
        LoadFault::Depth => 110,
        LoadFault::Reference => 111,
        LoadFault::Memory => MEMORY,
    }
}

fn read_status(fault: ReadFault) -> u32
    ensures { result ≡ read_status fault }
{
    match fault {
        ReadFault::NoItem => NO_ITEM,
        ReadFault::WrongValues => 204,
        ReadFault::DivZero => 210,
        ReadFault::DivOverflow => 211,
        ReadFault::BadShift => 212,
        ReadFault::NoElement => 213,
        ReadFault::Memory => MEMORY,
    }
}

/// The number of why an attribute is not given.
pub fn attribute_status(fault: AttributeFault) -> u32
    ensures { result ≡ attribute_status fault }
{
    match fault {
        AttributeFault::Read(fault) => read_status(fault),
        AttributeFault::Room(_) => NO_ROOM,
    }
}

fn octets_status(fault: OctetsFault) -> u32
    ensures { result ≡ octets_status fault }
{
    match fault {
        OctetsFault::Read(fault) => read_status(fault),
        OctetsFault::TooShort => 220,
        OctetsFault::TooLong => 221,
        OctetsFault::WrongConstant(_) => 222,
        OctetsFault::OutOfType(_) => 223,
        OctetsFault::Memory => MEMORY,
    }
}

/// The number of why octets or sets are not given.
pub fn message_status(fault: MessageFault) -> u32
    ensures { result ≡ message_status fault }
{
    match fault {
        MessageFault::Octets(fault) => octets_status(fault),
        MessageFault::Room(_) => NO_ROOM,
    }
}

/// The number that is told with a fault: how many there are where there is room for fewer, the place
/// of the octet that differs from its constant, or the variable that does not have the bits; else
/// what was there before.
pub fn told(fault: MessageFault, before: usize) -> usize
    ensures { result ≡ told fault before }
{
    match fault {
        MessageFault::Room(count) => count,
        MessageFault::Octets(OctetsFault::WrongConstant(place)) => place,
        MessageFault::Octets(OctetsFault::OutOfType(variable)) => usize::from(variable.0),
        _ => before,
    }
}

/// The number of why no messages are listed.
pub fn list_status(fault: ListFault) -> u32
    ensures { result ≡ list_status fault }
{
    match fault {
        ListFault::WrongValues => 204,
        ListFault::Memory => MEMORY,
    }
}

fn play_status(fault: PlayFault) -> u32
    ensures { result ≡ play_status fault }
{
    match fault {
        PlayFault::NoItem => NO_ITEM,
        PlayFault::WrongValues => 204,
        PlayFault::BadVariable => 206,
        PlayFault::OutOfRange => 207,
        PlayFault::Memory => MEMORY,
    }
}

/// The number of why a method is not played.
pub fn refusal_status(why: PlayRefusal) -> u32
    ensures { result ≡ refusal_status why }
{
    match why {
        PlayRefusal::Play(fault) => play_status(fault),
        PlayRefusal::Settings => NO_SETTINGS,
        PlayRefusal::Room => NO_ROOM,
    }
}

/// The number of why a method is not started.
pub fn start_status(fault: StartFault) -> u32
    ensures { result ≡ start_status fault }
{
    match fault {
        StartFault::NoItem => NO_ITEM,
        StartFault::WrongValues => 204,
    }
}

fn answer_status(fault: AnswerFault) -> u32
    ensures { result ≡ answer_status fault }
{
    match fault {
        AnswerFault::NotAsking => 205,
        AnswerFault::BadVariable => 206,
        AnswerFault::OutOfRange => 207,
    }
}

/// The number of why an answer to a session is not taken.
pub fn session_status(why: SessionRefusal) -> u32
    ensures { result ≡ session_status why }
{
    match why {
        SessionRefusal::Settings => NO_SETTINGS,
        SessionRefusal::NoSession => NO_SESSION,
        SessionRefusal::Refused(fault) => answer_status(fault),
    }
}
