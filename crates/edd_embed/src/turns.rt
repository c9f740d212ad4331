//! Where a session is, as a program in C has it, and why an answer is not taken.

ghost use Rattle.std.specs.Prelude.{◌≡◌};
ghost use Rattle.edd_embed.specs.Sessions.{last_name, plain_turn, request_from, status_from, trap_from, turn_number, turn_request, turn_trap};

use crate::playing::trap_number;
use crate::requests::{PlainRequest, bare, plain_request};
use edd_instructions::{Ask, Request, Status};
use edd_port::{AnswerFault, Turn};
use edd_syntax::answer::Trap;
use edd_syntax::operators::RequestKind;

/// Where a session is, by the numbers of endings: 0 it came to its end, 1 it was aborted, 2 it
/// trapped, 3 the request waits for its answer, 4 it goes on. `trap` is the number of the trap, or
/// 0, and the request has the tag 0 where none is pending.
#[repr(C)]
#[derive(Clone, Copy, PartialEq, Eq, Debug)]
pub struct PlainTurn {
    pub request: PlainRequest,
    pub trap: u16,
    pub turn: u8,
}

/// Why an answer is not taken.
#[derive(Clone, Copy, Debug, PartialEq, Eq)]
pub enum SessionRefusal {
    /// There are fewer settings than the answer says.
    Settings,
    /// The numbers are no session of the image under these values.
    NoSession,
    Refused(AnswerFault),
}

fn turn_number(turn: Turn) -> u8
    ensures { result ≡ turn_number turn }
{
    match turn {
        Turn::Ended => 0,
        Turn::Aborted => 1,
        Turn::Trapped(_) => 2,
        Turn::Asks(_) => 3,
        Turn::Spent => 4,
    }
}

fn turn_trap(turn: Turn) -> u16
    ensures { result ≡ turn_trap turn }
{
    match turn {
        Turn::Trapped(why) => trap_number(why),
        _ => 0,
    }
}

fn turn_request(turn: Turn) -> PlainRequest
    ensures { result ≡ turn_request turn }
{
    match turn {
        Turn::Asks(request) => plain_request(request),
        _ => bare(0),
    }
}

/// A turn in C.
pub fn plain_turn(turn: Turn) -> PlainTurn
    ensures { result ≡ plain_turn turn }
{
    PlainTurn {
        request: turn_request(turn),
        trap: turn_trap(turn),
        turn: turn_number(turn),
    }
}

/// The trap of a number, if it is that of a trap.
pub(crate) fn trap_from(number: u16) -> Option<Trap>
    ensures { result ≡ trap_from number }
{
    match number {
        210 => Some(Trap::DivZero),
        211 => Some(Trap::DivOverflow),
        212 => Some(Trap::BadShift),
        213 => Some(Trap::NoElement),
        _ => None,
    }
}

// The last that a request names: its choices, if it has some, or its variable.
fn last_name(kind: RequestKind, request: PlainRequest) -> u16
    ensures { result ≡ last_name kind request }
{
    match kind {
        RequestKind::SelectFromList => request.choices,
        _ => request.variable,
    }
}

/// The request that is this one in C, if its tag is that of a request.
pub(crate) fn request_from(request: PlainRequest) -> Option<Request>
    ensures { result ≡ request_from request }
{
    let kind = RequestKind::from_number(request.tag)?;
    let ask = Ask {
        kind,
        first: request.text,
        second: last_name(kind, request),
    };
    Some(ask.request(request.first, request.second))
}

/// The status that shows as this turn, if its numbers are known.
pub(crate) fn status_from(turn: PlainTurn) -> Option<Status>
    ensures { result ≡ status_from turn }
{
    match turn.turn {
        0 => Some(Status::Ended),
        1 => Some(Status::Aborted),
        2 => {
            let why = trap_from(turn.trap)?;
            Some(Status::Trapped(why))
        }
        3 => {
            let request = request_from(turn.request)?;
            Some(Status::Asking(request))
        }
        4 => Some(Status::Running),
        _ => None,
    }
}
