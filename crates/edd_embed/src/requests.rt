//! Requests of a method as a program in C has them.

ghost use Rattle.std.specs.Prelude.{◌≡◌, length, map, take};
ghost use Rattle.edd_embed.specs.Playing.{bare, choices_wanted, first_text, plain_request, variable_wanted};
ghost use Rattle.edd_embed.specs.Records.{written_over};

use edd_instructions::{Request, RequestArgument, Wanted};

// What stands where a request has no string.
const NO_STRING: u16 = 65_535;

/// One request of a method. The tag says which it is, from 1 on: PUT_MESSAGE, ACKNOWLEDGE, DELAY,
/// GET_DEV_VAR_VALUE, SELECT_FROM_LIST, send_command, send_command_trans, save_values. A field that
/// the request doesn't have is 0, and 65,535 where it is the number of a string.
#[repr(C)]
#[derive(Clone, Copy, PartialEq, Eq, Debug)]
pub struct PlainRequest {
    /// The seconds of a delay, or the number of a command.
    pub first: i32,
    /// The number of a transaction.
    pub second: i32,
    pub text: u16,
    pub choices: u16,
    pub variable: u16,
    pub tag: u8,
}

pub(crate) fn bare(tag: u8) -> PlainRequest
    ensures { result ≡ bare tag }
{
    PlainRequest {
        first: 0,
        second: 0,
        text: NO_STRING,
        choices: NO_STRING,
        variable: 0,
        tag,
    }
}

// The number of the first text.
fn first_text(arguments: &[RequestArgument]) -> u16
    ensures { result ≡ first_text arguments.now }
{
    for argument in arguments {
        if let RequestArgument::Text(text) = argument {
            return text.0;
        }
    }
    NO_STRING
}

fn choices_wanted(wanted: Wanted) -> u16
    ensures { result ≡ choices_wanted wanted }
{
    match wanted {
        Wanted::Choice(choices) => choices.0,
        Wanted::Nothing | Wanted::Value(_) | Wanted::Code => NO_STRING,
    }
}

fn variable_wanted(wanted: Wanted) -> u16
    ensures { result ≡ variable_wanted wanted }
{
    match wanted {
        Wanted::Value(variable) => variable.0,
        Wanted::Nothing | Wanted::Choice(_) | Wanted::Code => 0,
    }
}

/// What a request is in C.
pub fn plain_request(request: Request) -> PlainRequest
    ensures { result ≡ plain_request request }
{
    let (first, second) = request.numbers();
    PlainRequest {
        first,
        second,
        text: first_text(request.arguments().as_slice()),
        choices: choices_wanted(request.wanted()),
        variable: variable_wanted(request.wanted()),
        tag: request.kind().number(),
    }
}

/// Writes the first requests at the front of the caller's room, as many as there is room for.
pub fn write_requests(requests: &[Request], room: &mut [PlainRequest])
    ensures { room.new
        ≡ written_over (take (length room.old) (map plain_request requests.now)) room.old }
{
    let count = room.len().min(requests.len());
    for index in 0..count {
        room[index] = plain_request(requests[index]);
    }
}
