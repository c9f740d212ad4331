//! Where a session is, and where a drive ends.

ghost use Rattle.std.specs.Prelude.{◌≡◌};
ghost use Rattle.edd_port.specs.Turns.{turn_of};

use crate::fault::AnswerFault;
use edd_instructions::{Request, Status};
use edd_syntax::answer::Trap;

/// Where a session is: it asks, it is over, or it would go on.
#[derive(Clone, Copy, Debug, PartialEq, Eq)]
pub enum Turn {
    /// The request is pending, and waits for its answer.
    Asks(Request),
    Ended,
    Aborted,
    Trapped(Trap),
    /// The method runs, and no instructions are left that it may execute.
    Spent,
}

/// Where a drive ends.
#[derive(Clone, Copy, Debug, PartialEq, Eq)]
pub enum Drive {
    /// The method is over, or as many instructions were executed as may be.
    Done(Turn),
    /// The host had nothing for the pending request.
    Waiting,
    /// The host's last answer was not taken, and the request is still pending.
    Refused(AnswerFault),
    /// The host failed, and the request is still pending.
    HostFailed,
}

/// The turn of a state.
pub fn turn_of(status: Status) -> Turn
    ensures { result ≡ turn_of status }
{
    match status {
        Status::Running => Turn::Spent,
        Status::Asking(request) => Turn::Asks(request),
        Status::Ended => Turn::Ended,
        Status::Aborted => Turn::Aborted,
        Status::Trapped(why) => Turn::Trapped(why),
    }
}
