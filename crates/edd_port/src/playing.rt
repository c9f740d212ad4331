//! A method that is run from its start under a list of answers.

ghost use Rattle.std.specs.Prelude.{◌≡◌, ◌++◌, [], IfErr, IfOk, OnOk, Some, map, option_map};
ghost use Rattle.edd_syntax.specs.Answers.{answer_of};
ghost use Rattle.edd_syntax.specs.DeviceValues.{AreDeviceValues};
ghost use Rattle.edd_machine.specs.Types.{types_in};
ghost use Rattle.edd_port.specs.Drives.{standing};
ghost use Rattle.edd_port.specs.Plays.{IsFaultOf, IsPlayFault, ending_shown, played, under};

use crate::driving::execute_some;
use crate::fault::{PlayFault, fault_of_refused, fault_of_start};
use crate::session::Session;
use crate::turn::Turn;
use edd_instructions::Request;
use edd_loader::Image;
use edd_machine::Values;
use edd_syntax::answer::{Answer, Trap};
use edd_syntax::numbers::MethNo;
use std::alloc::Global;

/// How a play ends.
#[derive(Clone, Copy, Debug, PartialEq, Eq)]
pub enum Ending {
    Ended,
    Aborted,
    Trapped(Trap),
    /// The last request has no answer.
    Waiting,
    /// All steps were taken, and the method goes on.
    Spent,
}

/// What a method did.
#[derive(Drop)]
pub struct Transcript {
    /// The requests in order. One that no answer met is the last.
    pub requests: Vec<Request>,
    /// The values of the device, as the method has left them.
    pub values: Values,
    pub ending: Ending,
}

// Runs the session on under the answers, and notes its requests.
fn play_on(
    session: &mut Session<'_, '_>,
    requests: &mut Vec<Request>,
    answers: &[Answer],
    steps: u64,
) -> Result<Ending, PlayFault>
    requires { requests.old.items ≡ [] }
    ensures requests { OnOk result (standing session.old.state.status
        ++ (under session.old steps (map answer_of answers.now)).requests ≡ requests.new.items) }
    ensures state { OnOk result
        (session.new.state ≡ (under session.old steps (map answer_of answers.now)).state) }
    ensures ending { IfOk result
        (λ ending. (under session.old steps (map answer_of answers.now)).ending
        ≡ ending_shown ending) }
    ensures fault { IfErr result
        (λ fault. IsFaultOf fault (under session.old steps (map answer_of answers.now)).ending) }
{
    let mut left = steps;
    let mut next = 0;
    loop {
        match session.turn() {
            Turn::Asks(request) => {
                requests.push(request)?;
                if next == answers.len() {
                    return Ok(Ending::Waiting);
                }
                if let Err(fault) = session.answer(&answers[next]) {
                    return Err(fault_of_refused(fault));
                }
                next += 1;
            }
            Turn::Spent => {
                if left == 0 {
                    return Ok(Ending::Spent);
                }
                left = execute_some(session, left);
            }
            Turn::Ended => return Ok(Ending::Ended),
            Turn::Aborted => return Ok(Ending::Aborted),
            Turn::Trapped(why) => return Ok(Ending::Trapped(why)),
        }
    }
}

/// Runs a method from its start for at most so many instructions, and meets its requests by the
/// answers, one after the other. Answers that are left over are ignored.
///
/// The fault is `NoItem` or `WrongValues` as where a session is started, else that of the first
/// answer that can't be taken, and
/// `Memory` where memory for the requests is refused.
pub fn play(
    alloc: Global,
    image: &Image<'_>,
    method: MethNo,
    values: Values,
    answers: &[Answer],
    steps: u64,
) -> Result<Transcript, PlayFault>
    ensures requests { IfOk result
        (λ t. option_map (λ o. o.requests) (played image.now method values.numbers.items steps
        (map answer_of answers.now))
        ≡ Some t.requests.items) }
    ensures values { IfOk result
        (λ t. option_map (λ o. o.state.values) (played image.now method values.numbers.items steps
        (map answer_of answers.now))
        ≡ Some t.values.numbers.items) }
    ensures ending { IfOk result
        (λ t. option_map (λ o. o.ending) (played image.now method values.numbers.items steps
        (map answer_of answers.now))
        ≡ Some (ending_shown t.ending)) }
    ensures accepted { OnOk result (AreDeviceValues (types_in image.now) values.numbers.items) }
    ensures refused { IfErr result (IsPlayFault image.now method values.numbers.items steps
        (map answer_of answers.now)) }
{
    let mut session = match Session::start(image, method, values) {
        Ok(session) => session,
        Err((fault, _)) => return Err(fault_of_start(fault)),
    };
    let mut requests = Vec::new(alloc);
    let ending = play_on(&mut session, &mut requests, answers, steps)?;
    Ok(Transcript {
        requests,
        values: session.into_values(),
        ending,
    })
}
