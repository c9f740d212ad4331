//! The calls, with what the laws ask of them: each function makes one call, and its contract is the
//! premise of a law, so that the laws hold of what the calls do.

ghost use Rattle.std.specs.Prelude.{IfOk, OnOk, map};
ghost use Rattle.edd_instructions.specs.declared.requests.Request.{Request};
ghost use Rattle.edd_port.specs.Drives.{AreMet, Takes, accepted, added, driven};
ghost use Rattle.edd_promise.specs.Plays.{PlayShows};
ghost use Rattle.edd_promise.specs.Sessions.{Advances, Drives, requests_of};
ghost use Rattle.edd_syntax.specs.Answers.{answer_of};

use edd_loader::Image;
use edd_machine::Values;
use edd_port::{AnswerFault, Drive, Host, PlayFault, Session, Transcript, Turn};
use edd_syntax::answer::Answer;
use edd_syntax::numbers::MethNo;
use std::alloc::Global;

/// `Session::advance`, as one of the calls that make a session what it is.
pub fn advance(session: &mut Session<'_, '_>, budget: u32) -> Turn
    ensures { Advances session.old budget session.new }
{
    session.advance(budget)
}

/// `Session::answer`, as one of these calls where it takes the answer.
pub fn answer(session: &mut Session<'_, '_>, answer: &Answer) -> Result<(), AnswerFault>
    ensures { OnOk result ((r : Request) × Takes session.old
        (record { request = r; answer = answer_of answer.now }) session.new) }
{
    session.answer(answer)
}

/// `drive`, as one of these calls, and the requests that were put to the host.
pub fn drive<H: Host>(session: &mut Session<'_, '_>, host: &mut H, steps: u64) -> Drive
    ensures drives { Drives session.old steps
        (accepted result (added (H.book host.old) (H.book host.new))) session.new }
    ensures met { AreMet session.old.state (driven session.old steps
        (accepted result (added (H.book host.old) (H.book host.new))))
        (requests_of (accepted result (added (H.book host.old) (H.book host.new)))) }
{
    edd_port::drive(session, host, steps)
}

/// `play`, with what its transcript shows.
pub fn play(
    alloc: Global,
    image: &Image<'_>,
    method: MethNo,
    values: Values,
    answers: &[Answer],
    steps: u64,
) -> Result<Transcript, PlayFault>
    ensures { IfOk result (λ t. PlayShows image.now method values.numbers.items steps
        (map answer_of answers.now) (record {
          requests = t.requests.items;
          values = t.values.numbers.items;
          ending = t.ending;
        })) }
{
    edd_port::play(alloc, image, method, values, answers, steps)
}
