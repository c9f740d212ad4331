//! A method that is run from its start with a device, which answers its requests.

ghost use Rattle.std.specs.Prelude.{◌≡◌, ◌≢◌, ◌<◌, ◌≤◌, ◌+◌, ◌^◌, [], ◌∷◌, List, Some, None, map, IfErr, IfOk, OnOk, true, false};
ghost use Rattle.edd_syntax.specs.Answers as answers;
ghost use Rattle.edd_syntax.specs.Answers.{answer_fault, answer_of};
ghost use Rattle.edd_syntax.specs.DeviceValues.{AreDeviceValues};
ghost use Rattle.edd_instructions.specs.declared.records.Status.TheVariants.{Asking, Running};
ghost use Rattle.edd_machine.specs.Types.{types_in};
ghost use Rattle.edd_port.specs.Drives.{Executes, Takes};
ghost use Rattle.edd_port.specs.Faults.{answer_fault_of, play_fault_of_start, play_refusal};
ghost use Rattle.edd_port.specs.Plays.{IsPlayFault};
ghost use Rattle.edd_device.specs.Attending.{others_of, script_of};
ghost use Rattle.edd_device.specs.Trials.{IsAnswered, IsRefused, IsTrial, LeadsTo, Refuses, first_fault};

use crate::device::Device;
use crate::fault::DeviceFault;
use edd_instructions::Request;
use edd_machine::Values;
use edd_port::{AnswerFault, Ending, PlayFault, Session, StartFault, Transcript, Turn};
use edd_syntax::answer::Answer;
use edd_syntax::numbers::MethNo;
use std::alloc::Global;

/// What a method did with a device.
#[derive(Drop)]
pub struct Trial {
    pub transcript: Transcript,
    /// Why the device had no answer, the first time that it had none. There the method was aborted.
    pub fault: Option<DeviceFault>,
}

// What a user answers, from a script in its order, and the first fault of the device.
#[derive(Drop)]
struct Attendance<'a> {
    script: &'a [Answer],
    next: usize,
    fault: Option<DeviceFault>,
}

// The fault of a play with an answer that is refused where a request is pending.
fn fault_of_refused(fault: AnswerFault) -> PlayFault
    requires { fault ≢ AnswerFault.NotAsking }
    ensures { play_refusal result ≡ Some (answer_fault_of fault) }
{
    match fault {
        AnswerFault::NotAsking => unreachable!(),
        AnswerFault::BadVariable => PlayFault::BadVariable,
        AnswerFault::OutOfRange => PlayFault::OutOfRange,
    }
}

// The fault of a play whose method is not started.
fn fault_of_start(fault: StartFault) -> PlayFault
    ensures { result ≡ play_fault_of_start fault }
{
    match fault {
        StartFault::NoItem => PlayFault::NoItem,
        StartFault::WrongValues => PlayFault::WrongValues,
    }
}

impl Attendance<'_> {
    // The first fault is kept.
    fn note(&mut self, fault: DeviceFault)
        ensures script { script_of self.new ≡ script_of self.old }
        ensures fault { self.new.fault ≡ first_fault self.old.fault fault }
    {
        match self.fault {
            Some(_) => {}
            None => self.fault = Some(fault),
        }
    }

    // The next answer of the script meets the pending request, if there is one.
    fn meet(&mut self, session: &mut Session<'_, '_>, request: Request) -> Result<bool, PlayFault>
        requires { session.old.state.status ≡ Asking request }
        ensures image { session.new.image ≡ session.old.image }
        ensures fault { self.new.fault ≡ self.old.fault }
        ensures taken { IfOk result (λ met. met ≡ true → (answer : answers.Answer)
            × (script_of self.old ≡ answer ∷ script_of self.new)
            × Takes session.old (record { request = request; answer = answer }) session.new) }
        ensures kept { IfOk result (λ met. met ≡ false → (session.new ≡ session.old)
            × (script_of self.new ≡ script_of self.old)) }
        ensures refused { IfErr result (Refuses session.old) }
    {
        if self.next >= self.script.len() {
            return Ok(false);
        }
        let answer = &self.script[self.next];
        match session.answer(answer) {
            Ok(()) => {
                self.next += 1;
                Ok(true)
            }
            Err(fault) => Err(fault_of_refused(fault)),
        }
    }
}

// A valid answer meets the pending request.
fn give(session: &mut Session<'_, '_>, request: Request, answer: &Answer)
    requires asks { session.old.state.status ≡ Asking request }
    requires valid { answer_fault (types_in session.old.image) (answer_of answer.now) ≡ None }
    ensures image { session.new.image ≡ session.old.image }
    ensures taken { Takes session.old
        (record { request = request; answer = answer_of answer.now }) session.new }
{
    match session.answer(answer) {
        Ok(()) => {}
        Err(_) => unreachable!(),
    }
}

// Executes some of the instructions that are left, and answers how many are left then.
fn execute_some(session: &mut Session<'_, '_>, left: u32) -> u32
    requires runs { session.old.state.status ≡ Running }
    requires some { 1 ≤ left }
    requires small { session.old.taken + left < 2 ^ 64 }
    ensures { Executes left session.old result session.new }
{
    let before = session.taken();
    session.advance(left);
    let count = session.taken() - before;
    left - count as u32
}

impl Device<'_, '_> {
    // The answer to the pending request: the device's, else the next of the script. Where the
    // device has a fault, the method is aborted.
    fn meet(
        &mut self,
        alloc: Global,
        session: &mut Session<'_, '_>,
        request: Request,
        user: &mut Attendance<'_>,
    ) -> Result<bool, PlayFault>
        requires asks { session.old.state.status ≡ Asking request }
        requires image { session.old.image ≡ self.old.instrument }
        requires values { AreDeviceValues (types_in self.old.instrument) session.old.state.values }
        ensures instrument { self.new.instrument ≡ self.old.instrument }
        ensures image { session.new.image ≡ session.old.image }
        ensures taken { IfOk result (λ met. met ≡ true → (answer : answers.Answer)
            × Takes session.old (record { request = request; answer = answer }) session.new
            × IsAnswered (others_of self.old user.old) session.old.state.values request answer
            (others_of self.new user.new)) }
        ensures kept { IfOk result (λ met. met ≡ false → (session.new ≡ session.old)
            × (others_of self.new user.new ≡ others_of self.old user.old)) }
        ensures refused { IfErr result (Refuses session.old) }
    {
        match self.reply(alloc, &request, session.values()) {
            Ok(Some(answer)) => {
                give(session, request, &answer);
                Ok(true)
            }
            Ok(None) => user.meet(session, request),
            Err(DeviceFault::Memory) => Err(PlayFault::Memory),
            Err(fault) => {
                user.note(fault);
                give(session, request, &Answer::Abort);
                Ok(true)
            }
        }
    }

    // Runs the session on, and notes its requests.
    fn play_on(
        &mut self,
        alloc: Global,
        session: &mut Session<'_, '_>,
        requests: &mut Vec<Request>,
        user: &mut Attendance<'_>,
        steps: u32,
    ) -> Result<Ending, PlayFault>
        requires none { requests.old.items ≡ [] }
        requires image { session.old.image ≡ self.old.instrument }
        requires starts { session.old.taken ≡ 0 }
        ensures sound { IfOk result (LeadsTo session.old steps (others_of self.old user.old)
            session.new (others_of self.new user.new) requests.new.items) }
        ensures instrument { self.new.instrument ≡ self.old.instrument }
        ensures refused { IfErr result (IsRefused session.old steps) }
    {
        let mut left = steps;
        loop {
            match session.turn() {
                Turn::Asks(request) => {
                    requests.push(request)?;
                    let is_met = self.meet(alloc, session, request, user)?;
                    if !is_met {
                        return Ok(Ending::Waiting);
                    }
                }
                Turn::Spent => {
                    if left == 0 {
                        return Ok(Ending::Spent);
                    }
                    left = execute_some(session, left);
                }
                Turn::Ended => return Ok(Ending::Ended),
                Turn::Aborted => return Ok(Ending::Aborted),
                Turn::Trapped(why) => return Ok(Ending::Trapped(why)),
            }
        }
    }

    /// Runs a method of the instrument from its start for at most so many instructions. The device
    /// answers its requests, and a script, in its order, those that ask the user. It is a run of
    /// the image under the answers that were given.
    ///
    /// Where the device has a fault, the method is aborted, and the first fault is kept. The faults
    /// of a play are `NoItem` and `WrongValues` where the method is not started, that of the first
    /// answer of the script that can't be taken, and `Memory`.
    pub fn play(
        &mut self,
        alloc: Global,
        method: MethNo,
        values: Values,
        script: &[Answer],
        steps: u32,
    ) -> Result<Trial, PlayFault>
        ensures instrument { self.new.instrument ≡ self.old.instrument }
        ensures sound { IfOk result (λ trial. (rest : List answers.Answer)
            × IsTrial self.old.instrument method values.numbers.items steps
            (record { device = self.old; script = map answer_of script.now; fault = None })
            (record { device = self.new; script = rest; fault = trial.fault })
            trial.transcript) }
        ensures accepted { OnOk result (AreDeviceValues (types_in self.old.instrument)
            values.numbers.items) }
        ensures refused { IfErr result (λ fault. (given : List answers.Answer)
            × IsPlayFault self.old.instrument method values.numbers.items steps given fault) }
    {
        let mut session = match Session::start(self.instrument(), method, values) {
            Ok(session) => session,
            Err((fault, _)) => return Err(fault_of_start(fault)),
        };
        let mut requests = Vec::new(alloc);
        let mut user = Attendance {
            script,
            next: 0,
            fault: None,
        };
        let ending = self.play_on(alloc, &mut session, &mut requests, &mut user, steps)?;
        let numbers = Vec::from_slice(alloc, session.values().numbers.as_slice())?;
        let transcript = Transcript {
            requests,
            values: Values { numbers },
            ending,
        };
        Ok(Trial {
            transcript,
            fault: user.fault,
        })
    }
}
