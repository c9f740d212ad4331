//! A run of a method, which stops wherever its caller wants.

ghost use Rattle.std.specs.Prelude.{◌≡◌, ◌≤◌, ◌+◌, IfErr, IfOk, OnErr, OnOk, option_map};
ghost use Rattle.std.specs.Result.{result_err};
ghost use Rattle.edd_syntax.specs.Answers.{answer_of};
ghost use Rattle.edd_syntax.specs.DeviceValues.{AreDeviceValues};
ghost use Rattle.edd_instructions.specs.declared.records.Status.TheVariants.{Running};
ghost use Rattle.edd_instructions.specs.AbortMethods.{answered_in};
ghost use Rattle.edd_image.specs.Contents.{contents_in};
ghost use Rattle.edd_machine.specs.Types.{types_in};
ghost use Rattle.edd_port.specs.Faults.{IsStartFault, answer_fault_of};
ghost use Rattle.edd_port.specs.Refusals.{CodeFits, refusal};
ghost use Rattle.edd_port.specs.Runs.{IsRun, OpensIn, advanced, counted};
ghost use Rattle.edd_port.specs.Turns.{ending_of, turn_of};

use crate::answers::{fault_of_answer, make_sets};
use crate::fault::{AnswerFault, StartFault};
use crate::steps::{execute, go_on};
use crate::turn::{Turn, turn_of};
use edd_loader::Image;
use edd_machine::{Machine, Values, find_body};
use edd_syntax::answer::Answer;
use edd_syntax::numbers::MethNo;
use std::marker::Model;

/// A run of a method of an image, at any point of it. Contracts see it as a `Run`.
#[derive(Drop)]
pub struct Session<'i, 'b> {
    pub(crate) image: &'i Image<'b>,
    pub(crate) machine: Machine,
    pub(crate) values: Values,
    // How many instructions were executed so far.
    pub(crate) taken: u64,
}

impl<'i, 'b> Model for Session<'i, 'b> {
    ghost use Rattle.edd_port.specs.Runs.{Run};

    ghost Value = { Run };

    ghost use Rattle.std.specs.Prelude.{◌≡◌};
    ghost use Rattle.edd_instructions.specs.declared.unit.Sort.TheVariants.{Method};
    ghost use Rattle.edd_instructions.specs.Validity.{IsValid};
    ghost use Rattle.edd_machine.specs.Running.{state_of, IsMachine};

    ghost view = { λ s. record {
      image = s.image.now;
      state = state_of s.image.now s.machine s.values.numbers.items;
      taken = s.taken;
    } };

    ghost invariant = { λ s. IsValid s.image.now
        × IsMachine s.image.now s.machine s.values.numbers.items
        × (s.machine.unit.sort ≡ Method) };
}

impl<'i, 'b> Session<'i, 'b> {
    /// The run of a method at its start, under these values. After a refusal they are handed back.
    ///
    /// The fault is `NoItem` where there is no such method or it has no body, else `WrongValues`
    /// where the values are not those of a device of this description. It takes no memory.
    pub fn start(
        image: &'i Image<'b>,
        method: MethNo,
        values: Values,
    ) -> Result<Session<'i, 'b>, (StartFault, Values)>
        ensures image { IfOk result (λ session. session.image ≡ image.now) }
        ensures opens { IfOk result (λ session. OpensIn image.now method values.numbers.items
            session.state) }
        ensures taken { IfOk result (λ session. session.taken ≡ 0) }
        ensures accepted { OnOk result (AreDeviceValues (types_in image.now) values.numbers.items) }
        ensures refused { IfErr result
            (λ refused. IsStartFault image.now method values.numbers.items refused.0) }
        ensures kept { IfErr result (λ refused. refused.1 ≡ values) }
    {
        let Some(unit) = find_body(image, method) else {
            return Err((StartFault::NoItem, values));
        };
        if !values.are_of(image) {
            return Err((StartFault::WrongValues, values));
        }
        Ok(Session {
            image,
            machine: Machine::open(unit),
            values,
            taken: 0,
        })
    }

    // Executes at most `budget` instructions while the method runs, and answers how many it were.
    pub(crate) fn execute(&mut self, budget: u32) -> u32
        ensures image { self.new.image ≡ self.old.image }
        ensures state { self.new.state ≡ (advanced self.old budget).state }
        ensures taken { self.new.taken ≡ counted (self.old.taken + result) }
        ensures count { result ≡ (advanced self.old budget).steps }
        ensures ending { (advanced self.old budget).ending
            ≡ ending_of (turn_of self.new.state.status) }
        ensures all { self.new.state.status ≡ Running → result ≡ budget }
        ensures moves { self.old.state.status ≡ Running → 1 ≤ budget → 1 ≤ result }
    {
        let values = self.values.numbers.as_mut_slice();
        let count = execute(self.image, &mut self.machine, values, budget);
        self.taken = self.taken.saturating_add(u64::from(count));
        count
    }

    /// Executes instructions until the method asks, is over, or `budget` of them were executed. A
    /// session that asks or is over executes none. It takes no memory.
    pub fn advance(&mut self, budget: u32) -> Turn
        ensures image { self.new.image ≡ self.old.image }
        ensures state { self.new.state ≡ (advanced self.old budget).state }
        ensures taken { self.new.taken
            ≡ counted (self.old.taken + (advanced self.old budget).steps) }
        ensures turn { result ≡ turn_of self.new.state.status }
        ensures ending { (advanced self.old budget).ending ≡ ending_of result }
        ensures spent { result ≡ Turn.Spent → (advanced self.old budget).steps ≡ budget }
    {
        self.execute(budget);
        self.turn()
    }

    /// Goes on after the pending request: the variables are set, and the code is the request's
    /// value. An abort goes on with the abort methods, or ends the method.
    ///
    /// The fault is `NotAsking` where no request is pending, else that of the first set that can't
    /// be made; then the session is as it was. It takes no memory.
    pub fn answer(&mut self, answer: &Answer) -> Result<(), AnswerFault>
        ensures image { self.new.image ≡ self.old.image }
        ensures taken { self.new.taken ≡ self.old.taken }
        ensures sound { OnOk result
            (self.new.state ≡ (answered_in (contents_in self.old.image) self.old.state
            (answer_of answer.now)).state) }
        ensures fits { OnOk result (CodeFits (answer_of answer.now)) }
        ensures refused { option_map answer_fault_of (result_err result)
            ≡ refusal (types_in self.old.image) self.old.state.status (answer_of answer.now) }
        ensures kept { OnErr result (self.new ≡ self.old) }
    {
        if let Some(fault) = fault_of_answer(self.image, self.machine.status, answer) {
            return Err(fault);
        }
        let code = make_sets(self.values.numbers.as_mut_slice(), answer);
        go_on(self.image, &mut self.machine, code);
        Ok(())
    }

    /// The values of the device, as the method has left them.
    pub fn values(&self) -> &Values
        ensures { result.now.numbers.items ≡ self.now.state.values }
    {
        &self.values
    }

    /// Where the session is: `Spent` while the method runs.
    pub fn turn(&self) -> Turn
        ensures turn { result ≡ turn_of self.now.state.status }
        ensures run { IsRun self.now.image self.now.state }
    {
        turn_of(self.machine.status)
    }

    /// How many instructions were executed so far. The count stays at its greatest value.
    pub fn taken(&self) -> u64
        ensures { result ≡ self.now.taken }
    {
        self.taken
    }

    /// The values of the device, without the session.
    pub(crate) fn into_values(self) -> Values
        ensures { result.numbers.items ≡ self.entry.state.values }
    {
        self.values
    }
}
