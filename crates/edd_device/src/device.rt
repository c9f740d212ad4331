//! A simulated device, and what it does with the requests of a method.

ghost use Rattle.std.specs.Prelude.{◌≡◌, ◌≢◌, List, IfErr, IfOk, IfSome, None, Ok, Err, OnErr, option_map};
ghost use Rattle.edd_syntax.specs.Answers.{IsValidAnswer, answer_of};
ghost use Rattle.edd_syntax.specs.DeviceValues.{AreDeviceValues, VariableType};
ghost use Rattle.edd_machine.specs.Types.{types_in};
ghost use Rattle.edd_device.specs.Devices.{HasValidAnswer, IsReply, IsSent, answered, delayed, done_answer, method_for, sent, started};
ghost use Rattle.edd_device.specs.Starts.{IsStart};
ghost use Rattle.edd_device.specs.Taken.{message_of, now_of, step_of};

use crate::copying::{clear_code, code_of, reply_sets, take_request};
use crate::fault::DeviceFault;
use crate::messages::{Message, find_message};
use crate::methods::{Underway, run_if_any, wait};
use crate::names::{command_method, method_named};
use crate::starting::start_values;
use edd_instructions::{Record, Request};
use edd_loader::Image;
use edd_machine::Values;
use edd_syntax::answer::Answer;
use edd_syntax::numbers::MethNo;
use std::alloc::{AllocError, Global};
use std::marker::Model;

/// How many instructions a device may execute for one request.
const MOST_STEPS: u32 = 1_000_000;

/// The device's values after a request, and its answer, if the request is for the device.
#[derive(Drop)]
pub struct Step {
    pub numbers: Vec<i64>,
    pub answer: Option<Answer>,
}

/// A device of an instrument, which a description of its own simulates. Contracts see it as a
/// `Simulated`.
#[derive(Drop)]
pub struct Device<'i, 'b> {
    instrument: &'i Image<'b>,
    image: &'i Image<'b>,
    numbers: Vec<i64>,
}

impl<'i, 'b> Model for Device<'i, 'b> {
    ghost use Rattle.edd_device.specs.Devices.{Simulated};

    ghost Value = { Simulated };

    ghost use Rattle.edd_syntax.specs.DeviceValues.{AreDeviceValues};
    ghost use Rattle.edd_machine.specs.Types.{types_in};

    ghost view = { λ d. record {
      instrument = d.instrument.now;
      image = d.image.now;
      values = d.numbers.items;
    } };

    ghost invariant = { λ d. AreDeviceValues (types_in d.image.now) d.numbers.items };
}

impl<'i, 'b> Device<'i, 'b> {
    /// A device as it starts: each variable has its default, or 0.
    pub fn new(
        alloc: Global,
        instrument: &'i Image<'b>,
        image: &'i Image<'b>,
    ) -> Result<Device<'i, 'b>, AllocError>
        ensures instrument { IfOk result (λ device. device.instrument ≡ instrument.now) }
        ensures image { IfOk result (λ device. device.image ≡ image.now) }
        ensures starts { IfOk result (λ device. IsStart image.now device.values) }
    {
        let numbers = start_values(alloc, image)?;
        Ok(Device {
            instrument,
            image,
            numbers,
        })
    }

    /// The image of the instrument whose device it is.
    pub fn instrument(&self) -> &'i Image<'b>
        ensures { result.now ≡ self.now.instrument }
    {
        self.instrument
    }

    /// The image of its own description.
    pub fn image(&self) -> &'i Image<'b>
        ensures { result.now ≡ self.now.image }
    {
        self.image
    }

    /// The values of its variables, by their numbers.
    pub fn numbers(&self) -> &[i64]
        ensures { result.now ≡ self.now.values }
    {
        self.numbers.as_slice()
    }

    // The device takes the values of a request.
    fn start(
        &self,
        alloc: Global,
        values: &Values,
        request: &[Record],
    ) -> Result<Underway, DeviceFault>
        ensures sound { IfOk result (λ now. started self.now values.now.numbers.items request.now
            ≡ Ok (now_of now)) }
        ensures refused { IfErr result (λ fault. fault ≢ DeviceFault.Memory
            → started self.now values.now.numbers.items request.now ≡ Err fault) }
        ensures values { IfOk result (λ now. AreDeviceValues (types_in self.now.image)
            now.numbers.items) }
    {
        let mut numbers = Vec::from_slice(alloc, self.numbers.as_slice())?;
        take_request(
            self.instrument,
            self.image,
            values,
            request,
            numbers.as_mut_slice(),
        )?;
        clear_code(self.image, numbers.as_mut_slice());
        Ok(Underway {
            numbers,
            left: MOST_STEPS,
        })
    }

    // The answer is made of what the device has after its method.
    fn finish(&self, alloc: Global, reply: &[Record], now: Underway) -> Result<Step, DeviceFault>
        ensures sound { IfOk result (λ step. answered self.now reply.now (now_of now)
            ≡ Ok (step_of step)) }
        ensures refused { IfErr result (λ fault. fault ≢ DeviceFault.Memory
            → answered self.now reply.now (now_of now) ≡ Err fault) }
        ensures values { IfOk result (λ step. step.numbers.items ≡ now.numbers.items) }
        ensures valid { IfOk result (λ step. HasValidAnswer self.now.instrument (step_of step)) }
        ensures quiet { IfOk result (λ step. step.answer ≡ None
            → step.numbers.items ≡ self.now.values) }
    {
        let numbers = now.numbers;
        let code = code_of(self.image, numbers.as_slice())?;
        let sets = reply_sets(
            alloc,
            self.instrument,
            self.image,
            reply,
            numbers.as_slice(),
        )?;
        Ok(Step {
            numbers,
            answer: Some(Answer::Go { code, sets }),
        })
    }

    // What comes of a transaction with what it carries, and with the device's method for it.
    fn transact(
        &self,
        alloc: Global,
        values: &Values,
        method: Option<MethNo>,
        message: &Message,
    ) -> Result<Step, DeviceFault>
        ensures sound { IfOk result (λ step. sent self.now values.now.numbers.items method
            (message_of message.now)
            ≡ Ok (step_of step)) }
        ensures refused { IfErr result (λ fault. fault ≢ DeviceFault.Memory
            → sent self.now values.now.numbers.items method (message_of message.now)
            ≡ Err fault) }
        ensures values { IfOk result (λ step. AreDeviceValues (types_in self.now.image)
            step.numbers.items) }
        ensures valid { IfOk result (λ step. HasValidAnswer self.now.instrument (step_of step)) }
        ensures quiet { IfOk result (λ step. step.answer ≡ None
            → step.numbers.items ≡ self.now.values) }
    {
        let now = self.start(alloc, values, message.request.as_slice())?;
        let next = run_if_any(alloc, self.image, method, now)?;
        self.finish(alloc, message.reply.as_slice(), next)
    }

    // The device's method for a transaction.
    fn method_for(
        &self,
        alloc: Global,
        number: i32,
        transaction: i32,
    ) -> Result<Option<MethNo>, AllocError>
        ensures { IfOk result (λ method. method ≡ method_for self.now number transaction) }
    {
        let name = command_method(alloc, number, transaction)?;
        Ok(method_named(self.image, name.as_str()))
    }

    // What comes of a transaction that is sent.
    fn send(
        &self,
        alloc: Global,
        values: &Values,
        number: i32,
        transaction: i32,
    ) -> Result<Step, DeviceFault>
        requires { AreDeviceValues (types_in self.now.instrument) values.now.numbers.items }
        ensures sound { IfOk result (λ step. IsSent self.now values.now.numbers.items number
            transaction (Ok (step_of step))) }
        ensures refused { IfErr result (λ fault. fault ≢ DeviceFault.Memory
            → IsSent self.now values.now.numbers.items number transaction (Err fault)) }
        ensures values { IfOk result (λ step. AreDeviceValues (types_in self.now.image)
            step.numbers.items) }
        ensures valid { IfOk result (λ step. HasValidAnswer self.now.instrument (step_of step)) }
        ensures quiet { IfOk result (λ step. step.answer ≡ None
            → step.numbers.items ≡ self.now.values) }
    {
        let method = self.method_for(alloc, number, transaction)?;
        let message = find_message(
            alloc,
            self.instrument,
            values,
            number,
            transaction,
            method.is_some(),
        )?;
        self.transact(alloc, values, method, &message)
    }

    // The values as they are, with this answer.
    fn stay(&self, alloc: Global, answer: Option<Answer>) -> Result<Step, AllocError>
        requires { IfSome (option_map answer_of answer)
            (IsValidAnswer (types_in self.now.instrument)) }
        ensures sound { IfOk result (λ step. step_of step
            ≡ record { values = self.now.values; answer = option_map answer_of answer }) }
        ensures values { IfOk result (λ step. AreDeviceValues (types_in self.now.image)
            step.numbers.items) }
        ensures valid { IfOk result (λ step. HasValidAnswer self.now.instrument (step_of step)) }
        ensures kept { IfOk result (λ step. step.numbers.items ≡ self.now.values) }
    {
        let numbers = Vec::from_slice(alloc, self.numbers.as_slice())?;
        Ok(Step { numbers, answer })
    }

    // What comes of so many seconds.
    fn delay(&self, alloc: Global, seconds: i32) -> Result<Step, DeviceFault>
        ensures sound { IfOk result (λ step. delayed self.now seconds ≡ Ok (step_of step)) }
        ensures refused { IfErr result (λ fault. fault ≢ DeviceFault.Memory
            → delayed self.now seconds ≡ Err fault) }
        ensures values { IfOk result (λ step. AreDeviceValues (types_in self.now.image)
            step.numbers.items) }
        ensures valid { IfOk result (λ step. HasValidAnswer self.now.instrument (step_of step)) }
        ensures quiet { IfOk result (λ step. step.answer ≡ None
            → step.numbers.items ≡ self.now.values) }
    {
        let now = Underway {
            numbers: Vec::from_slice(alloc, self.numbers.as_slice())?,
            left: MOST_STEPS,
        };
        let next = wait(alloc, self.image, seconds, now)?;
        Ok(Step {
            numbers: next.numbers,
            answer: Some(done(alloc)),
        })
    }

    // What comes of a request.
    fn step(&self, alloc: Global, request: &Request, values: &Values) -> Result<Step, DeviceFault>
        requires { AreDeviceValues (types_in self.now.instrument) values.now.numbers.items }
        ensures sound { IfOk result (λ step. IsReply self.now values.now.numbers.items request.now
            (Ok (step_of step))) }
        ensures refused { IfErr result (λ fault. fault ≢ DeviceFault.Memory
            → IsReply self.now values.now.numbers.items request.now (Err fault)) }
        ensures values { IfOk result (λ step. AreDeviceValues (types_in self.now.image)
            step.numbers.items) }
        ensures valid { IfOk result (λ step. HasValidAnswer self.now.instrument (step_of step)) }
        ensures quiet { IfOk result (λ step. step.answer ≡ None
            → step.numbers.items ≡ self.now.values) }
    {
        match request {
            Request::SendCommand(number) => self.send(alloc, values, *number, 0),
            Request::SendCommandTrans(number, transaction) => {
                self.send(alloc, values, *number, *transaction)
            }
            Request::Delay(seconds, _) => self.delay(alloc, *seconds),
            Request::PutMessage(_) => Ok(self.stay(alloc, Some(done(alloc)))?),
            Request::SaveValues => Ok(self.stay(alloc, Some(done(alloc)))?),
            _ => Ok(self.stay(alloc, None)?),
        }
    }

    /// What the device does with a request that a method makes under these values of the
    /// instrument. It has an answer to each request but those that ask the user. After a fault the
    /// device is as it was.
    ///
    /// A message, a delay and `save_values` are answered by the code 0; in a delay the device's
    /// method `second` runs once for each second.
    pub fn reply(
        &mut self,
        alloc: Global,
        request: &Request,
        values: &Values,
    ) -> Result<Option<Answer>, DeviceFault>
        requires { AreDeviceValues (types_in self.old.instrument) values.now.numbers.items }
        ensures instrument { self.new.instrument ≡ self.old.instrument }
        ensures image { self.new.image ≡ self.old.image }
        ensures sound { IfOk result (λ answer. IsReply self.old values.now.numbers.items
            request.now
            (Ok (record { values = self.new.values; answer = option_map answer_of answer }))) }
        ensures valid { IfOk result (λ answer. IfSome (option_map answer_of answer)
            (IsValidAnswer (types_in self.old.instrument))) }
        ensures refused { IfErr result (λ fault. fault ≢ DeviceFault.Memory
            → IsReply self.old values.now.numbers.items request.now (Err fault)) }
        ensures quiet { IfOk result (λ answer. answer ≡ None → self.new ≡ self.old) }
        ensures kept { OnErr result (self.new ≡ self.old) }
    {
        let step = self.step(alloc, request, values)?;
        self.numbers = step.numbers;
        Ok(step.answer)
    }
}

// The code 0, and nothing is set.
fn done(alloc: Global) -> Answer
    ensures sound { answer_of result ≡ done_answer }
    ensures valid { (types : List VariableType) → IsValidAnswer types (answer_of result) }
{
    Answer::Go {
        code: 0,
        sets: Vec::new(alloc),
    }
}
