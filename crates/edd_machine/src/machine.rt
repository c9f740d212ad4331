//! A state of the machine, and its step.

ghost use Rattle.std.specs.Prelude.{◌≡◌, ℕ, ◌<◌, ◌≤◌, ℤ, List, [], ◌∷◌, length, pos, replicate};
ghost use Rattle.std.specs.List.{AllByRecursion};
ghost use Rattle.edd_syntax.specs.DeviceValues.{AreDeviceValues};
ghost use Rattle.edd_instructions.specs.declared.instruction.Instruction.TheVariants as instructions;
ghost use Rattle.edd_instructions.specs.declared.records.Emitted.TheVariants as emitted;
ghost use Rattle.edd_instructions.specs.declared.records.Status.TheVariants.{Running};
ghost use Rattle.edd_instructions.specs.declared.unit.Sort.TheVariants.{Method};
ghost use Rattle.edd_instructions.specs.AbortMethods.{aborting, next, start_in, start_listed};
ghost use Rattle.edd_image.specs.Contents.{contents_in};
ghost use Rattle.edd_image.specs.Fields.{counts_in};
ghost use Rattle.edd_instructions.specs.Steps.{Fits, act, act_ask, ask_for, opening};
ghost use Rattle.edd_instructions.specs.Units.{numbers_asked};
ghost use Rattle.edd_instructions.specs.Validity.{IsValid};
ghost use Rattle.edd_machine.specs.Outcomes.{comes_to};
ghost use Rattle.edd_machine.specs.Running.{running_unit, start_of, state_of, IsUnitOf, IsMachine, IsEffect, StepsTo, ActsTo, CanAct};
ghost use Rattle.edd_machine.specs.Types.{types_in};

use crate::abort_methods::AbortMethods;
use crate::code_unit::{CodeUnit, code_of};
use crate::operands::Operands;
use crate::outcome::{Outcome, perform};
use crate::ranges::stored;
use arrayvec::ArrayVec;
use edd_arithmetic::wrapped;
use edd_instructions::{Ask, Emitted, Instruction, Request, Sort, Status, decode};
use edd_loader::Image;
use edd_syntax::numbers::{MethNo, VarNo};

/// A state of the machine over one unit of an image, but for the values of the device, and what its
/// last step emitted. The values are the caller's: each step is given them.
#[derive(Debug, Drop)]
pub struct Machine {
    pub unit: CodeUnit,
    /// The place of the next instruction: a count of bytes from the start of the unit.
    pub place: usize,
    pub operands: Operands,
    pub slots: ArrayVec<i64, 64>,
    pub status: Status,
    pub emitted: Emitted,
    /// The methods that are to run, in order, if the run is aborted, or that are left of them.
    pub abort_methods: AbortMethods,
    /// It was aborted, and they run.
    pub is_aborting: bool,
}

// So many slots of 0.
fn empty_slots(count: u16) -> ArrayVec<i64, 64>
    requires { count ≤ 64 }
    ensures { result.items ≡ replicate count (pos 0) }
{
    let mut slots = ArrayVec::new();
    for _ in 0..count {
        slots.push(0);
    }
    slots
}

impl Machine {
    /// The state at the start of a unit, under any values.
    pub fn open(unit: CodeUnit) -> Machine
        requires { unit.slots ≤ 64 }
        ensures state { (b : List ℕ) (values : List ℤ) → state_of b result values
            ≡ opening (running_unit b unit) unit.slots values }
        ensures unit { result.unit ≡ unit }
        ensures emitted { result.emitted ≡ emitted.Nothing }
        ensures machine { (b : List ℕ) (values : List ℤ) → IsValid b → IsUnitOf b unit
            → AreDeviceValues (types_in b) values → IsMachine b result values }
    {
        Machine {
            unit,
            place: 0,
            operands: Operands::new(),
            slots: empty_slots(unit.slots),
            status: Status::Running,
            emitted: Emitted::Nothing,
            abort_methods: AbortMethods::new(),
            is_aborting: false,
        }
    }

    // Emits nothing. It writes only where the last step has emitted something, since this is done
    // at each step.
    #[inline(always)]
    fn emit_nothing(&mut self)
        ensures { self.new ≡ record self.old { emitted = emitted.Nothing } }
    {
        match self.emitted {
            Emitted::Nothing => {}
            _ => self.emitted = Emitted::Nothing,
        }
    }

    // Takes on the outcome of an instruction that has left these operands.
    #[inline(always)]
    fn take_on(&mut self, outcome: Outcome)
        ensures unit { self.new.unit ≡ self.old.unit }
        ensures value { (b : List ℕ) (values : List ℤ)
            → comes_to outcome self.old.operands (state_of b self.old values)
            ≡ record {
              state = state_of b self.new values;
              emitted = self.new.emitted;
              changes = [];
            } }
    {
        match outcome {
            Outcome::GoesOn(place) => {
                self.place = place;
                self.emit_nothing();
            }
            Outcome::Gives(place, record) => {
                self.place = place;
                self.emitted = Emitted::Record(record);
            }
            Outcome::Ends => {
                self.status = Status::Ended;
                self.emit_nothing();
            }
            Outcome::Traps(why) => {
                self.status = Status::Trapped(why);
                self.emit_nothing();
            }
        }
    }

    // The value of a slot.
    #[inline(always)]
    #[tactic(auto, unfolding(edd_instructions::specs::Steps::act))]
    fn push_slot(&mut self, slot: u16, next: usize)
        requires room { length self.old.operands < 128 }
        requires exists { slot < length self.old.slots.items }
        ensures unit { self.new.unit ≡ self.old.unit }
        ensures acts { (b : List ℕ) (values : List ℤ)
            → ActsTo b (instructions.GetLocal slot) next self.old values self.new values }
    {
        self.operands.push(self.slots.as_slice()[slot as usize]);
        self.place = next;
        self.emit_nothing();
    }

    // Sets a slot to the topmost operand, which stays.
    #[inline(always)]
    #[tactic(auto, unfolding(edd_instructions::specs::Steps::act))]
    fn set_slot(&mut self, slot: u16, next: usize)
        requires enough { 1 ≤ length self.old.operands }
        requires exists { slot < length self.old.slots.items }
        ensures unit { self.new.unit ≡ self.old.unit }
        ensures acts { (b : List ℕ) (values : List ℤ)
            → ActsTo b (instructions.SetLocal slot) next self.old values self.new values }
    {
        self.slots[slot as usize] = self.operands.top();
        self.place = next;
        self.emit_nothing();
    }

    // Stores the topmost operand in a variable, and leaves what is read back.
    #[tactic(auto, unfolding(edd_instructions::specs::Steps::act))]
    fn store(&mut self, image: &Image<'_>, values: &mut [i64], variable: VarNo, next: usize)
        requires enough { 1 ≤ length self.old.operands }
        requires valid { IsValid image.now }
        requires exists { variable.0 < (counts_in image.now).variables }
        requires values { AreDeviceValues (types_in image.now) values.old }
        ensures unit { self.new.unit ≡ self.old.unit }
        ensures acts { ActsTo image.now (instructions.Store variable) next self.old values.old
            self.new values.new }
    {
        let Some(kind) = image.variable(variable) else {
            unreachable!()
        };
        let kept = stored(kind, self.operands.top());
        values[variable.0 as usize] = kept;
        self.operands.set_top(wrapped(self.unit.sort, kept));
        self.place = next;
        self.emit_nothing();
    }

    // Waits for the answer to a request.
    fn wait(&mut self, next: usize, request: Request)
        ensures unit { self.new.unit ≡ self.old.unit }
        ensures acts { (b : List ℕ) (values : List ℤ)
            → IsEffect (ask_for (state_of b self.old values) next self.old.operands request) b
            self.new values }
    {
        self.place = next;
        self.status = Status::Asking(request);
        self.emitted = Emitted::Request(request);
    }

    // Takes the topmost operand of a method.
    fn take_number(&mut self) -> i32
        requires enough { 1 ≤ length self.old.operands }
        requires fit { AllByRecursion (Fits Method) self.old.operands }
        ensures taken { self.old.operands ≡ result ∷ self.new.operands }
        ensures others { self.new ≡ record self.old { operands = self.new.operands } }
    {
        self.operands.pop() as i32
    }

    // Makes a request, with its numbers from the operands.
    fn ask(&mut self, ask: Ask, next: usize)
        requires enough { numbers_asked ask ≤ length self.old.operands }
        requires fit { AllByRecursion (Fits Method) self.old.operands }
        ensures unit { self.new.unit ≡ self.old.unit }
        ensures acts { (b : List ℕ) (values : List ℤ)
            → IsEffect (act_ask ask next (state_of b self.old values)) b self.new values }
    {
        match ask.kind.numbers_taken() {
            0 => self.wait(next, ask.request(0, 0)),
            1 => {
                let number = self.take_number();
                self.wait(next, ask.request(number, 0));
            }
            _ => {
                let second = self.take_number();
                let first = self.take_number();
                self.wait(next, ask.request(first, second));
            }
        }
    }

    // Ends the run without a method's end.
    #[tactic(auto, unfolding(edd_instructions::specs::Steps::act))]
    fn abort(&mut self)
        ensures unit { self.new.unit ≡ self.old.unit }
        ensures acts { (b : List ℕ) (values : List ℤ) (next : ℕ)
            → ActsTo b instructions.Abort next self.old values self.new values }
    {
        self.status = Status::Aborted;
        self.emit_nothing();
    }

    // Lists a method, where the run isn't aborting and there is room: the value tells whether.
    #[tactic(auto, unfolding(edd_instructions::specs::Steps::act))]
    fn add_abort_method(&mut self, method: MethNo, next: usize)
        requires { length self.old.operands < 128 }
        ensures unit { self.new.unit ≡ self.old.unit }
        ensures acts { (b : List ℕ) (values : List ℤ)
            → ActsTo b (instructions.AddAbortMethod method) next self.old values self.new values }
    {
        if self.is_aborting || self.abort_methods.is_full() {
            self.operands.push(-1);
        } else {
            self.abort_methods.push(method);
            self.operands.push(0);
        }
        self.place = next;
        self.emit_nothing();
    }

    // The effect of an instruction that the rules on its unit allow here.
    #[inline(always)]
    fn execute(
        &mut self,
        image: &Image<'_>,
        values: &mut [i64],
        instruction: Instruction,
        next: usize,
    )
        requires valid { IsValid image.now }
        requires ready { CanAct image.now instruction (state_of image.now self.old values.old) }
        ensures unit { self.new.unit ≡ self.old.unit }
        ensures acts { ActsTo image.now instruction next self.old values.old self.new values.new }
    {
        match instruction {
            Instruction::Store(variable) => self.store(image, values, variable, next),
            Instruction::GetLocal(slot) => self.push_slot(slot, next),
            Instruction::SetLocal(slot) => self.set_slot(slot, next),
            Instruction::Ask(ask) => self.ask(ask, next),
            Instruction::Abort => self.abort(),
            Instruction::AddAbortMethod(method) => self.add_abort_method(method, next),
            _ => {
                let sort = self.unit.sort;
                let outcome = perform(&mut self.operands, image, sort, values, instruction, next);
                self.take_on(outcome);
            }
        }
    }

    // Starts an abort method: at its first byte, with no operands and slots of 0.
    fn start(&mut self, unit: CodeUnit)
        requires { unit.slots ≤ 64 }
        ensures unit { self.new.unit ≡ unit }
        ensures state { (b : List ℕ) (values : List ℤ) → state_of b self.new values
            ≡ aborting (start_of b unit) self.old.abort_methods (state_of b self.old values) }
        ensures emitted { self.new.emitted ≡ self.old.emitted }
    {
        self.unit = unit;
        self.place = 0;
        self.operands = Operands::new();
        self.slots = empty_slots(unit.slots);
        self.status = Status::Running;
        self.is_aborting = true;
    }

    // Goes on with the first listed method that has a body; after the last the run is aborted.
    fn start_listed(&mut self, image: &Image<'_>)
        ensures follows { (values : List ℤ) → state_of image.now self.new values
            ≡ start_listed (start_in (contents_in image.now)) self.old.abort_methods
            (state_of image.now self.old values) }
        ensures machine { (values : List ℤ) → IsMachine image.now self.old values
            → IsMachine image.now self.new values }
        ensures method { self.old.unit.sort ≡ Method → self.new.unit.sort ≡ Method }
        ensures emitted { self.new.emitted ≡ self.old.emitted }
    {
        match self.abort_methods.next_body(image) {
            Some(unit) => self.start(unit),
            None => self.status = Status::Aborted,
        }
    }

    /// Goes on from where a step or an answer has led: the abort of a run that isn't aborting yet
    /// starts the first of its abort methods, and the end of one starts the next. After the last
    /// the run is aborted. Else nothing follows. It is no step, and takes no memory.
    #[inline(always)]
    pub fn follow(&mut self, image: &Image<'_>)
        ensures follows { (values : List ℤ) → state_of image.now self.new values
            ≡ next (start_in (contents_in image.now)) (state_of image.now self.old values) }
        ensures machine { (values : List ℤ) → IsMachine image.now self.old values
            → IsMachine image.now self.new values }
        ensures method { self.old.unit.sort ≡ Method → self.new.unit.sort ≡ Method }
        ensures emitted { self.new.emitted ≡ self.old.emitted }
    {
        let goes_on = match self.status {
            Status::Ended => self.is_aborting,
            Status::Aborted => !self.is_aborting,
            _ => false,
        };
        if goes_on {
            self.start_listed(image);
        }
    }

    /// One step over these values of the device, one number for each variable: the effect of the
    /// instruction at its place, and what follows it. A running state of a unit of the image has
    /// exactly one, and keeps what every state keeps. It takes no memory.
    pub fn step(&mut self, image: &Image<'_>, values: &mut [i64])
        requires machine { IsMachine image.now self.old values.old }
        requires running { self.old.status ≡ Running }
        ensures step { StepsTo image.now self.old values.old self.new values.new }
        ensures machine { IsMachine image.now self.new values.new }
        ensures method { self.old.unit.sort ≡ Method → self.new.unit.sort ≡ Method }
    {
        let code = code_of(image.bytes(), self.unit);
        match decode(code, self.place) {
            Some((instruction, next)) => self.execute(image, values, instruction, next),
            None => unreachable!(),
        }
        self.follow(image);
    }
}
