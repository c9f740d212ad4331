//! The instructions that units of both sorts have, on the operands.

ghost use Rattle.std.specs.Prelude.{◌≡◌, ℤ, ◌+◌, ◌-◌, ◌<◌, ◌≤◌, IfSome, List, length, true};
ghost use Rattle.std.specs.List.{AllByRecursion};
ghost use Rattle.edd_syntax.specs.declared.numbers.VarNo.{VarNo};
ghost use Rattle.edd_instructions.specs.declared.instruction.Instruction.TheVariants as instructions;
ghost use Rattle.edd_instructions.specs.declared.unit.Sort.{Sort};
ghost use Rattle.edd_image.specs.Contents.{contents_in};
ghost use Rattle.edd_image.specs.Fields.{counts_in};
ghost use Rattle.edd_instructions.specs.Steps.{Fits, width_of};
ghost use Rattle.edd_syntax.specs.Elements.{element_value};
ghost use Rattle.edd_instructions.specs.Units.{takes, leaves};
ghost use Rattle.edd_machine.specs.Outcomes.{IsShared, Performs, PerformsWith, gives_record};

use crate::operands::Operands;
use edd_arithmetic::{
    compare, complement, logical_not, negate, operate, wrapped, wrapped_constant,
};
use edd_instructions::{Instruction, Record, Sort};
use edd_loader::Image;
use edd_syntax::answer::Trap;
use edd_syntax::numbers::{ArrNo, VarNo};
use edd_syntax::operators::{Comparison, Operator};

/// What an instruction results in.
#[derive(Clone, Copy, PartialEq, Eq, Debug)]
pub enum Outcome {
    /// The run goes on at a place.
    GoesOn(usize),
    /// A record is given, and the run goes on at a place.
    Gives(usize, Record),
    /// The unit ends.
    Ends,
    /// An operator has no value, or an array no such element.
    Traps(Trap),
}

#[inline(always)]
#[tactic(auto, unfolding(edd_instructions::specs::Steps::act))]
fn push(operands: &mut Operands, sort: Sort, number: u32, next: usize) -> Outcome
    requires { length operands.old < 128 }
    ensures { (values : List ℤ)
        → Performs sort values operands.old operands.new (instructions.Push number) next result }
{
    operands.push(wrapped_constant(sort, number));
    Outcome::GoesOn(next)
}

#[inline(always)]
#[tactic(auto, unfolding(edd_instructions::specs::Steps::act))]
fn push_variable(
    operands: &mut Operands,
    sort: Sort,
    values: &[i64],
    variable: VarNo,
    next: usize,
) -> Outcome
    requires room { length operands.old < 128 }
    requires exists { variable.0 < length values.now }
    ensures { Performs sort values.now operands.old operands.new (instructions.Variable variable)
        next result }
{
    operands.push(wrapped(sort, values[variable.0 as usize]));
    Outcome::GoesOn(next)
}

#[inline(always)]
#[tactic(auto, unfolding(edd_instructions::specs::Steps::act))]
fn pop(operands: &mut Operands, next: usize) -> Outcome
    requires { 1 ≤ length operands.old }
    ensures { (sort : Sort) (values : List ℤ)
        → Performs sort values operands.old operands.new instructions.Pop next result }
{
    let _operand = operands.pop();
    Outcome::GoesOn(next)
}

#[inline(always)]
#[tactic(auto, unfolding(edd_instructions::specs::Steps::act))]
fn duplicate(operands: &mut Operands, next: usize) -> Outcome
    requires enough { 1 ≤ length operands.old }
    requires room { length operands.old < 128 }
    ensures { (sort : Sort) (values : List ℤ)
        → Performs sort values operands.old operands.new instructions.Duplicate next result }
{
    operands.push(operands.top());
    Outcome::GoesOn(next)
}

#[inline(always)]
#[tactic(auto, unfolding(edd_instructions::specs::Steps::act))]
fn operate_two(operands: &mut Operands, sort: Sort, operator: Operator, next: usize) -> Outcome
    requires enough { 2 ≤ length operands.old }
    requires fit { AllByRecursion (Fits sort) operands.old }
    ensures { (values : List ℤ)
        → Performs sort values operands.old operands.new (instructions.Operate operator) next
        result }
{
    let b = operands.pop();
    match operate(sort, operator, operands.top(), b) {
        Ok(value) => {
            operands.set_top(value);
            Outcome::GoesOn(next)
        }
        Err(why) => {
            let _operand = operands.pop();
            Outcome::Traps(why)
        }
    }
}

#[inline(always)]
#[tactic(auto, unfolding(edd_instructions::specs::Steps::act))]
fn compare_two(operands: &mut Operands, comparison: Comparison, next: usize) -> Outcome
    requires enough { 2 ≤ length operands.old }
    ensures { (sort : Sort) (values : List ℤ)
        → Performs sort values operands.old operands.new (instructions.Compare comparison) next
        result }
{
    let b = operands.pop();
    operands.set_top(compare(comparison, operands.top(), b));
    Outcome::GoesOn(next)
}

#[inline(always)]
#[tactic(auto, unfolding(edd_instructions::specs::Steps::act))]
fn negate_top(operands: &mut Operands, sort: Sort, next: usize) -> Outcome
    requires enough { 1 ≤ length operands.old }
    requires fit { AllByRecursion (Fits sort) operands.old }
    ensures { (values : List ℤ) → Performs sort values operands.old operands.new instructions.Negate
        next result }
{
    operands.set_top(negate(sort, operands.top()));
    Outcome::GoesOn(next)
}

#[inline(always)]
#[tactic(auto, unfolding(edd_instructions::specs::Steps::act))]
fn not_top(operands: &mut Operands, next: usize) -> Outcome
    requires enough { 1 ≤ length operands.old }
    ensures { (sort : Sort) (values : List ℤ)
        → Performs sort values operands.old operands.new instructions.Not next result }
{
    operands.set_top(logical_not(operands.top()));
    Outcome::GoesOn(next)
}

#[inline(always)]
#[tactic(auto, unfolding(edd_instructions::specs::Steps::act))]
fn complement_top(operands: &mut Operands, next: usize) -> Outcome
    requires enough { 1 ≤ length operands.old }
    ensures { (sort : Sort) (values : List ℤ)
        → Performs sort values operands.old operands.new instructions.Complement next result }
{
    operands.set_top(complement(operands.top()));
    Outcome::GoesOn(next)
}

#[inline(always)]
#[tactic(auto, unfolding(edd_instructions::specs::Steps::act))]
fn jump_if_zero(operands: &mut Operands, target: u32, next: usize) -> Outcome
    requires { 1 ≤ length operands.old }
    ensures { (sort : Sort) (values : List ℤ)
        → Performs sort values operands.old operands.new (instructions.JumpIfZero target) next
        result }
{
    if operands.pop() == 0 {
        Outcome::GoesOn(target as usize)
    } else {
        Outcome::GoesOn(next)
    }
}

#[inline(always)]
#[tactic(auto, unfolding(edd_instructions::specs::Steps::act))]
fn jump_if_not_zero(operands: &mut Operands, target: u32, next: usize) -> Outcome
    requires { 1 ≤ length operands.old }
    ensures { (sort : Sort) (values : List ℤ)
        → Performs sort values operands.old operands.new (instructions.JumpIfNotZero target) next
        result }
{
    if operands.pop() == 0 {
        Outcome::GoesOn(next)
    } else {
        Outcome::GoesOn(target as usize)
    }
}

#[inline(always)]
#[tactic(auto, unfolding(edd_instructions::specs::Steps::act))]
fn case(operands: &mut Operands, label: i64, target: u32, next: usize) -> Outcome
    requires enough { 1 ≤ length operands.old }
    ensures { (sort : Sort) (values : List ℤ)
        → Performs sort values operands.old operands.new (instructions.Case label target) next
        result }
{
    if operands.top() == label {
        let _operand = operands.pop();
        Outcome::GoesOn(target as usize)
    } else {
        Outcome::GoesOn(next)
    }
}

#[inline(always)]
#[tactic(auto, unfolding(edd_instructions::specs::Steps::act))]
fn give_number(operands: &mut Operands, next: usize) -> Outcome
    requires { 1 ≤ length operands.old }
    ensures { (sort : Sort) (values : List ℤ)
        → Performs sort values operands.old operands.new instructions.Number next result }
{
    Outcome::Gives(next, Record::Number(operands.pop()))
}

// The value of an element of an array, wrapped to the width, or the trap. It is a function of its
// own, so that fewer values live in the step.
#[inline(never)]
fn element_value(
    image: &Image<'_>,
    sort: Sort,
    values: &[i64],
    array: ArrNo,
    number: i64,
) -> Result<i64, Trap>
    requires { length values.now ≡ (counts_in image.now).variables }
    ensures { result ≡ element_value (contents_in image.now).elements (width_of sort)
        values.now array number }
{
    match image.element(array, number) {
        Some(variable) => Ok(wrapped(sort, values[variable.0 as usize])),
        None => Err(Trap::NoElement),
    }
}

#[inline(always)]
#[tactic(auto, unfolding(edd_instructions::specs::Steps::act))]
fn read_element(
    operands: &mut Operands,
    image: &Image<'_>,
    sort: Sort,
    values: &[i64],
    array: ArrNo,
    next: usize,
) -> Outcome
    requires enough { 1 ≤ length operands.old }
    requires counted { length values.now ≡ (counts_in image.now).variables }
    ensures { PerformsWith (contents_in image.now).elements sort values.now operands.old
        operands.new (instructions.ReadElement array) next result }
{
    match element_value(image, sort, values, array, operands.top()) {
        Ok(value) => {
            operands.set_top(value);
            Outcome::GoesOn(next)
        }
        Err(why) => {
            let _operand = operands.pop();
            Outcome::Traps(why)
        }
    }
}

// The record that an instruction has with it. The operands stay.
#[inline(always)]
#[tactic(auto, unfolding(edd_instructions::specs::Steps::act))]
fn give(instruction: Instruction, next: usize) -> Outcome
    requires { gives_record instruction ≡ true }
    ensures { (sort : Sort) (values operands : List ℤ)
        → Performs sort values operands operands instruction next result }
{
    match instruction {
        Instruction::Text(text) => Outcome::Gives(next, Record::Words(text)),
        Instruction::Item { item, quals } => Outcome::Gives(next, Record::Entry { item, quals }),
        Instruction::DataConst(number) => Outcome::Gives(next, Record::DataConst(number)),
        Instruction::DataVar { var, mask, quals } => {
            Outcome::Gives(next, Record::DataVar { var, mask, quals })
        }
        Instruction::Enumerator { value, text, help } => {
            Outcome::Gives(next, Record::Enumerator { value, text, help })
        }
        Instruction::Response {
            number,
            class,
            text,
        } => Outcome::Gives(
            next,
            Record::Response {
                number,
                class,
                text,
            },
        ),
        Instruction::Member {
            name,
            item,
            label,
            help,
        } => Outcome::Gives(
            next,
            Record::Member {
                name,
                item,
                label,
                help,
            },
        ),
        Instruction::Element {
            number,
            var,
            label,
            help,
        } => Outcome::Gives(
            next,
            Record::Element {
                number,
                var,
                label,
                help,
            },
        ),
        _ => unreachable!(),
    }
}

/// What an instruction that attributes may have results in.
#[inline(always)]
#[tactic(auto, unfolding(edd_instructions::specs::Steps::act))]
pub fn perform(
    operands: &mut Operands,
    image: &Image<'_>,
    sort: Sort,
    values: &[i64],
    instruction: Instruction,
    next: usize,
) -> Outcome
    requires enough { takes instruction ≤ length operands.old }
    requires full { length operands.old ≤ 128 }
    requires room { IfSome (leaves instruction) (λ n. length operands.old - takes instruction + n
        ≤ 128) }
    requires shared { IsShared instruction }
    requires exists { (v : VarNo) → instruction ≡ instructions.Variable v
        → v.0 < length values.now }
    requires counted { length values.now ≡ (counts_in image.now).variables }
    requires fit { AllByRecursion (Fits sort) operands.old }
    ensures { PerformsWith (contents_in image.now).elements sort values.now operands.old
        operands.new instruction next result }
{
    match instruction {
        Instruction::End => Outcome::Ends,
        Instruction::Push(number) => push(operands, sort, number, next),
        Instruction::Variable(variable) => push_variable(operands, sort, values, variable, next),
        Instruction::Pop => pop(operands, next),
        Instruction::Duplicate => duplicate(operands, next),
        Instruction::ReadElement(array) => {
            read_element(operands, image, sort, values, array, next)
        }
        Instruction::Operate(operator) => operate_two(operands, sort, operator, next),
        Instruction::Compare(comparison) => compare_two(operands, comparison, next),
        Instruction::Negate => negate_top(operands, sort, next),
        Instruction::Not => not_top(operands, next),
        Instruction::Complement => complement_top(operands, next),
        Instruction::Jump(target) => Outcome::GoesOn(target as usize),
        Instruction::JumpIfZero(target) => jump_if_zero(operands, target, next),
        Instruction::JumpIfNotZero(target) => jump_if_not_zero(operands, target, next),
        Instruction::Case { label, target } => case(operands, label, target, next),
        Instruction::Number => give_number(operands, next),
        Instruction::Text(_)
        | Instruction::Item { .. }
        | Instruction::DataConst(_)
        | Instruction::DataVar { .. }
        | Instruction::Enumerator { .. }
        | Instruction::Response { .. }
        | Instruction::Member { .. }
        | Instruction::Element { .. } => give(instruction, next),
        Instruction::Store(_)
        | Instruction::GetLocal(_)
        | Instruction::SetLocal(_)
        | Instruction::Ask(_)
        | Instruction::Abort
        | Instruction::AddAbortMethod(_) => unreachable!(),
    }
}
