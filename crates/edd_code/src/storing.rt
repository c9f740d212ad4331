//! The code that reads and stores the locals and variables of methods.

ghost use Rattle.std.specs.Prelude.{◌≡◌, ◌++◌, length, OnOk};
ghost use Rattle.edd_code.specs.Blocks.{bytes_at};
ghost use Rattle.edd_code.specs.MethodExpressions.{increment_block, load_block, store_behind_block, store_block, store_next_block};

use crate::emit::put;
use crate::expression::write_item;
use edd_instructions::{Emitter, Instruction};
use edd_syntax::numbers::ItemNo;
use edd_syntax::operators::{IncrementOperator, Operator};
use edd_syntax::reference::Target;
use std::alloc::AllocError;

/// Leaves the value of a local or of a variable on top of the operands.
#[tactic(auto, using(crate::proofs::Writing::one_more))]
pub(crate) fn write_load(code: &mut Emitter, from: Target) -> Result<(), AllocError>
    ensures { OnOk result (code.new ≡ code.old ++ bytes_at (length code.old) (load_block from)) }
{
    match from {
        Target::Local(slot) => put(code, Instruction::GetLocal(u16::from(slot))),
        Target::Item(item) => write_item(code, item),
        Target::Function(_) => put(code, Instruction::Push(0)),
    }
}

/// Stores the topmost operand, in whose place is then what is read back.
#[tactic(auto, using(crate::proofs::Writing::one_more, crate::proofs::Closing::nothing_written))]
pub fn write_store(code: &mut Emitter, to: Target) -> Result<(), AllocError>
    ensures { OnOk result (code.new ≡ code.old ++ bytes_at (length code.old) (store_block to)) }
{
    match to {
        Target::Local(slot) => put(code, Instruction::SetLocal(u16::from(slot))),
        Target::Item(ItemNo::Variable(variable)) => put(code, Instruction::Store(variable)),
        Target::Item(_) | Target::Function(_) => Ok(()),
    }
}

// Stores 1 more or 1 less than the topmost operand.
#[tactic(auto, using(crate::proofs::Writing::goes_on, crate::proofs::Writing::one_more))]
fn write_next(code: &mut Emitter, op: Operator, to: Target) -> Result<(), AllocError>
    ensures { OnOk result (code.new ≡ code.old
        ++ bytes_at (length code.old) (store_next_block op to)) }
{
    put(code, Instruction::Push(1))?;
    put(code, Instruction::Operate(op))?;
    write_store(code, to)
}

// Does the same, and what was on top stays there.
#[tactic(auto, using(crate::proofs::Writing::goes_on, crate::proofs::Writing::one_more))]
fn write_behind(code: &mut Emitter, op: Operator, to: Target) -> Result<(), AllocError>
    ensures { OnOk result (code.new ≡ code.old
        ++ bytes_at (length code.old) (store_behind_block op to)) }
{
    put(code, Instruction::Duplicate)?;
    write_next(code, op, to)?;
    put(code, Instruction::Pop)
}

/// The code of `++` and `--`.
#[tactic(auto, using(crate::proofs::Writing::goes_on))]
pub(crate) fn write_increment(
    code: &mut Emitter,
    op: IncrementOperator,
    to: Target,
) -> Result<(), AllocError>
    ensures { OnOk result (code.new ≡ code.old
        ++ bytes_at (length code.old) (increment_block op to)) }
{
    write_load(code, to)?;
    match op {
        IncrementOperator::PreIncrement => write_next(code, Operator::Add, to),
        IncrementOperator::PostIncrement => write_behind(code, Operator::Add, to),
        IncrementOperator::PreDecrement => write_next(code, Operator::Subtract, to),
        IncrementOperator::PostDecrement => write_behind(code, Operator::Subtract, to),
    }
}
