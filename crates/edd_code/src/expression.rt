//! The code of expressions.

ghost use Rattle.std.specs.Prelude.{◌≡◌, ◌++◌, length, OnOk};
ghost use Rattle.edd_syntax.specs.TreeView.{numbered_expr};
ghost use Rattle.edd_code.specs.Blocks.{WhenNotZero, WhenZero, Either, Then, bytes_at};
ghost use Rattle.edd_code.specs.Expressions.{item_block, read_block, no_element, item_element_block, element_block, unary_block, truth_block, then_test, instead, expression_block};

use crate::emit::{close, open, put};
use edd_instructions::{Emitter, Instruction, Jump};
use edd_syntax::expr::Expr;
use edd_syntax::numbers::ItemNo;
use edd_syntax::operators::UnaryOperator;
use edd_syntax::reference::Target;
use std::alloc::AllocError;

#[tactic(auto, unfolding(crate::specs::Blocks::emitted, crate::specs::Blocks::bytes_of))]
pub(crate) fn write_item(code: &mut Emitter, item: ItemNo) -> Result<(), AllocError>
    ensures { OnOk result (code.new ≡ code.old ++ bytes_at (length code.old) (item_block item)) }
{
    match item {
        ItemNo::Variable(variable) => put(code, Instruction::Variable(variable)),
        ItemNo::Command(_)
        | ItemNo::Menu(_)
        | ItemNo::Collection(_)
        | ItemNo::Method(_)
        | ItemNo::Array(_) => put(code, Instruction::Push(0)),
    }
}

#[tactic(auto, unfolding(crate::specs::Blocks::emitted, crate::specs::Blocks::bytes_of))]
fn write_read(code: &mut Emitter, from: Target) -> Result<(), AllocError>
    ensures { OnOk result (code.new ≡ code.old ++ bytes_at (length code.old) (read_block from)) }
{
    match from {
        Target::Item(item) => write_item(code, item),
        Target::Local(_) | Target::Function(_) => put(code, Instruction::Push(0)),
    }
}

#[tactic(auto, unfolding(crate::specs::Blocks::emitted, crate::specs::Blocks::bytes_of))]
fn write_no_element(code: &mut Emitter) -> Result<(), AllocError>
    ensures { OnOk result (code.new ≡ code.old ++ bytes_at (length code.old) no_element) }
{
    put(code, Instruction::Pop)?;
    put(code, Instruction::Push(0))
}

#[tactic(auto, unfolding(crate::specs::Blocks::emitted, crate::specs::Blocks::bytes_of))]
fn write_item_element(code: &mut Emitter, item: ItemNo) -> Result<(), AllocError>
    ensures { OnOk result (code.new ≡ code.old
        ++ bytes_at (length code.old) (item_element_block item)) }
{
    match item {
        ItemNo::Array(array) => put(code, Instruction::ReadElement(array)),
        ItemNo::Variable(_)
        | ItemNo::Command(_)
        | ItemNo::Menu(_)
        | ItemNo::Collection(_)
        | ItemNo::Method(_) => write_no_element(code),
    }
}

// The value of an element, in place of its number on top.
#[tactic(auto, unfolding(crate::specs::Blocks::emitted, crate::specs::Blocks::bytes_of))]
pub(crate) fn write_element(code: &mut Emitter, array: Target) -> Result<(), AllocError>
    ensures { OnOk result (code.new ≡ code.old
        ++ bytes_at (length code.old) (element_block array)) }
{
    match array {
        Target::Item(item) => write_item_element(code, item),
        Target::Local(_) | Target::Function(_) => write_no_element(code),
    }
}

#[tactic(auto, unfolding(crate::specs::Blocks::emitted, crate::specs::Blocks::bytes_of))]
pub(crate) fn write_unary(code: &mut Emitter, op: UnaryOperator) -> Result<(), AllocError>
    ensures { OnOk result (code.new ≡ code.old ++ bytes_at (length code.old) (unary_block op)) }
{
    match op {
        UnaryOperator::Plus => Ok(()),
        UnaryOperator::Minus => put(code, Instruction::Negate),
        UnaryOperator::Not => put(code, Instruction::Not),
        UnaryOperator::Complement => put(code, Instruction::Complement),
    }
}

#[tactic(auto, unfolding(crate::specs::Blocks::emitted, crate::specs::Blocks::bytes_of))]
pub(crate) fn write_truth(code: &mut Emitter) -> Result<(), AllocError>
    ensures { OnOk result (code.new ≡ code.old ++ bytes_at (length code.old) truth_block) }
{
    put(code, Instruction::Not)?;
    put(code, Instruction::Not)
}

/// The code of an expression, which leaves its value on top of the operands.
#[cycle(expressions)]
#[tactic(auto, using(crate::proofs::Writing::goes_on, crate::proofs::Writing::one_more), unfolding(crate::specs::Expressions::expression_block))]
pub fn write_expression(code: &mut Emitter, e: &Expr<Target>) -> Result<(), AllocError>
    ensures { OnOk result (code.new
        ≡ code.old ++ bytes_at (length code.old) (expression_block (numbered_expr e.now))) }
{
    match e {
        Expr::Literal(value) => put(code, Instruction::Push(*value)),
        Expr::Reference(from) => write_read(code, *from),
        Expr::Indexed(array, index) => {
            write_expression(code, index)?;
            write_element(code, *array)
        }
        Expr::Parentheses(inner) => write_expression(code, inner),
        Expr::Unary(op, operand) => {
            write_expression(code, operand)?;
            write_unary(code, *op)
        }
        Expr::Binary(op, left, right) => {
            write_two(code, left, right)?;
            put(code, Instruction::Operate(*op))
        }
        Expr::Compare(by, left, right) => {
            write_two(code, left, right)?;
            put(code, Instruction::Compare(*by))
        }
        Expr::LogicalAnd(left, right) => {
            write_expression(code, left)?;
            write_and(code, right)
        }
        Expr::LogicalOr(left, right) => {
            write_expression(code, left)?;
            write_or(code, right)
        }
        Expr::Conditional(test, first, second) => {
            write_expression(code, test)?;
            write_either(code, first, second)
        }
        Expr::Decimal { .. }
        | Expr::Assign(_, _)
        | Expr::CompoundAssign(_, _, _)
        | Expr::Increment(_, _)
        | Expr::Call { .. } => put(code, Instruction::Push(0)),
    }
}

// The left operand, and the right one on top of it.
#[cycle(expressions)]
fn write_two(
    code: &mut Emitter,
    left: &Expr<Target>,
    right: &Expr<Target>,
) -> Result<(), AllocError>
    ensures { OnOk result (code.new ≡ code.old ++ bytes_at (length code.old)
        (Then (expression_block (numbered_expr left.now))
        (expression_block (numbered_expr right.now)))) }
{
    write_expression(code, left)?;
    write_expression(code, right)
}

// What comes after the left side of `&&`.
#[cycle(expressions)]
fn write_and(code: &mut Emitter, right: &Expr<Target>) -> Result<(), AllocError>
    ensures { OnOk result (code.new ≡ code.old ++ bytes_at (length code.old)
        (then_test (WhenNotZero (instead (expression_block (numbered_expr right.now)))))) }
{
    put(code, Instruction::Duplicate)?;
    let hole = open(code, Jump::IfZero)?;
    write_instead(code, right)?;
    close(code, hole);
    Ok(())
}

// What comes after the left side of `||`.
#[cycle(expressions)]
fn write_or(code: &mut Emitter, right: &Expr<Target>) -> Result<(), AllocError>
    ensures { OnOk result (code.new ≡ code.old ++ bytes_at (length code.old)
        (Then truth_block (then_test
        (WhenZero (instead (expression_block (numbered_expr right.now))))))) }
{
    write_truth(code)?;
    put(code, Instruction::Duplicate)?;
    let hole = open(code, Jump::IfNotZero)?;
    write_instead(code, right)?;
    close(code, hole);
    Ok(())
}

// The truth of the right side, in place of the topmost operand.
#[cycle(expressions)]
fn write_instead(code: &mut Emitter, right: &Expr<Target>) -> Result<(), AllocError>
    ensures { OnOk result (code.new ≡ code.old ++ bytes_at (length code.old)
        (instead (expression_block (numbered_expr right.now)))) }
{
    put(code, Instruction::Pop)?;
    write_expression(code, right)?;
    write_truth(code)
}

// After a test, the expression that it chooses.
#[cycle(expressions)]
fn write_either(
    code: &mut Emitter,
    first: &Expr<Target>,
    second: &Expr<Target>,
) -> Result<(), AllocError>
    ensures { OnOk result (code.new ≡ code.old ++ bytes_at (length code.old)
        (Either (expression_block (numbered_expr first.now))
        (expression_block (numbered_expr second.now)))) }
{
    let otherwise = open(code, Jump::IfZero)?;
    write_expression(code, first)?;
    let end = open(code, Jump::Always)?;
    close(code, otherwise);
    write_expression(code, second)?;
    close(code, end);
    Ok(())
}
