//! The code of expressions of methods.

ghost use Rattle.std.specs.Prelude.{◌≤◌, [], ◌∷◌, ◌++◌, IfOk, IsErrOf, IsTrue, OnOk, length, map};
ghost use Rattle.std.specs.List.{list_all};
ghost use Rattle.std.specs.Option.{option_to_list};
ghost use Rattle.edd_syntax.specs.Expression.{Call, arguments_from};
ghost use Rattle.edd_syntax.specs.Strings.{argument_texts, expr_texts, strings_of_texts};
ghost use Rattle.edd_syntax.specs.SubsetRules.{all_fit, fits};
ghost use Rattle.edd_syntax.specs.TreeView.{numbered_argument, numbered_expr};
ghost use Rattle.edd_syntax.specs.WellFormed.{is_text};
ghost use Rattle.edd_code.specs.Blocks.{Either, Straight, Then, WhenNotZero, WhenZero, bytes_at};
ghost use Rattle.edd_code.specs.Expressions.{instead, then_test, truth_block};
ghost use Rattle.edd_code.specs.Arguments.{asking, named_one, names_of};
ghost use Rattle.edd_code.specs.MethodExpressions.{argument_block, argument_blocks, call_block, load_block, method_block, number_block, numbers_block, store_block};
ghost use Rattle.edd_code.specs.Tables.{Grows, Overflows};
ghost use Rattle.edd_code.specs.Written.{ByNumber, WritesNumbered, WritesPart};

use crate::arguments::{all_fit, only_value, target_and_value, variable_number};
use crate::emit::{close, open, put};
use crate::expression::{write_element, write_truth, write_unary};
use crate::fault::LowerFault;
use crate::requests::{named_before, write_abort_method, write_alone, write_misfit};
use crate::storing::{write_increment, write_load, write_store};
use crate::strings::add_text;
use edd_instructions::{Ask, Emitter, Instruction, Jump};
use edd_strings::Table;
use edd_syntax::expr::{Argument, Expr};
use edd_syntax::operators::{Builtin, Operator, Parameter, RequestKind};
use edd_syntax::reference::Target;
use std::alloc::Global;

/// The code of an expression of a method, which leaves its value on top of the operands.
#[cycle(values)]
#[tactic(auto, using(crate::proofs::NumberedBlocks::writing), unfolding(crate::specs::MethodExpressions::method_block))]
pub fn write_value(
    alloc: Global,
    code: &mut Emitter,
    table: &mut Table,
    e: &Expr<Target>,
) -> Result<(), LowerFault>
    requires { IsTrue (list_all is_text (expr_texts (numbered_expr e.now))) }
    ensures sound { OnOk result
        (WritesNumbered table.old code.old (strings_of_texts (expr_texts (numbered_expr e.now)))
        (λ number place. bytes_at place (method_block number (numbered_expr e.now))) table.new
        code.new) }
    ensures grows { Grows table.old table.new }
    ensures refused { IsErrOf result LowerFault.TooMany
        → Overflows table.old (strings_of_texts (expr_texts (numbered_expr e.now))) }
    ensures longer { OnOk result (length code.old ≤ length code.new) }
{
    match e {
        Expr::Literal(value) => Ok(put(code, Instruction::Push(*value))?),
        Expr::Decimal { .. } => Ok(put(code, Instruction::Push(0))?),
        Expr::Reference(from) => Ok(write_load(code, *from)?),
        Expr::Indexed(array, index) => {
            write_value(alloc, code, table, index)?;
            Ok(write_element(code, *array)?)
        }
        Expr::Parentheses(inner) => write_value(alloc, code, table, inner),
        Expr::Unary(op, operand) => {
            write_value(alloc, code, table, operand)?;
            Ok(write_unary(code, *op)?)
        }
        Expr::Binary(op, left, right) => {
            write_operands(alloc, code, table, left, right, Instruction::Operate(*op))
        }
        Expr::Compare(by, left, right) => {
            write_operands(alloc, code, table, left, right, Instruction::Compare(*by))
        }
        Expr::LogicalAnd(left, right) => write_and(alloc, code, table, left, right),
        Expr::LogicalOr(left, right) => write_or(alloc, code, table, left, right),
        Expr::Conditional(test, first, second) => {
            write_value(alloc, code, table, test)?;
            write_either(alloc, code, table, first, second)?;
            Ok(())
        }
        Expr::Assign(to, value) => {
            write_value(alloc, code, table, value)?;
            Ok(write_store(code, *to)?)
        }
        Expr::CompoundAssign(op, to, value) => write_compound(alloc, code, table, *op, *to, value),
        Expr::Increment(op, to) => Ok(write_increment(code, *op, *to)?),
        Expr::Call {
            function,
            arguments,
            ..
        } => write_call(alloc, code, table, *function, arguments),
    }
}

// The left operand, the right one on top of it, and what is done with both.
#[cycle(values)]
#[tactic(auto, using(crate::proofs::NumberedBlocks::writing))]
fn write_operands(
    alloc: Global,
    code: &mut Emitter,
    table: &mut Table,
    left: &Expr<Target>,
    right: &Expr<Target>,
    instruction: Instruction,
) -> Result<(), LowerFault>
    requires left { IsTrue (list_all is_text (expr_texts (numbered_expr left.now))) }
    requires right { IsTrue (list_all is_text (expr_texts (numbered_expr right.now))) }
    ensures sound { OnOk result
        (WritesPart table.old code.old (expr_texts (numbered_expr left.now)
        ++ expr_texts (numbered_expr right.now))
        (λ number. Then (method_block number (numbered_expr left.now))
        (Then (method_block number (numbered_expr right.now)) (Straight instruction))) table.new
        code.new) }
    ensures grows { Grows table.old table.new }
    ensures refused { IsErrOf result LowerFault.TooMany
        → Overflows table.old (strings_of_texts (expr_texts (numbered_expr left.now)
        ++ expr_texts (numbered_expr right.now))) }
    ensures longer { OnOk result (length code.old ≤ length code.new) }
{
    write_value(alloc, code, table, left)?;
    write_value(alloc, code, table, right)?;
    Ok(put(code, instruction)?)
}

// The truth of both sides. The right one follows only where the left one is true.
#[cycle(values)]
#[tactic(auto, using(crate::proofs::NumberedBlocks::writing))]
fn write_and(
    alloc: Global,
    code: &mut Emitter,
    table: &mut Table,
    left: &Expr<Target>,
    right: &Expr<Target>,
) -> Result<(), LowerFault>
    requires left { IsTrue (list_all is_text (expr_texts (numbered_expr left.now))) }
    requires right { IsTrue (list_all is_text (expr_texts (numbered_expr right.now))) }
    ensures sound { OnOk result
        (WritesPart table.old code.old (expr_texts (numbered_expr left.now)
        ++ expr_texts (numbered_expr right.now))
        (λ number. Then (method_block number (numbered_expr left.now))
        (then_test (WhenNotZero (instead (method_block number (numbered_expr right.now))))))
        table.new code.new) }
    ensures grows { Grows table.old table.new }
    ensures refused { IsErrOf result LowerFault.TooMany
        → Overflows table.old (strings_of_texts (expr_texts (numbered_expr left.now)
        ++ expr_texts (numbered_expr right.now))) }
    ensures longer { OnOk result (length code.old ≤ length code.new) }
{
    write_value(alloc, code, table, left)?;
    put(code, Instruction::Duplicate)?;
    let hole = open(code, Jump::IfZero)?;
    write_instead(alloc, code, table, right)?;
    close(code, hole);
    Ok(())
}

// The truth of one side or the other. The right one follows only where the left one is false.
#[cycle(values)]
#[tactic(auto, using(crate::proofs::NumberedBlocks::writing))]
fn write_or(
    alloc: Global,
    code: &mut Emitter,
    table: &mut Table,
    left: &Expr<Target>,
    right: &Expr<Target>,
) -> Result<(), LowerFault>
    requires left { IsTrue (list_all is_text (expr_texts (numbered_expr left.now))) }
    requires right { IsTrue (list_all is_text (expr_texts (numbered_expr right.now))) }
    ensures sound { OnOk result
        (WritesPart table.old code.old (expr_texts (numbered_expr left.now)
        ++ expr_texts (numbered_expr right.now))
        (λ number. Then (method_block number (numbered_expr left.now))
        (Then truth_block (then_test
        (WhenZero (instead (method_block number (numbered_expr right.now))))))) table.new
        code.new) }
    ensures grows { Grows table.old table.new }
    ensures refused { IsErrOf result LowerFault.TooMany
        → Overflows table.old (strings_of_texts (expr_texts (numbered_expr left.now)
        ++ expr_texts (numbered_expr right.now))) }
    ensures longer { OnOk result (length code.old ≤ length code.new) }
{
    write_value(alloc, code, table, left)?;
    write_truth(code)?;
    put(code, Instruction::Duplicate)?;
    let hole = open(code, Jump::IfNotZero)?;
    write_instead(alloc, code, table, right)?;
    close(code, hole);
    Ok(())
}

// The truth of the right side, in place of the topmost operand.
#[cycle(values)]
#[tactic(auto, using(crate::proofs::NumberedBlocks::writing))]
fn write_instead(
    alloc: Global,
    code: &mut Emitter,
    table: &mut Table,
    right: &Expr<Target>,
) -> Result<(), LowerFault>
    requires { IsTrue (list_all is_text (expr_texts (numbered_expr right.now))) }
    ensures sound { OnOk result
        (WritesPart table.old code.old (expr_texts (numbered_expr right.now))
        (λ number. instead (method_block number (numbered_expr right.now))) table.new code.new) }
    ensures grows { Grows table.old table.new }
    ensures refused { IsErrOf result LowerFault.TooMany
        → Overflows table.old (strings_of_texts (expr_texts (numbered_expr right.now))) }
    ensures longer { OnOk result (length code.old ≤ length code.new) }
{
    put(code, Instruction::Pop)?;
    write_value(alloc, code, table, right)?;
    Ok(write_truth(code)?)
}

// After a test, the expression that it chooses.
#[cycle(values)]
#[tactic(auto, using(crate::proofs::NumberedBlocks::writing))]
fn write_either(
    alloc: Global,
    code: &mut Emitter,
    table: &mut Table,
    first: &Expr<Target>,
    second: &Expr<Target>,
) -> Result<(), LowerFault>
    requires first { IsTrue (list_all is_text (expr_texts (numbered_expr first.now))) }
    requires second { IsTrue (list_all is_text (expr_texts (numbered_expr second.now))) }
    ensures sound { OnOk result
        (WritesPart table.old code.old (expr_texts (numbered_expr first.now)
        ++ expr_texts (numbered_expr second.now))
        (λ number. Either (method_block number (numbered_expr first.now))
        (method_block number (numbered_expr second.now))) table.new code.new) }
    ensures grows { Grows table.old table.new }
    ensures refused { IsErrOf result LowerFault.TooMany
        → Overflows table.old (strings_of_texts (expr_texts (numbered_expr first.now)
        ++ expr_texts (numbered_expr second.now))) }
    ensures longer { OnOk result (length code.old ≤ length code.new) }
{
    let otherwise = open(code, Jump::IfZero)?;
    write_value(alloc, code, table, first)?;
    let end = open(code, Jump::Always)?;
    close(code, otherwise);
    write_value(alloc, code, table, second)?;
    close(code, end);
    Ok(())
}

// A variable is read before the value that it is joined with.
#[cycle(values)]
#[tactic(auto, using(crate::proofs::NumberedBlocks::writing))]
fn write_compound(
    alloc: Global,
    code: &mut Emitter,
    table: &mut Table,
    op: Operator,
    to: Target,
    value: &Expr<Target>,
) -> Result<(), LowerFault>
    requires { IsTrue (list_all is_text (expr_texts (numbered_expr value.now))) }
    ensures sound { OnOk result
        (WritesPart table.old code.old (expr_texts (numbered_expr value.now))
        (λ number. Then (load_block to) (Then (method_block number (numbered_expr value.now))
        (Then (Straight (Instruction.Operate op)) (store_block to)))) table.new code.new) }
    ensures grows { Grows table.old table.new }
    ensures refused { IsErrOf result LowerFault.TooMany
        → Overflows table.old (strings_of_texts (expr_texts (numbered_expr value.now))) }
    ensures longer { OnOk result (length code.old ≤ length code.new) }
{
    write_load(code, to)?;
    write_value(alloc, code, table, value)?;
    put(code, Instruction::Operate(op))?;
    Ok(write_store(code, to)?)
}

// A call. Only functions can be called.
#[cycle(values)]
#[tactic(auto, using(crate::proofs::NumberedBlocks::writing))]
fn write_call(
    alloc: Global,
    code: &mut Emitter,
    table: &mut Table,
    function: Target,
    arguments: &[Argument<Target>],
) -> Result<(), LowerFault>
    requires { IsTrue (list_all is_text
        (argument_texts (arguments_from (map numbered_argument arguments.now)))) }
    ensures sound { OnOk result
        (WritesPart table.old code.old
        (argument_texts (arguments_from (map numbered_argument arguments.now)))
        (λ number. method_block number
        (Call function (arguments_from (map numbered_argument arguments.now)))) table.new
        code.new) }
    ensures grows { Grows table.old table.new }
    ensures refused { IsErrOf result LowerFault.TooMany
        → Overflows table.old (strings_of_texts
        (argument_texts (arguments_from (map numbered_argument arguments.now)))) }
    ensures longer { OnOk result (length code.old ≤ length code.new) }
{
    match function {
        Target::Function(f) => write_builtin(alloc, code, table, f, arguments),
        Target::Local(_) => write_misfit(alloc, code, table, arguments),
        Target::Item(_) => write_misfit(alloc, code, table, arguments),
    }
}

// A call of a function, with its numbers in their order.
#[cycle(values)]
#[tactic(auto, using(crate::proofs::NumberedBlocks::writing))]
fn write_builtin(
    alloc: Global,
    code: &mut Emitter,
    table: &mut Table,
    f: Builtin,
    arguments: &[Argument<Target>],
) -> Result<(), LowerFault>
    requires { IsTrue (list_all is_text
        (argument_texts (arguments_from (map numbered_argument arguments.now)))) }
    ensures sound { OnOk result
        (WritesPart table.old code.old
        (argument_texts (arguments_from (map numbered_argument arguments.now)))
        (λ number. call_block number f (arguments_from (map numbered_argument arguments.now)))
        table.new code.new) }
    ensures grows { Grows table.old table.new }
    ensures refused { IsErrOf result LowerFault.TooMany
        → Overflows table.old (strings_of_texts
        (argument_texts (arguments_from (map numbered_argument arguments.now)))) }
    ensures longer { OnOk result (length code.old ≤ length code.new) }
{
    match f {
        Builtin::Ask(kind) => write_ask(alloc, code, table, kind, arguments),
        Builtin::IvarValue => write_only(alloc, code, table, arguments),
        Builtin::LvarValue => write_only(alloc, code, table, arguments),
        Builtin::Iassign => write_assigned(alloc, code, table, arguments),
        Builtin::Lassign => write_assigned(alloc, code, table, arguments),
        Builtin::Abort => write_alone(alloc, code, table, Instruction::Abort, arguments),
        Builtin::ProcessAbort => write_alone(alloc, code, table, Instruction::Abort, arguments),
        Builtin::AddAbortMethod => write_abort_method(alloc, code, table, arguments),
    }
}

// A request: its numbers in their order, and the instruction, which names its texts and its
// variable.
#[cycle(values)]
#[tactic(auto, using(crate::proofs::NumberedBlocks::writing))]
fn write_ask(
    alloc: Global,
    code: &mut Emitter,
    table: &mut Table,
    kind: RequestKind,
    arguments: &[Argument<Target>],
) -> Result<(), LowerFault>
    requires { IsTrue (list_all is_text
        (argument_texts (arguments_from (map numbered_argument arguments.now)))) }
    ensures sound { OnOk result
        (WritesPart table.old code.old
        (argument_texts (arguments_from (map numbered_argument arguments.now)))
        (λ number. call_block number (Builtin.Ask kind)
        (arguments_from (map numbered_argument arguments.now))) table.new code.new) }
    ensures grows { Grows table.old table.new }
    ensures refused { IsErrOf result LowerFault.TooMany
        → Overflows table.old (strings_of_texts
        (argument_texts (arguments_from (map numbered_argument arguments.now)))) }
    ensures longer { OnOk result (length code.old ≤ length code.new) }
{
    if !all_fit(kind.parameters(), arguments) {
        return write_misfit(alloc, code, table, arguments);
    }
    let ask = write_arguments(alloc, code, table, kind, kind.parameters(), arguments)?;
    Ok(put(code, Instruction::Ask(ask))?)
}

// The numbers among the arguments of a request. It answers the instruction with what it names.
#[cycle(values)]
#[tactic(auto, using(crate::proofs::NumberedBlocks::writing))]
fn write_arguments(
    alloc: Global,
    code: &mut Emitter,
    table: &mut Table,
    kind: RequestKind,
    parameters: &[Parameter],
    arguments: &[Argument<Target>],
) -> Result<Ask, LowerFault>
    requires few { length parameters.now ≤ 2 }
    requires fits { IsTrue (all_fit parameters.now
        (arguments_from (map numbered_argument arguments.now))) }
    requires texts { IsTrue (list_all is_text
        (argument_texts (arguments_from (map numbered_argument arguments.now)))) }
    ensures sound { OnOk result
        (WritesPart table.old code.old
        (argument_texts (arguments_from (map numbered_argument arguments.now)))
        (λ number. numbers_block parameters.now (argument_blocks number
        (arguments_from (map numbered_argument arguments.now)))) table.new code.new) }
    ensures named { IfOk result (ByNumber table.old table.new (λ number. asking kind
        (names_of number parameters.now (arguments_from (map numbered_argument arguments.now))))) }
    ensures grows { Grows table.old table.new }
    ensures refused { IsErrOf result LowerFault.TooMany
        → Overflows table.old (strings_of_texts
        (argument_texts (arguments_from (map numbered_argument arguments.now)))) }
    ensures longer { OnOk result (length code.old ≤ length code.new) }
{
    match arguments {
        [] => Ok(Ask {
            kind,
            first: 0,
            second: 0,
        }),
        [argument, rest @ ..] => match parameters {
            [] => unreachable!(),
            [parameter, more @ ..] => {
                let name = write_argument(alloc, code, table, *parameter, argument)?;
                let ask = write_arguments(alloc, code, table, kind, more, rest)?;
                Ok(named_before(name, ask))
            }
        },
    }
}

// An argument of a request, where it is a number. It answers what the instruction names of it.
#[cycle(values)]
#[tactic(auto, using(crate::proofs::NumberedBlocks::writing))]
fn write_argument(
    alloc: Global,
    code: &mut Emitter,
    table: &mut Table,
    parameter: Parameter,
    argument: &Argument<Target>,
) -> Result<Option<u16>, LowerFault>
    requires fits { IsTrue (fits parameter (numbered_argument argument.now)) }
    requires texts { IsTrue (list_all is_text
        (argument_texts (arguments_from (numbered_argument argument.now ∷ [])))) }
    ensures sound { OnOk result
        (WritesPart table.old code.old
        (argument_texts (arguments_from (numbered_argument argument.now ∷ [])))
        (λ number. number_block parameter
        (argument_block number (numbered_argument argument.now))) table.new code.new) }
    ensures named { IfOk result (λ name. ByNumber table.old table.new
        (λ number. named_one number (numbered_argument argument.now) parameter)
        (option_to_list name)) }
    ensures grows { Grows table.old table.new }
    ensures refused { IsErrOf result LowerFault.TooMany
        → Overflows table.old (strings_of_texts
        (argument_texts (arguments_from (numbered_argument argument.now ∷ [])))) }
    ensures longer { OnOk result (length code.old ≤ length code.new) }
{
    match argument {
        Argument::Text(text) => Ok(Some(add_text(alloc, table, text)?.0)),
        Argument::Value(e) => match parameter {
            Parameter::Number => {
                write_value(alloc, code, table, e)?;
                Ok(None)
            }
            _ => Ok(variable_number(argument)),
        },
    }
}

// The value of a variable, which a function gives as it is.
#[cycle(values)]
#[tactic(auto, using(crate::proofs::NumberedBlocks::writing))]
fn write_only(
    alloc: Global,
    code: &mut Emitter,
    table: &mut Table,
    arguments: &[Argument<Target>],
) -> Result<(), LowerFault>
    requires { IsTrue (list_all is_text
        (argument_texts (arguments_from (map numbered_argument arguments.now)))) }
    ensures sound { OnOk result
        (WritesPart table.old code.old
        (argument_texts (arguments_from (map numbered_argument arguments.now)))
        (λ number. call_block number Builtin.IvarValue
        (arguments_from (map numbered_argument arguments.now))) table.new code.new) }
    ensures grows { Grows table.old table.new }
    ensures refused { IsErrOf result LowerFault.TooMany
        → Overflows table.old (strings_of_texts
        (argument_texts (arguments_from (map numbered_argument arguments.now)))) }
    ensures longer { OnOk result (length code.old ≤ length code.new) }
{
    match only_value(arguments) {
        Some(e) => write_value(alloc, code, table, e),
        None => write_misfit(alloc, code, table, arguments),
    }
}

// An assignment by a function, whose own value is 0.
#[cycle(values)]
#[tactic(auto, using(crate::proofs::NumberedBlocks::writing))]
fn write_assigned(
    alloc: Global,
    code: &mut Emitter,
    table: &mut Table,
    arguments: &[Argument<Target>],
) -> Result<(), LowerFault>
    requires { IsTrue (list_all is_text
        (argument_texts (arguments_from (map numbered_argument arguments.now)))) }
    ensures sound { OnOk result
        (WritesPart table.old code.old
        (argument_texts (arguments_from (map numbered_argument arguments.now)))
        (λ number. call_block number Builtin.Iassign
        (arguments_from (map numbered_argument arguments.now))) table.new code.new) }
    ensures grows { Grows table.old table.new }
    ensures refused { IsErrOf result LowerFault.TooMany
        → Overflows table.old (strings_of_texts
        (argument_texts (arguments_from (map numbered_argument arguments.now)))) }
    ensures longer { OnOk result (length code.old ≤ length code.new) }
{
    match target_and_value(arguments) {
        Some((to, e)) => {
            write_value(alloc, code, table, e)?;
            write_store(code, to)?;
            put(code, Instruction::Pop)?;
            Ok(put(code, Instruction::Push(0))?)
        }
        None => write_misfit(alloc, code, table, arguments),
    }
}
