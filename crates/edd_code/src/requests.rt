//! Calls of functions that take no value, calls that don't fit, and what a request names.

ghost use Rattle.std.specs.Prelude.{◌≡◌, ◌≤◌, IsErrOf, IsTrue, OnOk, length, map};
ghost use Rattle.std.specs.List.{list_all};
ghost use Rattle.edd_syntax.specs.Expression.{arguments_from};
ghost use Rattle.edd_syntax.specs.Strings.{argument_texts, strings_of_texts};
ghost use Rattle.edd_syntax.specs.TreeView.{numbered_argument};
ghost use Rattle.edd_syntax.specs.WellFormed.{is_text};
ghost use Rattle.edd_code.specs.Expressions.{no_value};
ghost use Rattle.edd_code.specs.Arguments.{alone_block, named_before};
ghost use Rattle.edd_code.specs.MethodExpressions.{call_block};
ghost use Rattle.edd_code.specs.Tables.{Grows, Overflows};
ghost use Rattle.edd_code.specs.Written.{WritesPart};

use crate::arguments::only_method;
use crate::emit::put;
use crate::fault::LowerFault;
use crate::texts::add_argument_texts;
use edd_instructions::{Ask, Emitter, Instruction};
use edd_strings::Table;
use edd_syntax::expr::Argument;
use edd_syntax::operators::Builtin;
use edd_syntax::reference::Target;
use std::alloc::Global;

/// Adds the texts among the arguments of a call that doesn't fit. Its value is 0.
#[tactic(auto, using(crate::proofs::NumberedBlocks::writing))]
pub(crate) fn write_misfit(
    alloc: Global,
    code: &mut Emitter,
    table: &mut Table,
    arguments: &[Argument<Target>],
) -> Result<(), LowerFault>
    requires { IsTrue (list_all is_text
        (argument_texts (arguments_from (map numbered_argument arguments.now)))) }
    ensures sound { OnOk result
        (WritesPart table.old code.old
        (argument_texts (arguments_from (map numbered_argument arguments.now))) (λ number. no_value)
        table.new code.new) }
    ensures grows { Grows table.old table.new }
    ensures refused { IsErrOf result LowerFault.TooMany
        → Overflows table.old (strings_of_texts
        (argument_texts (arguments_from (map numbered_argument arguments.now)))) }
    ensures longer { OnOk result (length code.old ≤ length code.new) }
{
    add_argument_texts(alloc, table, arguments)?;
    Ok(put(code, Instruction::Push(0))?)
}

/// An instruction, where no arguments are.
#[tactic(auto, using(crate::proofs::NumberedBlocks::writing))]
pub(crate) fn write_alone(
    alloc: Global,
    code: &mut Emitter,
    table: &mut Table,
    instruction: Instruction,
    arguments: &[Argument<Target>],
) -> Result<(), LowerFault>
    requires { IsTrue (list_all is_text
        (argument_texts (arguments_from (map numbered_argument arguments.now)))) }
    ensures sound { OnOk result
        (WritesPart table.old code.old
        (argument_texts (arguments_from (map numbered_argument arguments.now)))
        (λ number. alone_block instruction (arguments_from (map numbered_argument arguments.now)))
        table.new code.new) }
    ensures grows { Grows table.old table.new }
    ensures refused { IsErrOf result LowerFault.TooMany
        → Overflows table.old (strings_of_texts
        (argument_texts (arguments_from (map numbered_argument arguments.now)))) }
    ensures longer { OnOk result (length code.old ≤ length code.new) }
{
    match arguments {
        [] => Ok(put(code, instruction)?),
        [_, ..] => write_misfit(alloc, code, table, arguments),
    }
}

/// The listing of an abort method.
#[tactic(auto, using(crate::proofs::NumberedBlocks::writing))]
pub(crate) fn write_abort_method(
    alloc: Global,
    code: &mut Emitter,
    table: &mut Table,
    arguments: &[Argument<Target>],
) -> Result<(), LowerFault>
    requires { IsTrue (list_all is_text
        (argument_texts (arguments_from (map numbered_argument arguments.now)))) }
    ensures sound { OnOk result
        (WritesPart table.old code.old
        (argument_texts (arguments_from (map numbered_argument arguments.now)))
        (λ number. call_block number Builtin.AddAbortMethod
        (arguments_from (map numbered_argument arguments.now))) table.new code.new) }
    ensures grows { Grows table.old table.new }
    ensures refused { IsErrOf result LowerFault.TooMany
        → Overflows table.old (strings_of_texts
        (argument_texts (arguments_from (map numbered_argument arguments.now)))) }
    ensures longer { OnOk result (length code.old ≤ length code.new) }
{
    match only_method(arguments) {
        Some(method) => Ok(put(code, Instruction::AddAbortMethod(method))?),
        None => write_misfit(alloc, code, table, arguments),
    }
}

/// The instruction of a request with one more name in front of the others, if there is one.
pub(crate) fn named_before(name: Option<u16>, ask: Ask) -> Ask
    ensures { result ≡ named_before name ask }
{
    match name {
        None => ask,
        Some(name) => Ask {
            kind: ask.kind,
            first: name,
            second: ask.first,
        },
    }
}
