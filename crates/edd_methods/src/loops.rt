//! The parts of a loop in front of its turns and after them.

ghost use Rattle.std.specs.Prelude.{◌≡◌, ◌++◌, length, option_map, IsTrue};
ghost use Rattle.std.specs.List.{list_all};
ghost use Rattle.edd_syntax.specs.TreeView.{numbered_expr};
ghost use Rattle.edd_syntax.specs.WellFormed.{is_text};
ghost use Rattle.edd_code.specs.MethodExpressions.{method_block};
ghost use Rattle.edd_methods.specs.LoopParts.{IsLoopPart, loop_part, loop_texts};
ghost use Rattle.edd_methods.specs.StatementCode.{blocks_by};
ghost use Rattle.edd_methods.specs.TreeCode.{last_of, test_of};
ghost use Rattle.edd_methods.specs.Writing.{Lowers, optional_texts, part_bytes};

use crate::pieces::{write_alone, write_one};
use edd_code::{LowerFault, put};
use edd_instructions::{Emitter, Instruction};
use edd_strings::Table;
use edd_syntax::expr::Expr;
use edd_syntax::reference::Target;
use std::alloc::Global;

/// A part of a loop: it leaves nothing, or a value with which the loop goes on where it isn't 0.
#[derive(Clone, Copy)]
pub enum LoopPart<'a> {
    Missing,
    Step(&'a Expr<Target>),
    Test(&'a Expr<Target>),
}

/// The test of `for`.
pub fn test_of<'a>(e: &'a Option<Expr<Target>>) -> LoopPart<'a>
    ensures texts { loop_texts result ≡ optional_texts (option_map numbered_expr e.now) }
    ensures part { IsLoopPart result
        (λ block_of. test_of (blocks_by block_of) (option_map numbered_expr e.now)) }
{
    match e {
        None => LoopPart::Missing,
        Some(e) => LoopPart::Test(e),
    }
}

/// What ends a turn of `for`.
pub fn last_of<'a>(e: &'a Option<Expr<Target>>) -> LoopPart<'a>
    ensures texts { loop_texts result ≡ optional_texts (option_map numbered_expr e.now) }
    ensures part { IsLoopPart result
        (λ block_of. last_of (blocks_by block_of) (option_map numbered_expr e.now)) }
{
    match e {
        None => LoopPart::Missing,
        Some(e) => LoopPart::Step(e),
    }
}

/// The code of a part of a loop that is left by a jump to `out`.
pub fn write_loop_part(
    alloc: Global,
    code: &mut Emitter,
    table: &mut Table,
    out: u32,
    part: LoopPart,
) -> Result<(), LowerFault>
    requires { IsTrue (list_all is_text (loop_texts part)) }
    ensures { Lowers result table.old (loop_texts part.entry)
        (λ number. code.new ≡ code.old ++ part_bytes (length code.old) out
        (loop_part (method_block number) part.entry)) table.new }
{
    match part {
        LoopPart::Missing => Ok(()),
        LoopPart::Step(e) => write_alone(alloc, code, table, e),
        LoopPart::Test(e) => {
            write_one(alloc, code, table, e)?;
            put(code, Instruction::JumpIfZero(out))?;
            Ok(())
        }
    }
}
