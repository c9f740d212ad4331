//! The code of expressions in statements, and of declarations.

ghost use Rattle.std.specs.Prelude.{◌≡◌, ◌++◌, ◌∷◌, [], length, map, option_map, IsTrue};
ghost use Rattle.std.specs.List.{list_all};
ghost use Rattle.edd_syntax.specs.Expression.{Call, Nil};
ghost use Rattle.edd_syntax.specs.Strings.{expr_texts};
ghost use Rattle.edd_syntax.specs.TreeView.{numbered_declarator, numbered_expr};
ghost use Rattle.edd_syntax.specs.WellFormed.{is_text};
ghost use Rattle.edd_code.specs.Blocks.{bytes_at};
ghost use Rattle.edd_code.specs.MethodExpressions.{method_block};
ghost use Rattle.edd_code.specs.Tables.{AreDifferent};
ghost use Rattle.edd_methods.specs.StatementCode.{alone_block, blocks_by};
ghost use Rattle.edd_methods.specs.TreeCode.{declare_block, first_of, initial_block};
ghost use Rattle.edd_methods.specs.TreeExpressions.{is_abort_call};
ghost use Rattle.edd_methods.specs.Writing.{Lowers, declared_texts, optional_texts};

use edd_code::{LowerFault, put, write_store, write_value};
use edd_instructions::{Emitter, Instruction};
use edd_strings::Table;
use edd_syntax::expr::Expr;
use edd_syntax::operators::Builtin;
use edd_syntax::reference::Target;
use edd_syntax::stmt::Declarator;
use std::alloc::Global;

// No table holds a string twice.
fn see_strings(table: &Table)
    ensures { AreDifferent table.now }
{
    let _strings = table.words();
}

/// The code of an expression, which leaves its value.
pub fn write_one(
    alloc: Global,
    code: &mut Emitter,
    table: &mut Table,
    e: &Expr<Target>,
) -> Result<(), LowerFault>
    requires { IsTrue (list_all is_text (expr_texts (numbered_expr e.now))) }
    ensures { Lowers result table.old (expr_texts (numbered_expr e.now))
        (λ number. code.new ≡ code.old
        ++ bytes_at (length code.old) (method_block number (numbered_expr e.now))) table.new }
{
    see_strings(table);
    write_value(alloc, code, table, e)
}

// A function that aborts where it has no arguments.
fn is_abort(function: Target) -> bool
    ensures { result ≡ is_abort_call (Call function Nil) }
{
    matches!(
        function,
        Target::Function(Builtin::Abort) | Target::Function(Builtin::ProcessAbort)
    )
}

// `abort()` or `process_abort()`.
fn is_abort_call(e: &Expr<Target>) -> bool
    ensures { result ≡ is_abort_call (numbered_expr e.now) }
{
    match e {
        Expr::Call {
            function,
            arguments,
            ..
        } => arguments.is_empty() && is_abort(*function),
        _ => false,
    }
}

/// The code of an expression that is a whole statement, which leaves nothing.
pub fn write_alone(
    alloc: Global,
    code: &mut Emitter,
    table: &mut Table,
    e: &Expr<Target>,
) -> Result<(), LowerFault>
    requires { IsTrue (list_all is_text (expr_texts (numbered_expr e.now))) }
    ensures { Lowers result table.old (expr_texts (numbered_expr e.now))
        (λ number. code.new ≡ code.old
        ++ bytes_at (length code.old) (alone_block (method_block number) (numbered_expr e.now)))
        table.new }
{
    if is_abort_call(e) {
        put(code, Instruction::Abort)?;
        return Ok(());
    }
    write_one(alloc, code, table, e)?;
    put(code, Instruction::Pop)?;
    Ok(())
}

/// The first part of `for`, which may be missing.
pub fn write_first(
    alloc: Global,
    code: &mut Emitter,
    table: &mut Table,
    first: &Option<Expr<Target>>,
) -> Result<(), LowerFault>
    requires { IsTrue (list_all is_text (optional_texts (option_map numbered_expr first.now))) }
    ensures { Lowers result table.old (optional_texts (option_map numbered_expr first.now))
        (λ number. code.new ≡ code.old ++ bytes_at (length code.old)
        (first_of (blocks_by (method_block number)) (option_map numbered_expr first.now)))
        table.new }
{
    match first {
        None => Ok(()),
        Some(e) => write_alone(alloc, code, table, e),
    }
}

// What a declaration sets its slot to.
fn write_initial(
    alloc: Global,
    code: &mut Emitter,
    table: &mut Table,
    value: &Option<Expr<Target>>,
) -> Result<(), LowerFault>
    requires { IsTrue (list_all is_text (optional_texts (option_map numbered_expr value.now))) }
    ensures { Lowers result table.old (optional_texts (option_map numbered_expr value.now))
        (λ number. code.new ≡ code.old ++ bytes_at (length code.old)
        (initial_block (blocks_by (method_block number)) (option_map numbered_expr value.now)))
        table.new }
{
    match value {
        None => {
            put(code, Instruction::Push(0))?;
            Ok(())
        }
        Some(e) => write_one(alloc, code, table, e),
    }
}

fn write_declarator(
    alloc: Global,
    code: &mut Emitter,
    table: &mut Table,
    d: &Declarator<Target>,
) -> Result<(), LowerFault>
    requires { IsTrue (list_all is_text (declared_texts (numbered_declarator d.now ∷ []))) }
    ensures { Lowers result table.old (declared_texts (numbered_declarator d.now ∷ []))
        (λ number. code.new ≡ code.old ++ bytes_at (length code.old)
        (declare_block (blocks_by (method_block number)) (numbered_declarator d.now ∷ [])))
        table.new }
{
    write_initial(alloc, code, table, &d.value)?;
    write_store(code, d.place)?;
    put(code, Instruction::Pop)?;
    Ok(())
}

/// The code of a declaration, which sets the slot of each declarator.
pub fn write_declaration(
    alloc: Global,
    code: &mut Emitter,
    table: &mut Table,
    declarators: &[Declarator<Target>],
) -> Result<(), LowerFault>
    requires { IsTrue (list_all is_text
        (declared_texts (map numbered_declarator declarators.now))) }
    ensures { Lowers result table.old (declared_texts (map numbered_declarator declarators.now))
        (λ number. code.new ≡ code.old ++ bytes_at (length code.old)
        (declare_block (blocks_by (method_block number)) (map numbered_declarator declarators.now)))
        table.new }
{
    for d in declarators {
        write_declarator(alloc, code, table, d)?;
    }
    Ok(())
}
