//! The code of statements. Each jump in it leads to a place that is known by then, or is closed
//! when the place after them is known.

ghost use Rattle.std.specs.Prelude.{◌≡◌, ℕ, ◌∷◌, [], ◌++◌, length, map, IsErrOf, IsTrue, OnOk};
ghost use Rattle.std.specs.List.{flat_map, list_all};
ghost use Rattle.edd_syntax.specs.Statement.{body_from};
ghost use Rattle.edd_syntax.specs.Strings.{expr_texts, strings_of_texts};
ghost use Rattle.edd_syntax.specs.SubsetRules.{body_expressions};
ghost use Rattle.edd_syntax.specs.TreeView.{numbered_expr, numbered_part, numbered_stmt};
ghost use Rattle.edd_syntax.specs.WellFormed.{is_text};
ghost use Rattle.edd_instructions.specs.declared.instruction.Instruction.TheVariants.{End};
ghost use Rattle.edd_code.specs.MethodExpressions.{method_block};
ghost use Rattle.edd_code.specs.Tables.{Grows, Overflows};
ghost use Rattle.edd_code.specs.Written.{WritesNumbered};
ghost use Rattle.edd_methods.specs.Labels.{NotesArms};
ghost use Rattle.edd_methods.specs.LoopParts.{loop_part, loop_texts};
ghost use Rattle.edd_methods.specs.StatementCode.{blocks_by, body_code, statement_code};
ghost use Rattle.edd_methods.specs.Statements.{Branch, Guard, Loop, Switch, bytes_at};
ghost use Rattle.edd_methods.specs.TreeCode.{arms_of};
ghost use Rattle.edd_methods.specs.Writing.{EndsBy, JumpsTo, Lowers, body_texts, statement_texts};

use crate::labels::{Labels, default_or, note, write_tests};
use crate::loops::{LoopPart, last_of, test_of, write_loop_part};
use crate::pieces::{write_alone, write_declaration, write_first, write_one};
use edd_code::{LowerFault, close, open, put};
use edd_instructions::{Emitter, Instruction, Jump};
use edd_strings::Table;
use edd_syntax::expr::Expr;
use edd_syntax::reference::Target;
use edd_syntax::stmt::{Part, Stmt};
use std::alloc::Global;

/// The places to which `break` and `continue` lead.
#[derive(Clone, Copy)]
pub struct Leads {
    pub out: u32,
    pub back: u32,
}

/// The code of a body.
pub fn write_body(
    alloc: Global,
    code: &mut Emitter,
    table: &mut Table,
    leads: Leads,
    body: &[Part<Target>],
) -> Result<(), LowerFault>
    requires texts { IsTrue (list_all is_text (flat_map (λ p. expr_texts p.expression)
        (body_expressions (body_from (map numbered_part body.now))))) }
    ensures sound { OnOk result (WritesNumbered table.old code.old
        (strings_of_texts (flat_map (λ p. expr_texts p.expression)
        (body_expressions (body_from (map numbered_part body.now)))))
        (λ number place. bytes_at place leads.out leads.back
        (body_code (method_block number) (body_from (map numbered_part body.now))))
        table.new code.new) }
    ensures grows { Grows table.old table.new }
    ensures refused { IsErrOf result LowerFault.TooMany → Overflows table.old
        (strings_of_texts (flat_map (λ p. expr_texts p.expression)
        (body_expressions (body_from (map numbered_part body.now))))) }
{
    write_parts(alloc, code, table, leads, body)
}

#[cycle(statements)]
fn write_parts(
    alloc: Global,
    code: &mut Emitter,
    table: &mut Table,
    leads: Leads,
    body: &[Part<Target>],
) -> Result<(), LowerFault>
    requires { IsTrue (list_all is_text (body_texts (body_from (map numbered_part body.now)))) }
    ensures { Lowers result table.old (body_texts (body_from (map numbered_part body.now)))
        (λ number. code.new ≡ code.old ++ bytes_at (length code.old) leads.out leads.back
        (body_code (method_block number) (body_from (map numbered_part body.now)))) table.new }
{
    for part in body {
        write_part(alloc, code, table, leads, part)?;
    }
    Ok(())
}

// A label has no code of its own.
#[cycle(statements)]
fn write_part(
    alloc: Global,
    code: &mut Emitter,
    table: &mut Table,
    leads: Leads,
    part: &Part<Target>,
) -> Result<(), LowerFault>
    requires { IsTrue (list_all is_text (body_texts (body_from (numbered_part part.now ∷ [])))) }
    ensures { Lowers result table.old (body_texts (body_from (numbered_part part.now ∷ [])))
        (λ number. code.new ≡ code.old ++ bytes_at (length code.old) leads.out leads.back
        (body_code (method_block number) (body_from (numbered_part part.now ∷ [])))) table.new }
{
    match part {
        Part::Declare(declarators) => write_declaration(alloc, code, table, declarators),
        Part::Statement(x) => write_statement(alloc, code, table, leads, x),
        Part::CaseLabel { .. } | Part::DefaultLabel { .. } => Ok(()),
    }
}

#[cycle(statements)]
fn write_statement(
    alloc: Global,
    code: &mut Emitter,
    table: &mut Table,
    leads: Leads,
    x: &Stmt<Target>,
) -> Result<(), LowerFault>
    requires { IsTrue (list_all is_text (statement_texts (numbered_stmt x.now))) }
    ensures { Lowers result table.old (statement_texts (numbered_stmt x.now))
        (λ number. code.new ≡ code.old ++ bytes_at (length code.old) leads.out leads.back
        (statement_code (method_block number) (numbered_stmt x.now))) table.new }
{
    match x {
        Stmt::Empty => Ok(()),
        Stmt::Evaluate(e) => write_alone(alloc, code, table, e),
        Stmt::Block(parts) => write_parts(alloc, code, table, leads, parts),
        Stmt::If(condition, first) => write_if(alloc, code, table, leads, condition, first),
        Stmt::IfElse(condition, first, otherwise) => {
            write_if_else(alloc, code, table, leads, condition, first, otherwise)
        }
        Stmt::While(condition, body) => {
            let test = LoopPart::Test(condition);
            write_loop(alloc, code, table, test, LoopPart::Missing, body)
        }
        Stmt::Do(body, condition) => {
            let test = LoopPart::Test(condition);
            write_loop(alloc, code, table, LoopPart::Missing, test, body)
        }
        Stmt::For {
            initial,
            condition,
            update,
            body,
        } => {
            write_first(alloc, code, table, initial)?;
            write_loop(
                alloc,
                code,
                table,
                test_of(condition),
                last_of(update),
                body,
            )
        }
        Stmt::Switch(on, parts) => write_switch(alloc, code, table, leads, on, parts),
        Stmt::Break { .. } => write_jump(code, leads.out),
        Stmt::Continue { .. } => write_jump(code, leads.back),
        Stmt::Return => write_return(code),
    }
}

fn write_jump(code: &mut Emitter, to: u32) -> Result<(), LowerFault>
    ensures { JumpsTo result code.old to code.new }
{
    put(code, Instruction::Jump(to))?;
    Ok(())
}

fn write_return(code: &mut Emitter) -> Result<(), LowerFault>
    ensures { EndsBy result code.old End code.new }
{
    put(code, Instruction::End)?;
    Ok(())
}

#[cycle(statements)]
fn write_if(
    alloc: Global,
    code: &mut Emitter,
    table: &mut Table,
    leads: Leads,
    condition: &Expr<Target>,
    first: &Stmt<Target>,
) -> Result<(), LowerFault>
    requires condition { IsTrue (list_all is_text (expr_texts (numbered_expr condition.now))) }
    requires first { IsTrue (list_all is_text (statement_texts (numbered_stmt first.now))) }
    ensures { Lowers result table.old (expr_texts (numbered_expr condition.now)
        ++ statement_texts (numbered_stmt first.now))
        (λ number. code.new ≡ code.old ++ bytes_at (length code.old) leads.out leads.back
        (Guard (method_block number (numbered_expr condition.now))
        (statement_code (method_block number) (numbered_stmt first.now)))) table.new }
{
    write_one(alloc, code, table, condition)?;
    let end = open(code, Jump::IfZero)?;
    write_statement(alloc, code, table, leads, first)?;
    close(code, end);
    Ok(())
}

#[cycle(statements)]
fn write_if_else(
    alloc: Global,
    code: &mut Emitter,
    table: &mut Table,
    leads: Leads,
    condition: &Expr<Target>,
    first: &Stmt<Target>,
    otherwise: &Stmt<Target>,
) -> Result<(), LowerFault>
    requires condition { IsTrue (list_all is_text (expr_texts (numbered_expr condition.now))) }
    requires first { IsTrue (list_all is_text (statement_texts (numbered_stmt first.now))) }
    requires otherwise { IsTrue (list_all is_text (statement_texts (numbered_stmt otherwise.now))) }
    ensures { Lowers result table.old (expr_texts (numbered_expr condition.now)
        ++ (statement_texts (numbered_stmt first.now)
        ++ statement_texts (numbered_stmt otherwise.now)))
        (λ number. code.new ≡ code.old ++ bytes_at (length code.old) leads.out leads.back
        (Branch (method_block number (numbered_expr condition.now))
        (statement_code (method_block number) (numbered_stmt first.now))
        (statement_code (method_block number) (numbered_stmt otherwise.now)))) table.new }
{
    write_one(alloc, code, table, condition)?;
    let otherwise_hole = open(code, Jump::IfZero)?;
    write_statement(alloc, code, table, leads, first)?;
    let end_hole = open(code, Jump::Always)?;
    close(code, otherwise_hole);
    write_statement(alloc, code, table, leads, otherwise)?;
    close(code, end_hole);
    Ok(())
}

// A jump to the front; out, which is a jump to the end; the back; the front; the body, and a jump
// to the back.
#[cycle(statements)]
fn write_loop(
    alloc: Global,
    code: &mut Emitter,
    table: &mut Table,
    front: LoopPart,
    back: LoopPart,
    body: &Stmt<Target>,
) -> Result<(), LowerFault>
    requires front { IsTrue (list_all is_text (loop_texts front)) }
    requires back { IsTrue (list_all is_text (loop_texts back)) }
    requires body { IsTrue (list_all is_text (statement_texts (numbered_stmt body.now))) }
    ensures { (out : ℕ) → (again : ℕ)
        → Lowers result table.old (loop_texts front.entry
        ++ (loop_texts back.entry ++ statement_texts (numbered_stmt body.now)))
        (λ number. code.new ≡ code.old ++ bytes_at (length code.old) out again
        (Loop (loop_part (method_block number) front.entry)
        (loop_part (method_block number) back.entry)
        (statement_code (method_block number) (numbered_stmt body.now)))) table.new }
{
    let entry = open(code, Jump::Always)?;
    let out = code.place();
    let end = open(code, Jump::Always)?;
    let again = code.place();
    write_loop_part(alloc, code, table, out, back)?;
    close(code, entry);
    write_loop_part(alloc, code, table, out, front)?;
    let leads = Leads { out, back: again };
    write_statement(alloc, code, table, leads, body)?;
    put(code, Instruction::Jump(again))?;
    close(code, end);
    Ok(())
}

// The value; a jump to the tests; out, which is a jump to the end; the statements, and a jump out;
// the tests of the labels, and where none is met a jump to the default or out.
#[cycle(statements)]
fn write_switch(
    alloc: Global,
    code: &mut Emitter,
    table: &mut Table,
    leads: Leads,
    on: &Expr<Target>,
    parts: &[Part<Target>],
) -> Result<(), LowerFault>
    requires on { IsTrue (list_all is_text (expr_texts (numbered_expr on.now))) }
    requires parts { IsTrue (list_all is_text
        (body_texts (body_from (map numbered_part parts.now)))) }
    ensures { Lowers result table.old (expr_texts (numbered_expr on.now)
        ++ body_texts (body_from (map numbered_part parts.now)))
        (λ number. code.new ≡ code.old ++ bytes_at (length code.old) leads.out leads.back
        (Switch (method_block number (numbered_expr on.now))
        (arms_of (blocks_by (method_block number)) (body_from (map numbered_part parts.now)))))
        table.new }
{
    write_one(alloc, code, table, on)?;
    let tests = open(code, Jump::Always)?;
    let out = code.place();
    let end = open(code, Jump::Always)?;
    let mut labels = Labels::new(alloc);
    let back = leads.back;
    write_arms(alloc, code, table, Leads { out, back }, &mut labels, parts)?;
    put(code, Instruction::Jump(out))?;
    close(code, tests);
    write_tests(code, &labels.cases)?;
    put(code, Instruction::Pop)?;
    put(code, Instruction::Jump(default_or(out, labels.default)))?;
    close(code, end);
    Ok(())
}

// The statements of a switch, while its labels are noted.
#[cycle(statements)]
fn write_arms(
    alloc: Global,
    code: &mut Emitter,
    table: &mut Table,
    leads: Leads,
    labels: &mut Labels,
    parts: &[Part<Target>],
) -> Result<(), LowerFault>
    requires { IsTrue (list_all is_text (body_texts (body_from (map numbered_part parts.now)))) }
    ensures { Lowers result table.old (body_texts (body_from (map numbered_part parts.now)))
        (λ number. NotesArms code.old labels.old leads.out leads.back
        (arms_of (blocks_by (method_block number)) (body_from (map numbered_part parts.now)))
        code.new labels.new) table.new }
{
    for part in parts {
        note(labels, part, code.place())?;
        write_part(alloc, code, table, leads, part)?;
    }
    Ok(())
}
