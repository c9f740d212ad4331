//! Calls and decimals in the expressions of statements.

ghost use Rattle.std.specs.Prelude.{OnOk};
ghost use Rattle.std.specs.List.{flat_map};
ghost use Rattle.edd_breaches.specs.Told.{Tells};
ghost use Rattle.edd_types.specs.Expressions.{optional_told, stmt_told, part_told};

use crate::expressions::tell_expression;
use crate::sought::Sought;
use edd_breaches::Breach;
use edd_syntax::expr::Expr;
use edd_syntax::reference::Target;
use edd_syntax::stmt::{Declarator, Part, Stmt};
use std::alloc::AllocError;

#[tactic(auto, using(edd_breaches::proofs::TellLaws::tells))]
fn tell_optional<'a>(
    e: &Option<Expr<Target>>,
    sought: Sought,
    told: &mut Vec<Breach<'a>>,
) -> Result<(), AllocError>
    ensures told { OnOk result (Tells (optional_told sought e.now) told.old.items told.new.items) }
{
    match e {
        None => Ok(()),
        Some(e) => tell_expression(e, sought, false, told),
    }
}

#[cycle(statements)]
#[tactic(auto, using(edd_breaches::proofs::TellLaws::tells, edd_breaches::proofs::TellLaws::tells_more))]
fn tell_statement<'a>(
    s: &Stmt<Target>,
    sought: Sought,
    told: &mut Vec<Breach<'a>>,
) -> Result<(), AllocError>
    ensures told { OnOk result (Tells (stmt_told sought s.now) told.old.items told.new.items) }
{
    match s {
        Stmt::Empty | Stmt::Break { .. } | Stmt::Continue { .. } | Stmt::Return => Ok(()),
        Stmt::Evaluate(e) => tell_expression(e, sought, true, told),
        Stmt::Block(parts) => tell_parts(parts, sought, told),
        Stmt::If(test, body) | Stmt::While(test, body) => {
            tell_expression(test, sought, false, told)?;
            tell_statement(body, sought, told)
        }
        Stmt::IfElse(test, first, otherwise) => {
            tell_expression(test, sought, false, told)?;
            tell_statement(first, sought, told)?;
            tell_statement(otherwise, sought, told)
        }
        Stmt::Do(body, test) => {
            tell_statement(body, sought, told)?;
            tell_expression(test, sought, false, told)
        }
        Stmt::For {
            initial,
            condition,
            update,
            body,
        } => {
            tell_optional(initial, sought, told)?;
            tell_optional(condition, sought, told)?;
            tell_optional(update, sought, told)?;
            tell_statement(body, sought, told)
        }
        Stmt::Switch(on, parts) => {
            tell_expression(on, sought, false, told)?;
            tell_parts(parts, sought, told)
        }
    }
}

/// Tells of such breaches in a body.
#[cycle(statements)]
#[tactic(auto, using(edd_breaches::proofs::TellLaws::tells, edd_breaches::proofs::TellLaws::tells_more))]
pub fn tell_parts<'a>(
    parts: &[Part<Target>],
    sought: Sought,
    told: &mut Vec<Breach<'a>>,
) -> Result<(), AllocError>
    ensures told { OnOk result
        (Tells (flat_map (part_told sought) parts.now) told.old.items told.new.items) }
{
    for part in parts {
        tell_part(part, sought, told)?;
    }
    Ok(())
}

#[cycle(statements)]
#[tactic(auto, using(edd_breaches::proofs::TellLaws::tells, edd_breaches::proofs::TellLaws::tells_more))]
fn tell_part<'a>(
    part: &Part<Target>,
    sought: Sought,
    told: &mut Vec<Breach<'a>>,
) -> Result<(), AllocError>
    ensures told { OnOk result (Tells (part_told sought part.now) told.old.items told.new.items) }
{
    match part {
        Part::Declare(declarators) => tell_declarators(declarators, sought, told),
        Part::Statement(s) => tell_statement(s, sought, told),
        Part::CaseLabel { .. } | Part::DefaultLabel { .. } => Ok(()),
    }
}

#[tactic(auto, using(edd_breaches::proofs::TellLaws::tells, edd_breaches::proofs::TellLaws::tells_more))]
fn tell_declarators<'a>(
    declarators: &[Declarator<Target>],
    sought: Sought,
    told: &mut Vec<Breach<'a>>,
) -> Result<(), AllocError>
    ensures told { OnOk result (Tells (flat_map (λ d. optional_told sought d.value) declarators.now)
        told.old.items told.new.items) }
{
    for d in declarators {
        tell_optional(&d.value, sought, told)?;
    }
    Ok(())
}
