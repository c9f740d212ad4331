//! `break` and `continue` outside of what they leave.

ghost use Rattle.std.specs.Prelude.{OnOk};
ghost use Rattle.std.specs.List.{flat_map};
ghost use Rattle.edd_breaches.specs.Told.{Tells};
ghost use Rattle.edd_types.specs.Breaks.{breaks_told, breaks_told_of};

use edd_breaches::{Breach, Rule, tell};
use edd_syntax::reference::Target;
use edd_syntax::stmt::{Part, Stmt};
use std::alloc::AllocError;

#[cycle(breaks)]
#[tactic(auto, using(edd_breaches::proofs::TellLaws::tells, edd_breaches::proofs::TellLaws::tells_more))]
fn tell_statement<'a>(
    s: &Stmt<Target>,
    in_loop: bool,
    in_switch: bool,
    told: &mut Vec<Breach<'a>>,
) -> Result<(), AllocError>
    ensures told { OnOk result
        (Tells (breaks_told in_loop in_switch s.now) told.old.items told.new.items) }
{
    match s {
        Stmt::Empty | Stmt::Evaluate(_) | Stmt::Return => Ok(()),
        Stmt::Block(parts) => tell_breaks(parts, in_loop, in_switch, told),
        Stmt::If(_, first) => tell_statement(first, in_loop, in_switch, told),
        Stmt::IfElse(_, first, otherwise) => {
            tell_statement(first, in_loop, in_switch, told)?;
            tell_statement(otherwise, in_loop, in_switch, told)
        }
        Stmt::While(_, body) | Stmt::Do(body, _) | Stmt::For { body, .. } => {
            tell_statement(body, true, in_switch, told)
        }
        Stmt::Switch(_, parts) => tell_breaks(parts, in_loop, true, told),
        Stmt::Break { at } => {
            if in_loop || in_switch {
                return Ok(());
            }
            tell(Rule::BreakOutside, *at, told)
        }
        Stmt::Continue { at } => {
            if in_loop {
                return Ok(());
            }
            tell(Rule::BreakOutside, *at, told)
        }
    }
}

/// Tells of each `break` or `continue` that has nothing to leave.
#[cycle(breaks)]
#[tactic(auto, using(edd_breaches::proofs::TellLaws::tells, edd_breaches::proofs::TellLaws::tells_more))]
pub fn tell_breaks<'a>(
    parts: &[Part<Target>],
    in_loop: bool,
    in_switch: bool,
    told: &mut Vec<Breach<'a>>,
) -> Result<(), AllocError>
    ensures told { OnOk result (Tells (flat_map (breaks_told_of in_loop in_switch) parts.now)
        told.old.items told.new.items) }
{
    for part in parts {
        tell_part(part, in_loop, in_switch, told)?;
    }
    Ok(())
}

#[cycle(breaks)]
#[tactic(auto, using(edd_breaches::proofs::TellLaws::tells, edd_breaches::proofs::TellLaws::tells_more))]
fn tell_part<'a>(
    part: &Part<Target>,
    in_loop: bool,
    in_switch: bool,
    told: &mut Vec<Breach<'a>>,
) -> Result<(), AllocError>
    ensures told { OnOk result
        (Tells (breaks_told_of in_loop in_switch part.now) told.old.items told.new.items) }
{
    match part {
        Part::Declare(_) | Part::CaseLabel { .. } | Part::DefaultLabel { .. } => Ok(()),
        Part::Statement(s) => tell_statement(s, in_loop, in_switch, told),
    }
}
