//! The code of conditionals. A jump is written with an open target, which is closed when the place
//! after is known.

ghost use Rattle.std.specs.Prelude.{◌≡◌, ℕ, ◌+◌, ◌≤◌, ◌++◌, IfOk, IsErrOf, IsTrue, OnOk, length, map, option_map};
ghost use Rattle.std.specs.List.{list_all};
ghost use Rattle.edd_syntax.specs.Conditional.{If, Select, NoArms, ConsArm, arms_from};
ghost use Rattle.edd_syntax.specs.ItemView.{numbered_arm, numbered_cond, numbered_conds};
ghost use Rattle.edd_syntax.specs.SubsetRules.{values_in, values_of, values_under};
ghost use Rattle.edd_syntax.specs.TreeView.{numbered_expr};
ghost use Rattle.edd_code.specs.Tables.{Grows, Overflows};
ghost use Rattle.edd_code.specs.Written.{WritesBlock};
ghost use Rattle.edd_attrs.specs.TreeBlocks.{IsCondBlock, IsCondsBlock, IsDefaultBlock};
ghost use Rattle.edd_attrs.specs.Writing.{WritesArm, WritesArms, WritesBody, arms_strings, cond_strings, conds_strings, default_of, header, headers, hole_of, holes_of};

use crate::elements::Element;
use edd_code::{LowerFault, close, open, put, write_expression};
use edd_instructions::{Emitter, Hole, Instruction, Jump};
use edd_strings::Table;
use edd_syntax::cond::{Arm, Cond};
use edd_syntax::expr::Expr;
use edd_syntax::reference::Target;
use std::alloc::{AllocError, Global};

/// The code of a conditional.
#[cycle(conditions)]
pub fn write_cond<V: Element>(
    alloc: Global,
    code: &mut Emitter,
    table: &mut Table,
    c: &Cond<Target, V>,
) -> Result<(), LowerFault>
    requires { IsTrue (list_all V.is_kept (values_in (numbered_cond V.view c.now))) }
    ensures sound { OnOk result
        (WritesBlock table.old code.old (cond_strings V.strings (numbered_cond V.view c.now))
        (λ numbered b. IsCondBlock (V.is_block numbered) (numbered_cond V.view c.now) b) table.new
        code.new) }
    ensures grows { Grows table.old table.new }
    ensures refused { IsErrOf result LowerFault.TooMany
        → Overflows table.old (cond_strings V.strings (numbered_cond V.view c.now)) }
{
    match c {
        Cond::Value(v) => v.write(alloc, code, table),
        Cond::If {
            condition,
            first,
            otherwise,
        } => write_if(alloc, code, table, condition, first, otherwise),
        Cond::Select { on, arms } => write_select(alloc, code, table, on, arms),
    }
}

#[cycle(conditions)]
fn write_if<V: Element>(
    alloc: Global,
    code: &mut Emitter,
    table: &mut Table,
    condition: &Expr<Target>,
    first: &[Cond<Target, V>],
    otherwise: &[Cond<Target, V>],
) -> Result<(), LowerFault>
    requires first { IsTrue (list_all V.is_kept (values_of (numbered_conds V.view first.now))) }
    requires otherwise { IsTrue
        (list_all V.is_kept (values_of (numbered_conds V.view otherwise.now))) }
    ensures sound { OnOk result (WritesBlock table.old code.old
        (cond_strings V.strings (If (numbered_expr condition.now) (numbered_conds V.view first.now)
        (numbered_conds V.view otherwise.now)))
        (λ numbered b. IsCondBlock (V.is_block numbered)
        (If (numbered_expr condition.now) (numbered_conds V.view first.now)
        (numbered_conds V.view otherwise.now)) b)
        table.new code.new) }
    ensures grows { Grows table.old table.new }
    ensures refused { IsErrOf result LowerFault.TooMany → Overflows table.old
        (cond_strings V.strings (If (numbered_expr condition.now) (numbered_conds V.view first.now)
        (numbered_conds V.view otherwise.now))) }
{
    write_expression(code, condition)?;
    let otherwise_hole = open(code, Jump::IfZero)?;
    write_conds(alloc, code, table, first)?;
    let end_hole = open(code, Jump::Always)?;
    close(code, otherwise_hole);
    write_conds(alloc, code, table, otherwise)?;
    close(code, end_hole);
    Ok(())
}

/// The code of conditionals, one after the other.
#[cycle(conditions)]
pub fn write_conds<V: Element>(
    alloc: Global,
    code: &mut Emitter,
    table: &mut Table,
    all: &[Cond<Target, V>],
) -> Result<(), LowerFault>
    requires { IsTrue (list_all V.is_kept (values_of (numbered_conds V.view all.now))) }
    ensures sound { OnOk result
        (WritesBlock table.old code.old (conds_strings V.strings (numbered_conds V.view all.now))
        (λ numbered b. IsCondsBlock (V.is_block numbered) (numbered_conds V.view all.now) b)
        table.new code.new) }
    ensures grows { Grows table.old table.new }
    ensures refused { IsErrOf result LowerFault.TooMany
        → Overflows table.old (conds_strings V.strings (numbered_conds V.view all.now)) }
{
    for c in all {
        write_cond(alloc, code, table, c)?;
    }
    Ok(())
}

// Each CASE in turn with an open target, what DEFAULT gives, and then the bodies, from the last to
// the first.
#[cycle(conditions)]
fn write_select<V: Element>(
    alloc: Global,
    code: &mut Emitter,
    table: &mut Table,
    on: &Expr<Target>,
    arms: &[Arm<Target, V>],
) -> Result<(), LowerFault>
    requires { IsTrue (list_all V.is_kept
        (values_under (arms_from (map (numbered_arm V.view) arms.now)))) }
    ensures sound { OnOk result
        (WritesBlock table.old code.old
        (arms_strings V.strings (arms_from (map (numbered_arm V.view) arms.now)))
        (λ numbered b. IsCondBlock (V.is_block numbered)
        (Select (numbered_expr on.now) (arms_from (map (numbered_arm V.view) arms.now))) b)
        table.new code.new) }
    ensures grows { Grows table.old table.new }
    ensures refused { IsErrOf result LowerFault.TooMany
        → Overflows table.old (arms_strings V.strings
        (arms_from (map (numbered_arm V.view) arms.now))) }
{
    write_expression(code, on)?;
    let mut holes = open_cases(alloc, code, arms)?;
    put(code, Instruction::Pop)?;
    write_default(alloc, code, table, arms)?;
    write_bodies(alloc, code, table, &mut holes, arms)
}

// A CASE with an open target; DEFAULT has no code of its own.
fn open_arm<V: Element>(
    code: &mut Emitter,
    arm: &Arm<Target, V>,
) -> Result<Option<Hole>, AllocError>
    ensures code { OnOk result (code.new ≡ code.old ++ header (numbered_arm V.view arm.now)) }
    ensures hole { IfOk result
        (λ hole. hole ≡ hole_of (length code.old) (numbered_arm V.view arm.now)) }
{
    match arm {
        Arm::Case { label, .. } => Ok(Some(open(code, Jump::IfLabel(*label))?)),
        Arm::Default { .. } => Ok(None),
    }
}

// The open targets of all arms.
fn open_cases<V: Element>(
    alloc: Global,
    code: &mut Emitter,
    arms: &[Arm<Target, V>],
) -> Result<Vec<Option<Hole>>, AllocError>
    ensures code { OnOk result (code.new ≡ code.old
        ++ headers (map (numbered_arm V.view) arms.now)) }
    ensures holes { IfOk result (λ holes. holes.items
        ≡ holes_of (length code.old) (map (numbered_arm V.view) arms.now)) }
{
    let mut holes = Vec::new(alloc);
    for arm in arms {
        holes.push(open_arm(code, arm)?)?;
    }
    Ok(holes)
}

// The body of an arm that is a DEFAULT.
fn default_in<'a, V: Element>(arm: &'a Arm<Target, V>) -> Option<&'a [Cond<Target, V>]>
    ensures { option_map (λ body. numbered_conds V.view body.now) result
        ≡ default_of (ConsArm (numbered_arm V.view arm.now) NoArms) }
{
    match arm {
        Arm::Case { .. } => None,
        Arm::Default { body, .. } => Some(body),
    }
}

// The body of the first DEFAULT.
fn default_among<'a, V: Element>(arms: &'a [Arm<Target, V>]) -> Option<&'a [Cond<Target, V>]>
    ensures { option_map (λ body. numbered_conds V.view body.now) result
        ≡ default_of (arms_from (map (numbered_arm V.view) arms.now)) }
{
    for arm in arms {
        if let Some(body) = default_in(arm) {
            return Some(body);
        }
    }
    None
}

// What the first DEFAULT gives, wherever it is.
#[cycle(conditions)]
fn write_default<V: Element>(
    alloc: Global,
    code: &mut Emitter,
    table: &mut Table,
    arms: &[Arm<Target, V>],
) -> Result<(), LowerFault>
    requires { IsTrue (list_all V.is_kept
        (values_under (arms_from (map (numbered_arm V.view) arms.now)))) }
    ensures sound { OnOk result
        (WritesBlock table.old code.old
        (arms_strings V.strings (arms_from (map (numbered_arm V.view) arms.now)))
        (λ numbered b. IsDefaultBlock (V.is_block numbered)
        (arms_from (map (numbered_arm V.view) arms.now)) b) table.new code.new) }
    ensures grows { Grows table.old table.new }
    ensures refused { IsErrOf result LowerFault.TooMany
        → Overflows table.old (arms_strings V.strings
        (arms_from (map (numbered_arm V.view) arms.now))) }
{
    match default_among(arms) {
        None => Ok(()),
        Some(body) => write_conds(alloc, code, table, body),
    }
}

// The bodies of all arms, from the last to the first, whose CASEs have these open targets.
#[cycle(conditions)]
fn write_bodies<V: Element>(
    alloc: Global,
    code: &mut Emitter,
    table: &mut Table,
    holes: &mut Vec<Option<Hole>>,
    arms: &[Arm<Target, V>],
) -> Result<(), LowerFault>
    requires kept { IsTrue (list_all V.is_kept
        (values_under (arms_from (map (numbered_arm V.view) arms.now)))) }
    requires holes { (place : ℕ)
        × (holes.old.items ≡ holes_of place (map (numbered_arm V.view) arms.now))
        × (place + length (headers (map (numbered_arm V.view) arms.now)) ≤ length code.old) }
    ensures sound { OnOk result
        (WritesArms V.strings V.is_block table.old code.old holes.old.items
        (map (numbered_arm V.view) arms.now) table.new code.new) }
    ensures grows { Grows table.old table.new }
    ensures refused { IsErrOf result LowerFault.TooMany
        → Overflows table.old (arms_strings V.strings
        (arms_from (map (numbered_arm V.view) arms.now))) }
{
    let mut left = arms.len();
    while left > 0 {
        left -= 1;
        let Some(hole) = holes.pop() else {
            unreachable!();
        };
        write_arm(alloc, code, table, hole, &arms[left])?;
    }
    Ok(())
}

// The body of an arm, whose CASE has this open target.
#[cycle(conditions)]
fn write_arm<V: Element>(
    alloc: Global,
    code: &mut Emitter,
    table: &mut Table,
    hole: Option<Hole>,
    arm: &Arm<Target, V>,
) -> Result<(), LowerFault>
    requires kept { IsTrue (list_all V.is_kept
        (values_under (ConsArm (numbered_arm V.view arm.now) NoArms))) }
    requires hole { (place : ℕ) × (hole ≡ hole_of place (numbered_arm V.view arm.now))
        × (place + length (header (numbered_arm V.view arm.now)) ≤ length code.old) }
    ensures sound { OnOk result (WritesArm V.strings V.is_block table.old code.old hole
        (numbered_arm V.view arm.now) table.new code.new) }
    ensures grows { Grows table.old table.new }
    ensures refused { IsErrOf result LowerFault.TooMany
        → Overflows table.old (arms_strings V.strings
        (ConsArm (numbered_arm V.view arm.now) NoArms)) }
{
    match (arm, hole) {
        (Arm::Case { body, .. }, Some(hole)) => write_body(alloc, code, table, hole, body),
        (Arm::Case { .. }, None) => unreachable!(),
        (Arm::Default { .. }, _) => Ok(()),
    }
}

// A jump over the body, which is the target of its CASE.
#[cycle(conditions)]
fn write_body<V: Element>(
    alloc: Global,
    code: &mut Emitter,
    table: &mut Table,
    case_hole: Hole,
    body: &[Cond<Target, V>],
) -> Result<(), LowerFault>
    requires kept { IsTrue (list_all V.is_kept (values_of (numbered_conds V.view body.now))) }
    requires inside { case_hole + 4 ≤ length code.old }
    ensures sound { OnOk result
        (WritesBody table.old code.old case_hole
        (conds_strings V.strings (numbered_conds V.view body.now))
        (λ numbered b. IsCondsBlock (V.is_block numbered) (numbered_conds V.view body.now) b)
        table.new code.new) }
    ensures grows { Grows table.old table.new }
    ensures refused { IsErrOf result LowerFault.TooMany
        → Overflows table.old (conds_strings V.strings (numbered_conds V.view body.now)) }
{
    let jump_hole = open(code, Jump::Always)?;
    close(code, case_hole);
    write_conds(alloc, code, table, body)?;
    close(code, jump_hole);
    Ok(())
}
