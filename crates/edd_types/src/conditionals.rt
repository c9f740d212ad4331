//! Breaches under conditions.

ghost use Rattle.std.specs.Prelude.{◌≡◌, false, is_some, OnOk};
ghost use Rattle.std.specs.List.{flat_map};
ghost use Rattle.edd_breaches.specs.Told.{Tells};
ghost use Rattle.edd_breaches.specs.Along.{told_along};
ghost use Rattle.edd_types.specs.Conditionals.{default_told, has_default, cond_told, arm_told};

use crate::expressions::tell_condition;
use crate::sought::Sought;
use crate::values::TellValue;
use edd_breaches::{Breach, Rule, tell_clash};
use edd_syntax::cond::{Arm, Cond};
use edd_syntax::numbers::TokenNo;
use edd_syntax::reference::Target;
use std::alloc::AllocError;

/// Tells of such breaches in a single value.
#[cycle(conditionals)]
#[tactic(auto, using(crate::proofs::ConditionRows::walks))]
pub fn tell_cond<'a, V: TellValue>(
    c: &Cond<Target, V>,
    sought: Sought,
    told: &mut Vec<Breach<'a>>,
) -> Result<(), AllocError>
    ensures told { OnOk result
        (Tells (cond_told sought (V.told_in sought) c.now) told.old.items told.new.items) }
{
    match c {
        Cond::Value(v) => v.tell_value(sought, told),
        Cond::If {
            condition,
            first,
            otherwise,
        } => {
            tell_condition(condition, sought, told)?;
            tell_conds(first, sought, told)?;
            tell_conds(otherwise, sought, told)
        }
        Cond::Select { on, arms } => {
            tell_condition(on, sought, told)?;
            tell_arms(arms, sought, told)
        }
    }
}

/// Tells of such breaches in a list of values.
#[cycle(conditionals)]
#[tactic(auto, using(crate::proofs::ConditionRows::walks, edd_breaches::proofs::TellLaws::tells_more))]
pub fn tell_conds<'a, V: TellValue>(
    all: &[Cond<Target, V>],
    sought: Sought,
    told: &mut Vec<Breach<'a>>,
) -> Result<(), AllocError>
    ensures told { OnOk result (Tells (flat_map (cond_told sought (V.told_in sought)) all.now)
        told.old.items told.new.items) }
{
    for c in all {
        tell_cond(c, sought, told)?;
    }
    Ok(())
}

#[cycle(conditionals)]
#[tactic(auto, using(crate::proofs::ConditionRows::walks))]
fn tell_arms<'a, V: TellValue>(
    arms: &[Arm<Target, V>],
    sought: Sought,
    told: &mut Vec<Breach<'a>>,
) -> Result<(), AllocError>
    ensures told { OnOk result
        (Tells (told_along (arm_told sought (V.told_in sought)) has_default false arms.now)
        told.old.items told.new.items) }
{
    let mut default = None;
    for arm in arms {
        tell_arm(arm, sought, default, told)?;
        default = default_after(arm, default);
    }
    Ok(())
}

// `default` is the token of the first DEFAULT so far.
#[cycle(conditionals)]
#[tactic(auto, using(crate::proofs::ConditionRows::walks))]
fn tell_arm<'a, V: TellValue>(
    arm: &Arm<Target, V>,
    sought: Sought,
    default: Option<TokenNo>,
    told: &mut Vec<Breach<'a>>,
) -> Result<(), AllocError>
    ensures told { OnOk result
        (Tells (arm_told sought (V.told_in sought) (is_some default) arm.now)
        told.old.items told.new.items) }
{
    match arm {
        Arm::Case { body, .. } => tell_conds(body, sought, told),
        Arm::Default { at, body } => {
            tell_default(sought, *at, default, told)?;
            tell_conds(body, sought, told)
        }
    }
}

#[tactic(auto, using(edd_breaches::proofs::TellLaws::tells))]
fn tell_default<'a>(
    sought: Sought,
    at: TokenNo,
    earlier: Option<TokenNo>,
    told: &mut Vec<Breach<'a>>,
) -> Result<(), AllocError>
    ensures told { OnOk result
        (Tells (default_told sought (is_some earlier) at) told.old.items told.new.items) }
{
    match sought {
        Sought::Default => {
            if earlier.is_none() {
                return Ok(());
            }
            tell_clash(Rule::DuplicateCase, at, earlier, told)
        }
        Sought::Enumerator | Sought::Call(_) | Sought::Decimal | Sought::Constant => Ok(()),
    }
}

// The token of the first DEFAULT after this arm.
fn default_after<V>(arm: &Arm<Target, V>, default: Option<TokenNo>) -> Option<TokenNo>
    ensures { is_some result ≡ has_default (is_some default) arm.now }
{
    match arm {
        Arm::Case { .. } => default,
        Arm::Default { at, .. } => Some(default.unwrap_or(*at)),
    }
}
