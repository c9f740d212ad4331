//! The nodes of conditionals.

ghost use Rattle.std.specs.Prelude.{◌≡◌, ◌-◌, ℕ, [], ◌∷◌, map};
ghost use Rattle.edd_syntax.specs.Conditional.{conds_from, arms_from};
ghost use Rattle.edd_syntax.specs.ItemView.{cond_of, arm_of};
ghost use Rattle.edd_syntax.specs.Size.{nodes, cond_nodes, conds_nodes, arms_nodes};
ghost use Rattle.edd_syntax.specs.TreeView.{path_of, expr_of};

use crate::nodes::spend;
use edd_syntax::cond::{Arm, Cond};
use edd_syntax::expr::Expr;
use edd_syntax::item::{DataItem, Enumerator, MenuEntry};
use edd_syntax::reference::Path;
use edd_syntax::text::Text;
use edd_syntax::types::Handling;

/// A value that may be under a condition.
pub trait CountValue {
    /// The nodes below the value's own.
    ghost below: { Self → ℕ };

    /// What is left of a number of nodes after those below the value's own.
    fn spend_below(&self, budget: u32) -> u32
        ensures { result ≡ budget - below self.now };
}

impl CountValue for Text {
    ghost below = { λ v. 0 };

    fn spend_below(&self, budget: u32) -> u32 {
        budget
    }
}

impl CountValue for Handling {
    ghost below = { λ v. 0 };

    fn spend_below(&self, budget: u32) -> u32 {
        budget
    }
}

impl CountValue for bool {
    ghost below = { λ v. 0 };

    fn spend_below(&self, budget: u32) -> u32 {
        budget
    }
}

impl CountValue for Enumerator {
    ghost below = { λ v. 0 };

    fn spend_below(&self, budget: u32) -> u32 {
        budget
    }
}

impl CountValue for MenuEntry<Path> {
    ghost below = { λ v. 0 };

    fn spend_below(&self, budget: u32) -> u32 {
        budget
    }
}

impl CountValue for DataItem<Path> {
    ghost below = { λ v. 0 };

    fn spend_below(&self, budget: u32) -> u32 {
        budget
    }
}

impl CountValue for Expr<Path> {
    ghost below = { λ e. nodes (expr_of path_of e) };

    fn spend_below(&self, budget: u32) -> u32 {
        spend(self, budget)
    }
}

/// What is left after the nodes of conditionals.
#[cycle(conds)]
pub fn spend_conds<V: CountValue>(all: &[Cond<Path, V>], budget: u32) -> u32
    ensures { result ≡ budget -
        (conds_nodes V.below (conds_from (map (cond_of path_of (λ v. v)) all.now))) }
{
    let mut left = budget;
    for c in all {
        left = spend_cond(c, left);
    }
    left
}

/// What is left after the nodes of a conditional.
#[cycle(conds)]
pub fn spend_cond<V: CountValue>(c: &Cond<Path, V>, budget: u32) -> u32
    ensures { result ≡ budget - cond_nodes V.below (cond_of path_of (λ v. v) c.now) }
{
    let left = budget.saturating_sub(1);
    match c {
        Cond::Value(v) => v.spend_below(left),
        Cond::If {
            condition,
            first,
            otherwise,
        } => {
            let left = spend(condition, left);
            let left = spend_conds(first, left);
            spend_conds(otherwise, left)
        }
        Cond::Select { on, arms } => spend_arms(arms, spend(on, left)),
    }
}

#[cycle(conds)]
fn spend_arms<V: CountValue>(arms: &[Arm<Path, V>], budget: u32) -> u32
    ensures { result ≡ budget -
        (arms_nodes V.below (arms_from (map (arm_of path_of (λ v. v)) arms.now))) }
{
    let mut left = budget;
    for arm in arms {
        left = spend_arm(arm, left);
    }
    left
}

#[cycle(conds)]
fn spend_arm<V: CountValue>(arm: &Arm<Path, V>, left: u32) -> u32
    ensures { result ≡ left -
        (arms_nodes V.below (arms_from (arm_of path_of (λ v. v) arm.now ∷ []))) }
{
    let left = left.saturating_sub(1);
    match arm {
        Arm::Case { body, .. } => spend_conds(body, left),
        Arm::Default { body, .. } => spend_conds(body, left),
    }
}
