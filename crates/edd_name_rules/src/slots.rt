//! The locals of a method, taken from a number of locals that it may have.

ghost use Rattle.std.specs.Prelude.{◌≡◌, ◌-◌, [], ◌∷◌, is_some, map, nat_lt};
ghost use Rattle.std.specs.List.{list_any};
ghost use Rattle.edd_syntax.specs.ItemView.{item_of, attribute_of};
ghost use Rattle.edd_syntax.specs.NameRules.{local_limit, transaction_limit, transaction_count, locals_of};
ghost use Rattle.edd_syntax.specs.Statement.{slots_of, slots_in, body_from};
ghost use Rattle.edd_syntax.specs.TreeView.{path_of, stmt_of, part_of};
ghost use Rattle.edd_name_rules.specs.Spending.{locals_in};

use crate::counts::spend_transactions;
use edd_syntax::item::{Attribute, Item};
use edd_syntax::numbers::TokenNo;
use edd_syntax::reference::Path;
use edd_syntax::stmt::{Part, Stmt};

/// What is left of a number of locals after those of a statement: 0 where they are more.
#[cycle(slots)]
#[tactic(auto, using(crate::proofs::Spends::spends), unfolding(edd_syntax::specs::Statement::slots_of))]
pub fn spend_slots(s: &Stmt<Path>, left: u32) -> u32
    ensures { result ≡ left - slots_of (stmt_of path_of s.now) }
{
    match s {
        Stmt::Empty
        | Stmt::Evaluate(_)
        | Stmt::Break { .. }
        | Stmt::Continue { .. }
        | Stmt::Return => left,
        Stmt::Block(parts) => spend_slots_in(parts, left),
        Stmt::Switch(_, parts) => spend_slots_in(parts, left),
        Stmt::If(_, body) | Stmt::While(_, body) | Stmt::Do(body, _) | Stmt::For { body, .. } =>
            spend_slots(body, left),
        Stmt::IfElse(_, first, otherwise) => spend_slots(otherwise, spend_slots(first, left)),
    }
}

/// What is left after the locals between braces.
#[cycle(slots)]
#[tactic(auto, unfolding(edd_syntax::specs::Statement::slots_of))]
pub fn spend_slots_in(parts: &[Part<Path>], budget: u32) -> u32
    ensures { result ≡ budget - slots_in (body_from (map (part_of path_of) parts.now)) }
{
    let mut left = budget;
    for part in parts {
        left = spend_slots_of_part(part, left);
    }
    left
}

#[cycle(slots)]
#[tactic(auto, using(crate::proofs::Spends::spends), unfolding(edd_syntax::specs::Statement::slots_of))]
fn spend_slots_of_part(part: &Part<Path>, left: u32) -> u32
    ensures { result ≡ left - slots_in (body_from (part_of path_of part.now ∷ [])) }
{
    match part {
        Part::Declare(declarators) => spend_count(declarators.len(), left),
        Part::Statement(s) => spend_slots(s, left),
        Part::CaseLabel { .. } | Part::DefaultLabel { .. } => left,
    }
}

/// What is left after so many.
pub fn spend_count(count: usize, budget: u32) -> u32
    ensures { result ≡ budget - count }
{
    if count < budget as usize {
        budget - count as u32
    } else {
        0
    }
}

/// What is left after the locals of all definitions among these attributes.
pub fn spend_locals(attributes: &[Attribute<Path>], budget: u32) -> u32
    ensures { result ≡ budget - locals_in (map (attribute_of path_of) attributes.now) }
{
    let mut left = budget;
    for attribute in attributes {
        left = spend_locals_of(attribute, left);
    }
    left
}

fn spend_locals_of(attribute: &Attribute<Path>, budget: u32) -> u32
    ensures { result ≡ budget - locals_in (attribute_of path_of attribute.now ∷ []) }
{
    match attribute {
        Attribute::Definition(_, parts) => spend_slots_in(parts, budget),
        _ => budget,
    }
}

/// The name of the first item that has more than 64 locals.
pub fn first_with_locals(items: &[Item<Path>]) -> Option<TokenNo>
    ensures { is_some result ≡ list_any (λ i. nat_lt local_limit (locals_of i))
        (map (item_of path_of) items.now) }
{
    for item in items {
        if are_locals_over(item) {
            return Some(item.at());
        }
    }
    None
}

#[tactic(auto, using(crate::proofs::Spends::over_limit))]
fn are_locals_over(item: &Item<Path>) -> bool
    ensures { result ≡ nat_lt local_limit (locals_of (item_of path_of item.now)) }
{
    spend_locals(item.attributes(), 65) == 0
}

/// The name of the first item that has more than 4,096 transactions.
pub fn first_with_transactions(items: &[Item<Path>]) -> Option<TokenNo>
    ensures { is_some result ≡ list_any (λ i. nat_lt transaction_limit (transaction_count i))
        (map (item_of path_of) items.now) }
{
    for item in items {
        if are_transactions_over(item) {
            return Some(item.at());
        }
    }
    None
}

#[tactic(auto, using(crate::proofs::Spends::over_limit))]
fn are_transactions_over(item: &Item<Path>) -> bool
    ensures { result ≡ nat_lt transaction_limit (transaction_count (item_of path_of item.now)) }
{
    spend_transactions(item.attributes(), 4097) == 0
}
