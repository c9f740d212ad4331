//! How many items of a kind, and how many transactions, may still come.

ghost use Rattle.std.specs.Prelude.{◌≡◌, ◌-◌, [], ◌∷◌, map, nat_lt};
ghost use Rattle.std.specs.List.{list_any};
ghost use Rattle.edd_syntax.specs.ItemView.{item_of, attribute_of};
ghost use Rattle.edd_syntax.specs.NameRules.{item_limit};
ghost use Rattle.edd_syntax.specs.Resolution.{count_of, kinds};
ghost use Rattle.edd_syntax.specs.TreeView.{path_of};
ghost use Rattle.edd_name_rules.specs.Spending.{transactions_in};

use edd_syntax::item::{Attribute, Item};
use edd_syntax::numbers::{Kind, TokenNo};
use edd_syntax::reference::Path;

/// What is left of a number of items of a kind after these: 0 where they are more.
pub fn spend_items(items: &[Item<Path>], kind: Kind, budget: u32) -> u32
    ensures { result ≡ budget - count_of kind (map (item_of path_of) items.now) }
{
    let mut left = budget;
    for item in items {
        left = spend_item(item, kind, left);
    }
    left
}

#[tactic(auto, using(crate::proofs::Counting::one_item))]
fn spend_item(item: &Item<Path>, kind: Kind, budget: u32) -> u32
    ensures { result ≡ budget - count_of kind (item_of path_of item.now ∷ []) }
{
    if item.kind() == kind {
        budget.saturating_sub(1)
    } else {
        budget
    }
}

/// What is left of a number of transactions after these attributes: 0 where they are more.
pub fn spend_transactions(attributes: &[Attribute<Path>], budget: u32) -> u32
    ensures { result ≡ budget - transactions_in (map (attribute_of path_of) attributes.now) }
{
    let mut left = budget;
    for attribute in attributes {
        left = spend_transaction(attribute, left);
    }
    left
}

fn spend_transaction(attribute: &Attribute<Path>, budget: u32) -> u32
    ensures { result ≡ budget - transactions_in (attribute_of path_of attribute.now ∷ []) }
{
    match attribute {
        Attribute::Transaction { .. } => budget.saturating_sub(1),
        _ => budget,
    }
}

/// Whether there are more than 4,096 items of one kind.
pub fn has_too_many_items(items: &[Item<Path>]) -> bool
    ensures { result ≡ list_any
        (λ k. nat_lt item_limit (count_of k (map (item_of path_of) items.now))) kinds }
{
    is_over(items, Kind::Variable)
        || is_over(items, Kind::Command)
        || is_over(items, Kind::Menu)
        || is_over(items, Kind::Collection)
        || is_over(items, Kind::Method)
        || is_over(items, Kind::Array)
}

#[tactic(auto, using(crate::proofs::Spends::over_limit))]
fn is_over(items: &[Item<Path>], kind: Kind) -> bool
    ensures { result ≡ nat_lt item_limit (count_of kind (map (item_of path_of) items.now)) }
{
    spend_items(items, kind, 4097) == 0
}

/// The name of the first item before which there are 4,096 of its kind, where there are too many.
/// It is a help, of which nothing is proved.
pub fn first_extra_item(items: &[Item<Path>], is_over: bool) -> Option<TokenNo> {
    if !is_over {
        return None;
    }
    let mut counts = [0u32; 7];
    for item in items {
        if let Some(count) = counts.get_mut(item.kind() as usize) {
            *count = count.saturating_add(1);
            if *count > 4096 {
                return Some(item.at());
            }
        }
    }
    None
}
