//! The nodes of a description.

ghost use Rattle.std.specs.Prelude.{◌≡◌, ◌+◌, ◌-◌, map, sum, nat_lt, if◌then◌else◌};
ghost use Rattle.std.specs.List.{list_any};
ghost use Rattle.edd_syntax.specs.ItemView.{item_of, attribute_of, type_part_of, transaction_part_of};
ghost use Rattle.edd_syntax.specs.NameRules.{node_limit};
ghost use Rattle.edd_syntax.specs.Size.{attribute_nodes, item_nodes, type_part_nodes, is_element, transaction_part_nodes};
ghost use Rattle.edd_syntax.specs.TreeView.{path_of};

use crate::conditionals::spend_cond;
use crate::nodes::spend_parts;
use crate::slots::spend_count;
use crate::values::{spend_data, spend_entries, spend_enumerator, spend_text, spend_value};
use edd_syntax::item::{Attribute, Item, TransactionPart, TypePart};
use edd_syntax::reference::Path;

#[tactic(auto, using(crate::proofs::Spends::spends))]
fn spend_type_part(part: &TypePart<Path>, budget: u32) -> u32
    ensures { result ≡ budget - type_part_nodes (type_part_of path_of part.now) }
{
    match part {
        TypePart::OneNumber { value, .. } => spend_value(value, budget.saturating_sub(1)),
        TypePart::OneFormat { format, .. } => spend_text(format, budget.saturating_sub(1)),
        TypePart::Element(element) => spend_enumerator(element, budget),
    }
}

fn spend_type_parts(parts: &[TypePart<Path>], budget: u32) -> u32
    ensures { result ≡ budget -
        (sum (map type_part_nodes (map (type_part_of path_of) parts.now))) }
{
    let mut left = budget;
    for part in parts {
        left = spend_type_part(part, left);
    }
    left
}

fn is_element(part: &TypePart<Path>) -> bool
    ensures { result ≡ is_element (type_part_of path_of part.now) }
{
    matches!(part, TypePart::Element(_))
}

fn has_element(parts: &[TypePart<Path>]) -> bool
    ensures { result ≡ list_any is_element (map (type_part_of path_of) parts.now) }
{
    for part in parts {
        if is_element(part) {
            return true;
        }
    }
    false
}

// The elements of a type's list are together one more node.
#[tactic(auto, using(crate::proofs::Spends::spends))]
fn spend_type(parts: &[TypePart<Path>], budget: u32) -> u32
    ensures { result ≡ budget -
        ((if list_any is_element (map (type_part_of path_of) parts.now) then 1 else 0)
        + sum (map type_part_nodes (map (type_part_of path_of) parts.now))) }
{
    let left = spend_count(usize::from(has_element(parts)), budget);
    spend_type_parts(parts, left)
}

#[tactic(auto, using(crate::proofs::Spends::spends))]
fn spend_transaction_part(part: &TransactionPart<Path>, budget: u32) -> u32
    ensures { result ≡ budget -
        (transaction_part_nodes (transaction_part_of path_of part.now)) }
{
    let left = budget.saturating_sub(1);
    match part {
        TransactionPart::Request(_, all) | TransactionPart::Reply(_, all) => spend_data(all, left),
    }
}

fn spend_transaction_parts(parts: &[TransactionPart<Path>], budget: u32) -> u32
    ensures { result ≡ budget -
        (sum (map transaction_part_nodes (map (transaction_part_of path_of) parts.now))) }
{
    let mut left = budget;
    for part in parts {
        left = spend_transaction_part(part, left);
    }
    left
}

#[tactic(auto, using(crate::proofs::Spends::spends))]
fn spend_attribute(attribute: &Attribute<Path>, budget: u32) -> u32
    ensures { result ≡ budget - attribute_nodes (attribute_of path_of attribute.now) }
{
    let left = budget.saturating_sub(1);
    match attribute {
        Attribute::OneText(_, _, c) => spend_text(c, left),
        Attribute::Class(_, words) => spend_count(words.len(), left),
        Attribute::Handling(_, c) => spend_cond(c, left),
        Attribute::Validity(_, c) => spend_cond(c, left),
        Attribute::TypeOf { parts, .. } => spend_type(parts, left),
        Attribute::Number(_, _) | Attribute::Operation(_, _) => left,
        Attribute::Transaction { parts, .. } => spend_transaction_parts(parts, left),
        Attribute::ResponseCodes(_, responses) => spend_count(responses.len(), left),
        Attribute::Items(_, entries) => spend_entries(entries, left),
        Attribute::Members(_, members) => spend_count(members.len(), left),
        Attribute::Definition(_, parts) => spend_parts(parts, left),
        Attribute::Elements(_, elements) => spend_count(elements.len(), left),
    }
}

fn spend_attributes(attributes: &[Attribute<Path>], budget: u32) -> u32
    ensures { result ≡ budget -
        (sum (map attribute_nodes (map (attribute_of path_of) attributes.now))) }
{
    let mut left = budget;
    for attribute in attributes {
        left = spend_attribute(attribute, left);
    }
    left
}

fn spend_item(item: &Item<Path>, budget: u32) -> u32
    ensures { result ≡ budget - item_nodes (item_of path_of item.now) }
{
    spend_attributes(item.attributes(), budget)
}

fn spend_items(items: &[Item<Path>], budget: u32) -> u32
    ensures { result ≡ budget - sum (map item_nodes (map (item_of path_of) items.now)) }
{
    let mut left = budget;
    for item in items {
        left = spend_item(item, left);
    }
    left
}

/// Whether there are more than 524,288 nodes.
#[tactic(auto, using(crate::proofs::Spends::over_limit))]
pub fn has_too_many_nodes(items: &[Item<Path>]) -> bool
    ensures { result ≡ nat_lt node_limit (sum (map item_nodes (map (item_of path_of) items.now))) }
{
    spend_items(items, 524289) == 0
}
