//! The tree of a row in its item.

ghost use Rattle.std.specs.Prelude.{◌≡◌, map, option_map, slice_get};
ghost use Rattle.edd_syntax.specs.declared.reference.Target.{Target};
ghost use Rattle.edd_syntax.specs.Item.{Description};
ghost use Rattle.edd_syntax.specs.ItemView.{numbered_attribute, numbered_transaction_part};
ghost use Rattle.edd_syntax.specs.Rows.{attributes_of_row};
ghost use Rattle.edd_attrs.specs.Rows as rows;
ghost use Rattle.edd_attrs.specs.Trees as trees;
ghost use Rattle.edd_attrs.specs.Views as views;

use crate::trees::{Tree, tree_among};
use edd_syntax::item::{Attribute, TransactionPart};
use edd_syntax::numbers::{Attr, AttrRef};
use edd_syntax::reference::Target;

type Transaction<'a> = (Option<u32>, &'a [TransactionPart<Target>]);

fn transaction_in<'a>(attribute: &'a Attribute<Target>) -> Option<Transaction<'a>>
    ensures { option_map views.transaction_of result
        ≡ rows.transaction_in (numbered_attribute attribute.now) }
{
    match attribute {
        Attribute::Transaction { number, parts, .. } => Some((*number, parts)),
        _ => None,
    }
}

// A transaction by its position.
fn transaction_at<'a>(attributes: &'a [Attribute<Target>], sub: u16) -> Option<Transaction<'a>>
    ensures { option_map views.transaction_of result
        ≡ slice_get (trees.transaction_trees (map numbered_attribute attributes.now)) sub }
{
    let mut left = sub;
    for attribute in attributes {
        if let Some(transaction) = transaction_in(attribute) {
            if left == 0 {
                return Some(transaction);
            }
            left -= 1;
        }
    }
    None
}

fn tree_of_transaction_part<'a>(part: &'a TransactionPart<Target>, attr: Attr) -> Option<Tree<'a>>
    ensures { option_map views.tree_of result
        ≡ trees.first_tree attr (rows.one_part (numbered_transaction_part part.now)) }
{
    let (of, tree) = match part {
        TransactionPart::Request(_, all) => (Attr::Request, Tree::Data(all)),
        TransactionPart::Reply(_, all) => (Attr::Reply, Tree::Data(all)),
    };
    if of == attr { Some(tree) } else { None }
}

fn tree_among_transaction_parts<'a>(
    parts: &'a [TransactionPart<Target>],
    attr: Attr,
) -> Option<Tree<'a>>
    ensures { option_map views.tree_of result
        ≡ trees.first_tree attr (map trees.tree_of_transaction_part
        (map numbered_transaction_part parts.now)) }
{
    for part in parts {
        if let Some(tree) = tree_of_transaction_part(part, attr) {
            return Some(tree);
        }
    }
    None
}

fn tree_of_transaction<'a>(transaction: Transaction<'a>, attr: Attr) -> Option<Tree<'a>>
    ensures { option_map views.tree_of result
        ≡ trees.first_tree attr (views.transaction_of transaction.entry) }
{
    let (number, parts) = transaction;
    if attr == Attr::Transaction {
        Some(Tree::Transaction(number))
    } else {
        tree_among_transaction_parts(parts, attr)
    }
}

/// The tree of an attribute among these.
pub fn tree_in<'a>(attributes: &'a [Attribute<Target>], attr: Attr, sub: u16) -> Option<Tree<'a>>
    ensures { option_map views.tree_of result
        ≡ trees.tree_in (map numbered_attribute attributes.now) attr sub }
{
    if attr.is_of_transaction() {
        let transaction = transaction_at(attributes, sub)?;
        tree_of_transaction(transaction, attr)
    } else {
        tree_among(attributes, attr)
    }
}

/// The tree of a row whose item has these attributes, if it is written.
pub fn tree_found<'a>(attributes: Option<&'a [Attribute<Target>]>, row: AttrRef) -> Option<Tree<'a>>
    ensures { (unit : Description Target) → option_map (λ a. map numbered_attribute a.now)
        attributes.entry ≡ attributes_of_row unit.items row → option_map views.tree_of result
        ≡ trees.tree_at unit row }
{
    tree_in(attributes?, row.attr, row.sub)
}
