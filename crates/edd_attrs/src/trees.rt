//! The tree of an attribute: what is written for it, wherever it is in its item.

ghost use Rattle.std.specs.Prelude.{◌≡◌, map, option_map};
ghost use Rattle.edd_syntax.specs.ItemView.{numbered_attribute, numbered_type_part};
ghost use Rattle.edd_attrs.specs.Trees as trees;
ghost use Rattle.edd_attrs.specs.Views as views;

use edd_syntax::cond::Cond;
use edd_syntax::expr::Expr;
use edd_syntax::item::{
    ArrayElement, Attribute, DataItem, Member, MenuEntry, ResponseCode, TypePart,
};
use edd_syntax::numbers::Attr;
use edd_syntax::reference::Target;
use edd_syntax::text::{CompactString, Text};
use edd_syntax::types::{Handling, Operation};

/// What is written for an attribute.
#[derive(Clone, Copy)]
pub enum Tree<'a> {
    Texts(&'a Cond<Target, Text>),
    Class(&'a [CompactString]),
    Handling(&'a Cond<Target, Handling>),
    Validity(&'a Cond<Target, bool>),
    Expressions(&'a Cond<Target, Expr<Target>>),
    /// The parts of a type, of which the elements of its list are the attribute.
    Enumerators(&'a [TypePart<Target>]),
    Number(u32),
    Operation(Operation),
    Transaction(Option<u32>),
    Data(&'a [Cond<Target, DataItem<Target>>]),
    ResponseCodes(&'a [ResponseCode]),
    Items(&'a [Cond<Target, MenuEntry<Target>>]),
    Members(&'a [Member<Target>]),
    Elements(&'a [ArrayElement<Target>]),
}

// The tree of a part of a type.
fn tree_of_part<'a>(part: &'a TypePart<Target>, attr: Attr) -> Option<Tree<'a>>
    ensures { option_map views.tree_of result
        ≡ trees.first_tree attr (trees.trees_of_part (numbered_type_part part.now)) }
{
    let (of, tree) = match part {
        TypePart::OneNumber { which, value, .. } => (which.attr(), Tree::Expressions(value)),
        TypePart::OneFormat { which, format, .. } => (which.attr(), Tree::Texts(format)),
        TypePart::Element(_) => return None,
    };
    if of == attr { Some(tree) } else { None }
}

fn tree_among_parts<'a>(parts: &'a [TypePart<Target>], attr: Attr) -> Option<Tree<'a>>
    ensures { option_map views.tree_of result
        ≡ trees.first_tree attr (trees.trees_of_parts (map numbered_type_part parts.now)) }
{
    for part in parts {
        if let Some(tree) = tree_of_part(part, attr) {
            return Some(tree);
        }
    }
    None
}

// The tree of a written attribute.
fn tree_of<'a>(attribute: &'a Attribute<Target>, attr: Attr) -> Option<Tree<'a>>
    ensures { option_map views.tree_of result
        ≡ trees.first_tree attr (trees.trees_of_attribute (numbered_attribute attribute.now)) }
{
    let (of, tree) = match attribute {
        Attribute::OneText(_, which, c) => (which.attr(), Tree::Texts(c)),
        Attribute::Class(_, names) => (Attr::Class, Tree::Class(names)),
        Attribute::Handling(_, c) => (Attr::Handling, Tree::Handling(c)),
        Attribute::Validity(_, c) => (Attr::Validity, Tree::Validity(c)),
        Attribute::TypeOf { parts, .. } => {
            if attr != Attr::Enumerators {
                return tree_among_parts(parts, attr);
            }
            (Attr::Enumerators, Tree::Enumerators(parts))
        }
        Attribute::Number(_, number) => (Attr::Number, Tree::Number(*number)),
        Attribute::Operation(_, operation) => (Attr::Operation, Tree::Operation(*operation)),
        Attribute::ResponseCodes(_, codes) => (Attr::ResponseCodes, Tree::ResponseCodes(codes)),
        Attribute::Items(_, entries) => (Attr::Items, Tree::Items(entries)),
        Attribute::Members(_, members) => (Attr::Members, Tree::Members(members)),
        Attribute::Elements(_, elements) => (Attr::Elements, Tree::Elements(elements)),
        Attribute::Transaction { .. } | Attribute::Definition(_, _) => return None,
    };
    if of == attr { Some(tree) } else { None }
}

/// The tree of an attribute other than those of transactions.
pub fn tree_among<'a>(attributes: &'a [Attribute<Target>], attr: Attr) -> Option<Tree<'a>>
    ensures { option_map views.tree_of result
        ≡ trees.first_tree attr (trees.trees_of (map numbered_attribute attributes.now)) }
{
    for attribute in attributes {
        if let Some(tree) = tree_of(attribute, attr) {
            return Some(tree);
        }
    }
    None
}
