//! The members of collections by their names.

ghost use Rattle.std.specs.Prelude.{◌≡◌, [], ◌∷◌, ◌++◌, List, None, IfOk, OnOk, filter, find, map, option_map};
ghost use Rattle.std.specs.List.{flat_map};
ghost use Rattle.std.specs.Option.{option_or};
ghost use Rattle.std.specs.Str.{bytes_eq};
ghost use Rattle.edd_syntax.specs.declared.item.ItemKind.TheVariants as item_kind;
ghost use Rattle.edd_syntax.specs.declared.numbers.Kind.TheVariants as kind;
ghost use Rattle.edd_syntax.specs.Item as pure;
ghost use Rattle.edd_syntax.specs.Item.{kind_of_item};
ghost use Rattle.edd_syntax.specs.ItemView.{item_of, attribute_of, member_of};
ghost use Rattle.edd_syntax.specs.Numbers.{same_kind};
ghost use Rattle.edd_syntax.specs.Reference as reference;
ghost use Rattle.edd_syntax.specs.Resolution.{members_in, member_in};
ghost use Rattle.edd_syntax.specs.Text.{Name};
ghost use Rattle.edd_syntax.specs.TreeView.{path_of};
ghost use Rattle.edd_name_meanings.specs.Members.{member_named, member_listed, member_of_name, found_in, AreCollections};

use crate::numbering::put_first;
use edd_syntax::item::{Attribute, Item, ItemKind, Member};
use edd_syntax::numbers::Kind;
use edd_syntax::reference::Path;
use indexmap::IndexMap;
use std::alloc::{AllocError, Global};

/// The members of a collection, with the kind after OF. To look through a short list takes less
/// than a map does, so that only a long one has its members by their names as well.
#[derive(Drop)]
pub struct Collection<'a> {
    pub of: Kind,
    pub attributes: &'a [Attribute<Path>],
    pub by_name: Option<IndexMap<&'a str, &'a Member<Path>>>,
}

// How many members make a list a long one.
const MANY: usize = 17;

// Of members of one name the first counts.
fn add_members<'a>(
    into: &mut IndexMap<&'a str, &'a Member<Path>>,
    members: &'a [Member<Path>],
) -> Result<(), AllocError>
    ensures { OnOk result ((q : Name) → member_named q into.new
        ≡ option_or (member_named q into.old)
        (find (λ m. bytes_eq m.name q) (map (member_of path_of) members.now))) }
{
    for member in members {
        put_first(into, member.name.as_str(), member)?;
    }
    Ok(())
}

fn add_attribute<'a>(
    into: &mut IndexMap<&'a str, &'a Member<Path>>,
    attribute: &'a Attribute<Path>,
) -> Result<(), AllocError>
    ensures { OnOk result ((q : Name) → member_named q into.new
        ≡ option_or (member_named q into.old)
        (find (λ m. bytes_eq m.name q) (members_in (attribute_of path_of attribute.now)))) }
{
    match attribute {
        Attribute::Members(_, list) => add_members(into, list),
        _ => Ok(()),
    }
}

fn add_attributes<'a>(
    into: &mut IndexMap<&'a str, &'a Member<Path>>,
    attributes: &'a [Attribute<Path>],
) -> Result<(), AllocError>
    ensures { OnOk result ((q : Name) → member_named q into.new
        ≡ option_or (member_named q into.old)
        (find (λ m. bytes_eq m.name q)
        (flat_map members_in (map (attribute_of path_of) attributes.now)))) }
{
    for attribute in attributes {
        add_attribute(into, attribute)?;
    }
    Ok(())
}

fn has_many(attributes: &[Attribute<Path>]) -> bool {
    for attribute in attributes {
        if let Attribute::Members(_, list) = attribute {
            if list.len() >= MANY {
                return true;
            }
        }
    }
    false
}

// A collection, whose members have this kind.
fn one_collection<'a>(
    item: &'a Item<Path>,
    of: Kind,
    alloc: Global,
) -> Result<Collection<'a>, AllocError>
    requires { item.now.sort ≡ item_kind.Collection of }
    ensures { IfOk result (λ c. (q : Name) → found_in c q ≡ member_in (item_of path_of item.now) q) }
{
    let attributes = item.attributes();
    if !has_many(attributes) {
        return Ok(Collection {
            of,
            attributes,
            by_name: None,
        });
    }
    let mut members = IndexMap::new(alloc);
    add_attributes(&mut members, attributes)?;
    Ok(Collection {
        of,
        attributes,
        by_name: Some(members),
    })
}

// An item that is a collection goes after the others.
fn add_collection<'a>(
    all: &mut Vec<Collection<'a>>,
    item: &'a Item<Path>,
    alloc: Global,
) -> Result<(), AllocError>
    ensures { OnOk result ((is : List (pure.Item reference.Path))
        → AreCollections all.old.items is
        → AreCollections all.new.items
        (is ++ filter (λ i. same_kind (kind_of_item i.sort) kind.Collection)
        (item_of path_of item.now ∷ []))) }
{
    match item.sort {
        ItemKind::Collection(of) => {
            let one = one_collection(item, of, alloc)?;
            all.push(one)?;
            Ok(())
        }
        ItemKind::Variable
        | ItemKind::Command
        | ItemKind::Menu
        | ItemKind::Method
        | ItemKind::Array => Ok(()),
    }
}

fn add_collections<'a>(
    all: &mut Vec<Collection<'a>>,
    items: &'a [Item<Path>],
    alloc: Global,
) -> Result<(), AllocError>
    requires { all.old.items ≡ [] }
    ensures { OnOk result
        (AreCollections all.new.items (filter (λ i. same_kind (kind_of_item i.sort) kind.Collection)
        (map (item_of path_of) items.now))) }
{
    for item in items {
        add_collection(all, item, alloc)?;
    }
    Ok(())
}

/// The collections among items, by their numbers.
pub fn collections<'a>(
    items: &'a [Item<Path>],
    alloc: Global,
) -> Result<Vec<Collection<'a>>, AllocError>
    ensures { IfOk result
        (λ all. AreCollections all.items
        (filter (λ i. same_kind (kind_of_item i.sort) kind.Collection)
        (map (item_of path_of) items.now))) }
{
    let mut all = Vec::new(alloc);
    add_collections(&mut all, items, alloc)?;
    Ok(all)
}

fn find_member<'a>(members: &'a [Member<Path>], name: &str) -> Option<&'a Member<Path>>
    ensures { option_map (λ m. member_of path_of m.now) result
        ≡ find (λ m. bytes_eq m.name name.now) (map (member_of path_of) members.now) }
{
    for member in members {
        if member.name.as_str() == name {
            return Some(member);
        }
    }
    None
}

fn find_in_attribute<'a>(attribute: &'a Attribute<Path>, name: &str) -> Option<&'a Member<Path>>
    ensures { option_map (λ m. member_of path_of m.now) result
        ≡ find (λ m. bytes_eq m.name name.now) (members_in (attribute_of path_of attribute.now)) }
{
    match attribute {
        Attribute::Members(_, list) => find_member(list, name),
        _ => None,
    }
}

fn find_in_list<'a>(attributes: &'a [Attribute<Path>], name: &str) -> Option<&'a Member<Path>>
    ensures { option_map (λ m. member_of path_of m.now) result
        ≡ member_listed name.now attributes.now }
{
    for attribute in attributes {
        if let Some(member) = find_in_attribute(attribute, name) {
            return Some(member);
        }
    }
    None
}

impl<'a> Collection<'a> {
    fn find(&self, name: &str) -> Option<&'a Member<Path>>
        ensures { option_map (λ m. member_of path_of m.now) result ≡ member_of_name self.now
            name.now }
    {
        match &self.by_name {
            Some(members) => members.get(name).copied(),
            None => find_in_list(self.attributes, name),
        }
    }

    /// The member of a name, and the kind after OF.
    pub fn member(&self, name: &str) -> Option<(&'a Member<Path>, Kind)>
        ensures { option_map (λ m. (member_of path_of m.0.now, m.1)) result
            ≡ found_in self.now name.now }
    {
        match self.find(name) {
            Some(member) => Some((member, self.of)),
            None => None,
        }
    }
}
