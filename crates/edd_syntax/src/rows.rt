//! The written attributes, in the order in which an image has them.

ghost use Rattle.std.specs.Prelude.{◌≡◌, ◌++◌, ◌||◌, ◌≤◌, map, filter, length, nat_le, IsTrue, IfOk, OnOk};
ghost use Rattle.std.specs.List.{All, list_any, list_all, flat_map};
ghost use Rattle.edd_syntax.specs.declared.numbers.Attr.{Attr};
ghost use Rattle.edd_syntax.specs.declared.numbers.Kind.{Kind};
ghost use Rattle.edd_syntax.specs.ItemView.{numbered_items, numbered_attribute, numbered_item, numbered_type_part};
ghost use Rattle.edd_syntax.specs.Marks.{is_marked};
ghost use Rattle.edd_syntax.specs.NameRules as rules;
ghost use Rattle.edd_syntax.specs.Numbers.{same_attr};
ghost use Rattle.edd_syntax.specs.Resolution.{count_of};
ghost use Rattle.edd_syntax.specs.Rows as order;
ghost use Rattle.edd_syntax.specs.WellFormed.{has_own_attributes};

use crate::checked::Checked;
use crate::item::{Attribute, Item, TypePart};
use crate::numbers::{ATTRIBUTES, Attr, AttrRef, ItemNo, KINDS, Kind};
use crate::reference::Target;
use std::alloc::{AllocError, Global};

/// A row, and all attributes of the item of which it is one.
#[derive(Clone, Copy)]
pub struct Listed<'a> {
    pub row: AttrRef,
    pub attributes: &'a [Attribute<Target>],
}

fn part_attr(part: &TypePart<Target>) -> Attr
    ensures { result ≡ order.part_attr (numbered_type_part part.now) }
{
    match part {
        TypePart::OneNumber { which, .. } => which.attr(),
        TypePart::OneFormat { which, .. } => which.attr(),
        TypePart::Element(_) => Attr::Enumerators,
    }
}

// Whether the attribute has its bit among these.
#[tactic(auto, using(crate::proofs::Marking::marks))]
fn is_marked(marks: u32, attr: Attr) -> bool
    ensures { result ≡ is_marked marks attr }
{
    (marks >> attr.number()) & 1 == 1
}

// These bits and that of the attribute.
#[tactic(auto, using(crate::proofs::Marking::marks))]
fn mark(marks: u32, attr: Attr) -> u32
    ensures { (a : Attr) → is_marked result a
        ≡ (is_marked marks a || same_attr a attr) }
{
    marks | (1 << attr.number())
}

// These bits and those of what a type's braces hold.
fn mark_parts(marks: u32, parts: &[TypePart<Target>]) -> u32
    ensures { (a : Attr) → is_marked result a
        ≡ (is_marked marks a
        || list_any (order.part_stands_for a) (map numbered_type_part parts.now)) }
{
    let mut all = marks;
    for part in parts {
        all = mark(all, part_attr(part));
    }
    all
}

// These bits and those of the attributes for which a written one stands.
#[tactic(auto, unfolding(crate::specs::Rows::stands_for), using(crate::proofs::RowLaws::any_part))]
fn mark_attribute(marks: u32, attribute: &Attribute<Target>) -> u32
    ensures { (a : Attr) → is_marked result a
        ≡ (is_marked marks a || order.stands_for a (numbered_attribute attribute.now)) }
{
    let written = match attribute {
        Attribute::OneText(_, which, _) => which.attr(),
        Attribute::Class(_, _) => Attr::Class,
        Attribute::Handling(_, _) => Attr::Handling,
        Attribute::Validity(_, _) => Attr::Validity,
        Attribute::TypeOf { parts, .. } => return mark_parts(marks, parts),
        Attribute::Number(_, _) => Attr::Number,
        Attribute::Operation(_, _) => Attr::Operation,
        Attribute::Transaction { .. } => return marks,
        Attribute::ResponseCodes(_, _) => Attr::ResponseCodes,
        Attribute::Items(_, _) => Attr::Items,
        Attribute::Members(_, _) => Attr::Members,
        Attribute::Definition(_, _) => Attr::Definition,
        Attribute::Elements(_, _) => Attr::Elements,
    };
    mark(marks, written)
}

// The bits of the attributes that are written.
fn marks_of(attributes: &[Attribute<Target>]) -> u32
    ensures { (a : Attr) → is_marked result a
        ≡ order.is_written a (map numbered_attribute attributes.now) }
{
    let mut all = 0;
    for attribute in attributes {
        all = mark_attribute(all, attribute);
    }
    all
}

// An item, and which of its attributes are written, so that each is looked at once.
#[derive(Drop)]
struct Marked<'a> {
    item: &'a Item<Target>,
    marks: u32,
    ghost written: { (a : Attr)
        → is_marked marks a ≡ order.is_written a (numbered_item item.now).attributes },
}

// The items of a kind.
fn mark_items<'a>(
    items: &'a [Item<Target>],
    kind: Kind,
    alloc: Global,
) -> Result<Vec<Marked<'a>>, AllocError>
    ensures { IfOk result (λ marked. map (λ m. numbered_item m.item.now) marked.items
        ≡ order.of_kind kind (map numbered_item items.now)) }
{
    let mut marked = Vec::with_capacity(alloc, items.len())?;
    for item in items {
        if item.kind() == kind {
            marked.push(Marked {
                item,
                marks: marks_of(item.attributes()),
            })?;
        }
    }
    Ok(marked)
}

fn is_transaction(attribute: &Attribute<Target>) -> bool
    ensures { result ≡ rules.is_transaction (numbered_attribute attribute.now) }
{
    matches!(attribute, Attribute::Transaction { .. })
}

// The rows of an attribute of transactions.
fn push_transactions<'a>(
    rows: &mut Vec<Listed<'a>>,
    attributes: &'a [Attribute<Target>],
    item: ItemNo,
    attr: Attr,
) -> Result<(), AllocError>
    requires { length (filter rules.is_transaction (map numbered_attribute attributes.now)) ≤ 4096 }
    ensures { OnOk result (map order.listed_of rows.new.items ≡ map order.listed_of rows.old.items
        ++ map (order.with_these (map numbered_attribute attributes.now)) (order.rows_at item attr
        (order.transaction_positions 0 (map numbered_attribute attributes.now)))) }
{
    let mut sub = 0;
    for attribute in attributes {
        if is_transaction(attribute) {
            rows.push(Listed {
                row: AttrRef { item, attr, sub },
                attributes,
            })?;
            sub += 1;
        }
    }
    Ok(())
}

// The rows of an attribute of an item.
#[tactic(auto, unfolding(crate::specs::Rows::rows_at))]
fn push_item<'a>(
    rows: &mut Vec<Listed<'a>>,
    marked: &Marked<'a>,
    item: ItemNo,
    attr: Attr,
) -> Result<(), AllocError>
    requires { length
        (filter rules.is_transaction (numbered_item marked.now.item.now).attributes) ≤ 4096 }
    ensures { OnOk result (map order.listed_of rows.new.items ≡ map order.listed_of rows.old.items
        ++ map (order.with_these (numbered_item marked.now.item.now).attributes)
        (order.item_rows item attr (numbered_item marked.now.item.now).attributes)) }
{
    let attributes = marked.item.attributes();
    if attr.is_of_transaction() {
        return push_transactions(rows, attributes, item, attr);
    }
    if is_marked(marked.marks, attr) {
        rows.push(Listed {
            row: AttrRef { item, attr, sub: 0 },
            attributes,
        })?;
    }
    Ok(())
}

// The rows of an attribute of the items of a kind.
fn push_items<'a>(
    rows: &mut Vec<Listed<'a>>,
    marked: &[Marked<'a>],
    kind: Kind,
    attr: Attr,
) -> Result<(), AllocError>
    requires few { length marked.now ≤ 4096 }
    requires transactions { IsTrue (list_all (λ i. nat_le (rules.transaction_count i) 4096)
        (map (λ m. numbered_item m.item.now) marked.now)) }
    ensures { OnOk result (map order.listed_of rows.new.items ≡ map order.listed_of rows.old.items
        ++ order.listed_from kind attr 0 (map (λ m. numbered_item m.item.now) marked.now)) }
{
    let mut number = 0;
    for one in marked {
        push_item(rows, one, kind.item(number), attr)?;
        number += 1;
    }
    Ok(())
}

// The rows of these attributes of the items of a kind.
fn push_attributes<'a>(
    rows: &mut Vec<Listed<'a>>,
    items: &'a [Item<Target>],
    kind: Kind,
    attrs: &[Attr],
    alloc: Global,
) -> Result<(), AllocError>
    requires few { count_of kind (map numbered_item items.now) ≤ 4096 }
    requires transactions { IsTrue (list_all (λ i. nat_le (rules.transaction_count i) 4096)
        (map numbered_item items.now)) }
    requires own { IsTrue (list_all has_own_attributes (map numbered_item items.now)) }
    ensures { OnOk result (map order.listed_of rows.new.items ≡ map order.listed_of rows.old.items
        ++ flat_map (λ a. map (order.with_its (map numbered_item items.now))
        (order.rows_of_attr (map numbered_item items.now) kind a)) attrs.now) }
{
    let marked = mark_items(items, kind, alloc)?;
    for attr in attrs {
        if attr.may_belong_to(kind) {
            push_items(rows, &marked, kind, *attr)?;
        }
    }
    Ok(())
}

// The rows of the items of these kinds.
fn push_kinds<'a>(
    rows: &mut Vec<Listed<'a>>,
    items: &'a [Item<Target>],
    kinds: &[Kind],
    alloc: Global,
) -> Result<(), AllocError>
    requires few { (k : Kind) → count_of k (map numbered_item items.now) ≤ 4096 }
    requires transactions { IsTrue (list_all (λ i. nat_le (rules.transaction_count i) 4096)
        (map numbered_item items.now)) }
    requires own { IsTrue (list_all has_own_attributes (map numbered_item items.now)) }
    ensures { OnOk result (map order.listed_of rows.new.items ≡ map order.listed_of rows.old.items
        ++ flat_map (λ k. map (order.with_its (map numbered_item items.now))
        (order.rows_of_kind (map numbered_item items.now) k)) kinds.now) }
{
    for kind in kinds {
        push_attributes(rows, items, *kind, &ATTRIBUTES, alloc)?;
    }
    Ok(())
}

impl Checked {
    /// The written attributes other than TYPE, by kind, attribute, item and position. A transaction
    /// has all three of its attributes, written or not; `sub` is its position among the
    /// transactions of its command, and else 0.
    pub fn rows(&self, alloc: Global) -> Result<Vec<AttrRef>, AllocError>
        ensures { IfOk result (λ rows. rows.items
            ≡ order.rows (numbered_items self.now.items.value.items)) }
    {
        let listed = self.listed(alloc)?;
        let mut rows = Vec::with_capacity(alloc, listed.len())?;
        for one in &listed {
            rows.push(one.row)?;
        }
        Ok(rows)
    }

    /// The same rows, each with all attributes of its item.
    pub fn listed(&self, alloc: Global) -> Result<Vec<Listed<'_>>, AllocError>
        ensures rows { IfOk result (λ listed. map (λ l. l.row) listed.items
            ≡ order.rows (numbered_items self.now.items.value.items)) }
        ensures attributes { IfOk result (λ listed.
            All (order.HasItsAttributes (numbered_items self.now.items.value.items)) listed.items) }
    {
        let mut rows = Vec::new(alloc);
        push_kinds(&mut rows, &self.items, &KINDS, alloc)?;
        Ok(rows)
    }
}
