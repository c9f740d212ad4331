//! Items, members of collections and locals of blocks with one name.

ghost use Rattle.std.specs.Prelude.{[], List, OnOk};
ghost use Rattle.edd_breaches.specs.Told.{Tells};
ghost use Rattle.edd_syntax.specs.Text.{Name};
ghost use Rattle.edd_breaches.specs.Along.{told_along, after_all};
ghost use Rattle.edd_name_rules.specs.NamesTold.{local_told, with_local, with_locals, inside_told, part_told, member_told, with_member, with_members, members_told, item_told, with_item, names_told};
ghost use Rattle.edd_duplicates.specs.Seen.{HasSeen};

use edd_breaches::Breach;
use edd_duplicates::{Seen, note_name};
use edd_syntax::item::{Attribute, Item, Member};
use edd_syntax::reference::Path;
use edd_syntax::stmt::{Declarator, Part, Stmt};
use std::alloc::{AllocError, Global};

fn tell_local<'a>(
    declarator: &'a Declarator<Path>,
    block: &mut Seen<'a>,
    told: &mut Vec<Breach<'a>>,
) -> Result<(), AllocError>
    ensures told { OnOk result ((before : List Name) → HasSeen before block.old
        → Tells (local_told before declarator.now) told.old.items told.new.items) }
    ensures known { OnOk result ((before : List Name) → HasSeen before block.old
        → HasSeen (with_local before declarator.now) block.new) }
{
    note_name(
        block,
        declarator.place.base.as_str(),
        declarator.place.at,
        told,
    )
}

fn tell_locals<'a>(
    declarators: &'a [Declarator<Path>],
    block: &mut Seen<'a>,
    told: &mut Vec<Breach<'a>>,
) -> Result<(), AllocError>
    ensures told { OnOk result ((before : List Name) → HasSeen before block.old
        → Tells (told_along local_told with_local before declarators.now)
        told.old.items told.new.items) }
    ensures known { OnOk result ((before : List Name) → HasSeen before block.old
        → HasSeen (after_all with_local before declarators.now) block.new) }
{
    for declarator in declarators {
        tell_local(declarator, block, told)?;
    }
    Ok(())
}

// The locals of the blocks inside a statement.
#[cycle(locals)]
#[tactic(auto, using(edd_breaches::proofs::TellLaws::tells))]
fn tell_inside<'a>(
    s: &'a Stmt<Path>,
    alloc: Global,
    told: &mut Vec<Breach<'a>>,
) -> Result<(), AllocError>
    ensures told { OnOk result (Tells (inside_told s.now) told.old.items told.new.items) }
{
    match s {
        Stmt::Empty
        | Stmt::Evaluate(_)
        | Stmt::Break { .. }
        | Stmt::Continue { .. }
        | Stmt::Return => Ok(()),
        Stmt::Block(parts) => tell_block(parts, alloc, told),
        Stmt::Switch(_, parts) => tell_block(parts, alloc, told),
        Stmt::If(_, body) | Stmt::While(_, body) | Stmt::Do(body, _) | Stmt::For { body, .. } =>
            tell_inside(body, alloc, told),
        Stmt::IfElse(_, first, otherwise) => {
            tell_inside(first, alloc, told)?;
            tell_inside(otherwise, alloc, told)
        }
    }
}

// The locals of a block and of the blocks inside it.
#[cycle(locals)]
fn tell_block<'a>(
    parts: &'a [Part<Path>],
    alloc: Global,
    told: &mut Vec<Breach<'a>>,
) -> Result<(), AllocError>
    ensures told { OnOk result
        (Tells (told_along part_told with_locals [] parts.now) told.old.items told.new.items) }
{
    let mut block = Seen::of_few(alloc);
    for part in parts {
        tell_part(part, &mut block, alloc, told)?;
    }
    Ok(())
}

#[cycle(locals)]
#[tactic(auto, using(edd_breaches::proofs::TellLaws::tells))]
fn tell_part<'a>(
    part: &'a Part<Path>,
    block: &mut Seen<'a>,
    alloc: Global,
    told: &mut Vec<Breach<'a>>,
) -> Result<(), AllocError>
    ensures told { OnOk result ((before : List Name) → HasSeen before block.old
        → Tells (part_told before part.now) told.old.items told.new.items) }
    ensures known { OnOk result ((before : List Name) → HasSeen before block.old
        → HasSeen (with_locals before part.now) block.new) }
{
    match part {
        Part::Declare(declarators) => tell_locals(declarators, block, told),
        Part::Statement(s) => tell_inside(s, alloc, told),
        Part::CaseLabel { .. } | Part::DefaultLabel { .. } => Ok(()),
    }
}

fn tell_member<'a>(
    member: &'a Member<Path>,
    seen: &mut Seen<'a>,
    told: &mut Vec<Breach<'a>>,
) -> Result<(), AllocError>
    ensures told { OnOk result ((before : List Name) → HasSeen before seen.old
        → Tells (member_told before member.now) told.old.items told.new.items) }
    ensures known { OnOk result ((before : List Name) → HasSeen before seen.old
        → HasSeen (with_member before member.now) seen.new) }
{
    note_name(seen, member.name.as_str(), member.at, told)
}

fn tell_members<'a>(
    members: &'a [Member<Path>],
    seen: &mut Seen<'a>,
    told: &mut Vec<Breach<'a>>,
) -> Result<(), AllocError>
    ensures told { OnOk result ((before : List Name) → HasSeen before seen.old
        → Tells (told_along member_told with_member before members.now)
        told.old.items told.new.items) }
    ensures known { OnOk result ((before : List Name) → HasSeen before seen.old
        → HasSeen (after_all with_member before members.now) seen.new) }
{
    for member in members {
        tell_member(member, seen, told)?;
    }
    Ok(())
}

// The members that an attribute lists, or the locals of a method.
#[tactic(auto, using(edd_breaches::proofs::TellLaws::tells))]
fn tell_attribute<'a>(
    attribute: &'a Attribute<Path>,
    members: &mut Seen<'a>,
    alloc: Global,
    told: &mut Vec<Breach<'a>>,
) -> Result<(), AllocError>
    ensures told { OnOk result ((before : List Name) → HasSeen before members.old
        → Tells (members_told before attribute.now) told.old.items told.new.items) }
    ensures known { OnOk result ((before : List Name) → HasSeen before members.old
        → HasSeen (with_members before attribute.now) members.new) }
{
    match attribute {
        Attribute::Members(_, list) => tell_members(list, members, told),
        Attribute::Definition(_, parts) => tell_block(parts, alloc, told),
        _ => Ok(()),
    }
}

// The members and the locals of one item.
fn tell_attributes<'a>(
    attributes: &'a [Attribute<Path>],
    alloc: Global,
    told: &mut Vec<Breach<'a>>,
) -> Result<(), AllocError>
    ensures told { OnOk result (Tells (told_along members_told with_members [] attributes.now)
        told.old.items told.new.items) }
{
    let mut members = Seen::of_few(alloc);
    for attribute in attributes {
        tell_attribute(attribute, &mut members, alloc, told)?;
    }
    Ok(())
}

#[tactic(auto, using(edd_breaches::proofs::TellLaws::tells))]
fn tell_item<'a>(
    item: &'a Item<Path>,
    seen: &mut Seen<'a>,
    alloc: Global,
    told: &mut Vec<Breach<'a>>,
) -> Result<(), AllocError>
    ensures told { OnOk result ((before : List Name) → HasSeen before seen.old
        → Tells (item_told before item.now) told.old.items told.new.items) }
    ensures known { OnOk result ((before : List Name) → HasSeen before seen.old
        → HasSeen (with_item before item.now) seen.new) }
{
    note_name(seen, item.name(), item.at(), told)?;
    tell_attributes(item.attributes(), alloc, told)?;
    Ok(())
}

/// The items, members of a collection and locals of a block whose name an earlier one has.
pub fn tell_names<'a>(
    items: &'a [Item<Path>],
    alloc: Global,
    told: &mut Vec<Breach<'a>>,
) -> Result<(), AllocError>
    ensures told { OnOk result (Tells (names_told items.now) told.old.items told.new.items) }
{
    let mut seen = Seen::of_many(alloc);
    for item in items {
        tell_item(item, &mut seen, alloc, told)?;
    }
    Ok(())
}
