//! Attributes of an item and parts of braces that are there twice.

ghost use Rattle.std.specs.Prelude.{◌≡◌, [], List, OnOk};
ghost use Rattle.edd_breaches.specs.Told.{Tells};
ghost use Rattle.edd_syntax.specs.ItemView.{attribute_of};
ghost use Rattle.edd_syntax.specs.NameRules.{is_transaction};
ghost use Rattle.edd_syntax.specs.Text.{Name};
ghost use Rattle.edd_syntax.specs.TreeView.{path_of};
ghost use Rattle.edd_breaches.specs.Along.{told_along};
ghost use Rattle.edd_duplicates.specs.Seen.{HasSeen};
ghost use Rattle.edd_name_rules.specs.WordsTold.{part_told, with_part, option_told, with_option, braces_told, own_word_told, attribute_told, with_attribute, words_told_in, words_told};

use crate::attributes::word_of;
use edd_breaches::Breach;
use edd_duplicates::{Seen, add, note_word};
use edd_syntax::item::{Attribute, Item, TransactionPart, TypePart};
use edd_syntax::numbers::Attr;
use edd_syntax::reference::Path;
use std::alloc::{AllocError, Global};

fn tell_part<'a>(
    part: &TransactionPart<Path>,
    seen: &mut Seen<'a>,
    told: &mut Vec<Breach<'a>>,
) -> Result<(), AllocError>
    ensures told { OnOk result ((before : List Name) → HasSeen before seen.old
        → Tells (part_told before part.now) told.old.items told.new.items) }
    ensures known { OnOk result ((before : List Name) → HasSeen before seen.old
        → HasSeen (with_part before part.now) seen.new) }
{
    match part {
        TransactionPart::Request(at, _) => note_word(seen, Attr::Request.word(), *at, told),
        TransactionPart::Reply(at, _) => note_word(seen, Attr::Reply.word(), *at, told),
    }
}

// A REQUEST or a REPLY that is there already.
fn tell_parts<'a>(
    parts: &[TransactionPart<Path>],
    alloc: Global,
    told: &mut Vec<Breach<'a>>,
) -> Result<(), AllocError>
    ensures told { OnOk result
        (Tells (told_along part_told with_part [] parts.now) told.old.items told.new.items) }
{
    let mut seen = Seen::of_few(alloc);
    for part in parts {
        tell_part(part, &mut seen, told)?;
    }
    Ok(())
}

#[tactic(auto, using(edd_breaches::proofs::TellLaws::tells))]
fn tell_option<'a>(
    part: &TypePart<Path>,
    seen: &mut Seen<'a>,
    told: &mut Vec<Breach<'a>>,
) -> Result<(), AllocError>
    ensures told { OnOk result ((before : List Name) → HasSeen before seen.old
        → Tells (option_told before part.now) told.old.items told.new.items) }
    ensures known { OnOk result ((before : List Name) → HasSeen before seen.old
        → HasSeen (with_option before part.now) seen.new) }
{
    match part {
        TypePart::OneNumber { at, which, .. } => note_word(seen, which.attr().word(), *at, told),
        TypePart::OneFormat { at, which, .. } => note_word(seen, which.attr().word(), *at, told),
        TypePart::Element(_) => Ok(()),
    }
}

// An option of a type that is there already.
fn tell_options<'a>(
    parts: &[TypePart<Path>],
    alloc: Global,
    told: &mut Vec<Breach<'a>>,
) -> Result<(), AllocError>
    ensures told { OnOk result
        (Tells (told_along option_told with_option [] parts.now) told.old.items told.new.items) }
{
    let mut seen = Seen::of_few(alloc);
    for part in parts {
        tell_option(part, &mut seen, told)?;
    }
    Ok(())
}

// What is there twice in the braces of an attribute.
#[tactic(auto, using(edd_breaches::proofs::TellLaws::tells))]
fn tell_braces<'a>(
    attribute: &Attribute<Path>,
    alloc: Global,
    told: &mut Vec<Breach<'a>>,
) -> Result<(), AllocError>
    ensures told { OnOk result (Tells (braces_told attribute.now) told.old.items told.new.items) }
{
    match attribute {
        Attribute::TypeOf { parts, .. } => tell_options(parts, alloc, told),
        Attribute::Transaction { parts, .. } => tell_parts(parts, alloc, told),
        _ => Ok(()),
    }
}

fn is_transaction(attribute: &Attribute<Path>) -> bool
    ensures { result ≡ is_transaction (attribute_of path_of attribute.now) }
{
    matches!(attribute, Attribute::Transaction { .. })
}

// An attribute whose word is there already, unless it is a transaction.
fn tell_own_word<'a>(
    attribute: &Attribute<Path>,
    seen: &mut Seen<'a>,
    told: &mut Vec<Breach<'a>>,
) -> Result<(), AllocError>
    ensures told { OnOk result ((before : List Name) → HasSeen before seen.old
        → Tells (own_word_told before attribute.now) told.old.items told.new.items) }
    ensures known { OnOk result ((before : List Name) → HasSeen before seen.old
        → HasSeen (with_attribute before attribute.now) seen.new) }
{
    let at = attribute.at();
    if is_transaction(attribute) {
        add(seen, word_of(attribute), at)?;
        return Ok(());
    }
    note_word(seen, word_of(attribute), at, told)
}

#[tactic(auto, using(edd_breaches::proofs::TellLaws::tells))]
fn tell_attribute<'a>(
    attribute: &Attribute<Path>,
    seen: &mut Seen<'a>,
    alloc: Global,
    told: &mut Vec<Breach<'a>>,
) -> Result<(), AllocError>
    ensures told { OnOk result ((before : List Name) → HasSeen before seen.old
        → Tells (attribute_told before attribute.now) told.old.items told.new.items) }
    ensures known { OnOk result ((before : List Name) → HasSeen before seen.old
        → HasSeen (with_attribute before attribute.now) seen.new) }
{
    tell_own_word(attribute, seen, told)?;
    tell_braces(attribute, alloc, told)?;
    Ok(())
}

// The attributes that are there twice in one item or in the braces of one of them.
fn tell_attributes<'a>(
    attributes: &[Attribute<Path>],
    alloc: Global,
    told: &mut Vec<Breach<'a>>,
) -> Result<(), AllocError>
    ensures told { OnOk result (Tells (told_along attribute_told with_attribute [] attributes.now)
        told.old.items told.new.items) }
{
    let mut seen = Seen::of_few(alloc);
    for attribute in attributes {
        tell_attribute(attribute, &mut seen, alloc, told)?;
    }
    Ok(())
}

fn tell_in_item<'a>(
    item: &Item<Path>,
    alloc: Global,
    told: &mut Vec<Breach<'a>>,
) -> Result<(), AllocError>
    ensures told { OnOk result (Tells (words_told_in item.now) told.old.items told.new.items) }
{
    tell_attributes(item.attributes(), alloc, told)
}

/// The attributes that are there twice in an item, a transaction or a type's braces.
#[tactic(auto, using(edd_breaches::proofs::TellLaws::tells))]
pub fn tell_repeats<'a>(
    items: &[Item<Path>],
    alloc: Global,
    told: &mut Vec<Breach<'a>>,
) -> Result<(), AllocError>
    ensures told { OnOk result (Tells (words_told items.now) told.old.items told.new.items) }
{
    for item in items {
        tell_in_item(item, alloc, told)?;
    }
    Ok(())
}
