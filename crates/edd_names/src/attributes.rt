//! Attributes with the meaning of their names.

ghost use Rattle.std.specs.Prelude.{◌≡◌, ◌≤◌, [], ◌∷◌, IfOk, map};
ghost use Rattle.std.specs.List.{flat_map};
ghost use Rattle.edd_syntax.specs.ItemView.{attribute_of, item_of, type_word_of, numbered_attribute};
ghost use Rattle.edd_syntax.specs.NameUses.{attribute_uses, body_uses};
ghost use Rattle.edd_syntax.specs.ResolvedTrees.{each, resolved_attribute, resolved_body};
ghost use Rattle.edd_syntax.specs.Statement.{body_from, slots_in};
ghost use Rattle.edd_syntax.specs.TreeView.{path_of, part_of, numbered_part};
ghost use Rattle.edd_name_meanings.specs.Directory.{description_of, read_by};
ghost use Rattle.edd_name_rules.specs.Spending.{locals_in};
ghost use Rattle.edd_name_meanings.specs.Copies.{Copies, Keeps, Told};
ghost use Rattle.edd_name_meanings.specs.TokensIn.{tokens_in_attribute, tokens_in_part};
ghost use Rattle.edd_name_meanings.specs.PathsIn.{paths_in_attribute, paths_in_attributes, paths_in_parts};

use crate::braces::copy_parts;
use crate::texts::{copy_responses, copy_words};
use edd_breaches::Breach;
use edd_expression_names::conditionals::{copy_cond, copy_conds};
use edd_name_meanings::directory::Names;
use edd_statement_names::statements::copy_body;
use edd_syntax::item::{Attribute, Item, TypeWord};
use edd_syntax::reference::{Path, Target};
use edd_syntax::stmt::Part;
use edd_syntax::text::CompactString;
use std::alloc::{AllocError, Global};

fn copy_type_word(word: &TypeWord, alloc: Global) -> Result<TypeWord, AllocError>
    ensures sound { IfOk result (λ w. type_word_of w ≡ type_word_of word.now) }
{
    match word {
        TypeWord::Known { kind, size } => Ok(TypeWord::Known {
            kind: *kind,
            size: *size,
        }),
        TypeWord::Other(text) => Ok(TypeWord::Other(CompactString::new(alloc, text.as_str())?)),
    }
}

// The body of a method, whose locals take the slots from 0 on.
#[tactic(auto, using(edd_name_meanings::proofs::UseLaws::uses))]
fn copy_definition<'a>(
    parts: &'a [Part<Path>],
    names: &Names,
    told: &mut Vec<Breach<'a>>,
) -> Result<Vec<Part<Target>>, AllocError>
    requires { slots_in (body_from (map (part_of path_of) parts.now)) ≤ 64 }
    ensures told { Told (description_of names.now)
        (body_uses (body_from (map (part_of path_of) parts.now)) [] 0)
        (paths_in_parts parts.now) told.old.items told.new.items result }
    ensures sound { Copies (resolved_body (read_by names.now)
        (body_from (map (part_of path_of) parts.now)) [] 0)
        (λ t. body_from (map numbered_part t.items)) result }
    ensures kept { Keeps (flat_map tokens_in_part parts.now) (λ t. flat_map tokens_in_part t.items)
        result }
{
    let mut next = 0;
    copy_body(parts, names, &[], &mut next, told)
}

#[tactic(auto, using(edd_name_meanings::proofs::UseLaws::uses))]
fn copy_attribute<'a>(
    attribute: &'a Attribute<Path>,
    item: &Item<Path>,
    names: &Names,
    told: &mut Vec<Breach<'a>>,
) -> Result<Attribute<Target>, AllocError>
    requires { locals_in (attribute_of path_of attribute.now ∷ []) ≤ 64 }
    ensures told { Told (description_of names.now)
        (attribute_uses (item_of path_of item.now).sort (attribute_of path_of attribute.now))
        (paths_in_attribute attribute.now) told.old.items told.new.items result }
    ensures sound { Copies (resolved_attribute (read_by names.now) (item_of path_of item.now).sort
        (attribute_of path_of attribute.now)) numbered_attribute result }
    ensures kept { Keeps (tokens_in_attribute attribute.now) tokens_in_attribute result }
{
    match attribute {
        Attribute::OneText(at, which, c) => {
            Ok(Attribute::OneText(*at, *which, copy_cond(c, names, told)?))
        }
        Attribute::Class(at, words) => {
            Ok(Attribute::Class(*at, copy_words(words, names.alloc)?))
        }
        Attribute::Handling(at, c) => Ok(Attribute::Handling(*at, copy_cond(c, names, told)?)),
        Attribute::Validity(at, c) => Ok(Attribute::Validity(*at, copy_cond(c, names, told)?)),
        Attribute::TypeOf { at, word, parts } => Ok(Attribute::TypeOf {
            at: *at,
            word: copy_type_word(word, names.alloc)?,
            parts: copy_parts(parts, item, names, told)?,
        }),
        Attribute::Number(at, n) => Ok(Attribute::Number(*at, *n)),
        Attribute::Operation(at, o) => Ok(Attribute::Operation(*at, *o)),
        Attribute::Transaction { at, number, parts } => Ok(Attribute::Transaction {
            at: *at,
            number: *number,
            parts: copy_parts(parts, item, names, told)?,
        }),
        Attribute::ResponseCodes(at, all) => {
            Ok(Attribute::ResponseCodes(*at, copy_responses(all, names.alloc)?))
        }
        Attribute::Items(at, entries) => {
            Ok(Attribute::Items(*at, copy_conds(entries, names, told)?))
        }
        Attribute::Members(at, all) => {
            Ok(Attribute::Members(*at, copy_parts(all, item, names, told)?))
        }
        Attribute::Definition(at, parts) => {
            Ok(Attribute::Definition(*at, copy_definition(parts, names, told)?))
        }
        Attribute::Elements(at, all) => {
            Ok(Attribute::Elements(*at, copy_parts(all, item, names, told)?))
        }
    }
}

/// The attributes of an item with the meaning of their names.
pub fn copy_attributes<'a>(
    attributes: &'a [Attribute<Path>],
    item: &Item<Path>,
    names: &Names,
    told: &mut Vec<Breach<'a>>,
) -> Result<Vec<Attribute<Target>>, AllocError>
    requires { locals_in (map (attribute_of path_of) attributes.now) ≤ 64 }
    ensures told { Told (description_of names.now)
        (flat_map (attribute_uses (item_of path_of item.now).sort)
        (map (attribute_of path_of) attributes.now)) (paths_in_attributes attributes.now)
        told.old.items told.new.items result }
    ensures sound { Copies (each (resolved_attribute (read_by names.now)
        (item_of path_of item.now).sort) (map (attribute_of path_of) attributes.now))
        (λ t. map numbered_attribute t.items) result }
    ensures kept { Keeps (flat_map tokens_in_attribute attributes.now)
        (λ t. flat_map tokens_in_attribute t.items) result }
{
    let mut copies = Vec::with_capacity(names.alloc, attributes.len())?;
    for attribute in attributes {
        copies.push(copy_attribute(attribute, item, names, told)?)?;
    }
    Ok(copies)
}
