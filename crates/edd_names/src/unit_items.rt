//! The items of a unit with the meaning of their names.

ghost use Rattle.std.specs.Prelude.{◌≡◌, ◌∷◌, false, map, nat_lt};
ghost use Rattle.std.specs.List.{flat_map, list_any};
ghost use Rattle.edd_syntax.specs.ItemView.{item_of, numbered_attribute, numbered_item};
ghost use Rattle.edd_syntax.specs.NameRules.{local_limit, locals_of};
ghost use Rattle.edd_syntax.specs.NameUses.{item_uses};
ghost use Rattle.edd_syntax.specs.ResolvedTrees.{each, resolved_item};
ghost use Rattle.edd_syntax.specs.TreeView.{path_of};
ghost use Rattle.edd_syntax.specs.WordsView.{text_bytes};
ghost use Rattle.edd_name_meanings.specs.Directory.{description_of, read_by};
ghost use Rattle.edd_name_meanings.specs.Copies.{Copies, Keeps, Told};
ghost use Rattle.edd_name_meanings.specs.TokensIn.{tokens_in_attribute, tokens_in_item, tokens_in_items};
ghost use Rattle.edd_name_meanings.specs.PathsIn.{paths_in_item, paths_in_items};

use crate::attributes::copy_attributes;
use edd_breaches::Breach;
use edd_name_meanings::directory::Names;
use edd_syntax::item::{Attribute, Item};
use edd_syntax::reference::{Path, Target};
use edd_syntax::text::CompactString;
use std::alloc::AllocError;

// An item of the same kind with these attributes.
fn like(item: &Item<Path>, name: CompactString, attributes: Vec<Attribute<Target>>) -> Item<Target>
    ensures sort { (numbered_item result).sort ≡ (item_of path_of item.now).sort }
    ensures name { (numbered_item result).name ≡ text_bytes name }
    ensures attributes { (numbered_item result).attributes
        ≡ map numbered_attribute attributes.items }
    ensures kept { tokens_in_item result
        ≡ item.now.at ∷ flat_map tokens_in_attribute attributes.items }
{
    Item {
        sort: item.sort,
        at: item.at,
        name,
        attributes,
    }
}

#[tactic(auto, using(edd_name_meanings::proofs::UseLaws::uses))]
fn copy_item<'a>(
    item: &'a Item<Path>,
    names: &Names,
    told: &mut Vec<Breach<'a>>,
) -> Result<Item<Target>, AllocError>
    requires { nat_lt local_limit (locals_of (item_of path_of item.now)) ≡ false }
    ensures told { Told (description_of names.now) (item_uses (item_of path_of item.now))
        (paths_in_item item.now) told.old.items told.new.items result }
    ensures sound { Copies (resolved_item (read_by names.now) (item_of path_of item.now))
        numbered_item result }
    ensures kept { Keeps (tokens_in_item item.now) tokens_in_item result }
{
    let attributes = copy_attributes(item.attributes(), item, names, told)?;
    let name = CompactString::new(names.alloc, item.name())?;
    Ok(like(item, name, attributes))
}

/// The items of a unit with the meaning of their names, where no method has too many locals.
pub fn copy_items<'a>(
    items: &'a [Item<Path>],
    names: &Names,
    told: &mut Vec<Breach<'a>>,
) -> Result<Vec<Item<Target>>, AllocError>
    requires { list_any (λ i. nat_lt local_limit (locals_of i)) (map (item_of path_of) items.now)
        ≡ false }
    ensures told { Told (description_of names.now)
        (flat_map item_uses (map (item_of path_of) items.now))
        (paths_in_items items.now) told.old.items told.new.items result }
    ensures sound { Copies (each (resolved_item (read_by names.now))
        (map (item_of path_of) items.now)) (λ t. map numbered_item t.items) result }
    ensures kept { Keeps (tokens_in_items items.now) (λ t. tokens_in_items t.items) result }
{
    let mut copies = Vec::with_capacity(names.alloc, items.len())?;
    for item in items {
        copies.push(copy_item(item, names, told)?)?;
    }
    Ok(copies)
}
