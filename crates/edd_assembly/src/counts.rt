//! How many items of each kind there are, and the types of the variables.

ghost use Rattle.std.specs.Prelude.{◌≡◌, ◌≤◌, ◌∷◌, [], map, option_map, IsTrue, IfOk, OnOk, ◌++◌};
ghost use Rattle.std.specs.List.{list_all};
ghost use Rattle.edd_syntax.specs.Device as device;
ghost use Rattle.edd_syntax.specs.ItemView.{numbered_attribute, numbered_item};
ghost use Rattle.edd_syntax.specs.Resolution.{count_of};
ghost use Rattle.edd_assembly.specs.Assembly as assembly;

use edd_image::VarKind;
use edd_syntax::item::{Attribute, Item, ItemKind, TypeWord};
use edd_syntax::numbers::Kind;
use edd_syntax::reference::Target;
use edd_syntax::types::VarType;
use std::alloc::{AllocError, Global};

/// How many items of a kind there are.
pub fn count(items: &[Item<Target>], kind: Kind) -> u16
    requires { count_of kind (map numbered_item items.now) ≤ 4096 }
    ensures { result ≡ count_of kind (map numbered_item items.now) }
{
    let mut number = 0;
    for item in items {
        if item.kind() == kind {
            number += 1;
        }
    }
    number
}

fn type_in(attribute: &Attribute<Target>) -> Option<(VarType, u32)>
    ensures { option_map assembly.type_of_pair result
        ≡ assembly.type_in (numbered_attribute attribute.now) }
{
    match attribute {
        Attribute::TypeOf {
            word: TypeWord::Known { kind, size },
            ..
        } => Some((*kind, size.unwrap_or(1))),
        _ => None,
    }
}

// The type and the size that are written; a size that isn't written is 1.
fn written_type(attributes: &[Attribute<Target>]) -> (VarType, u32)
    ensures { assembly.type_of_pair result
        ≡ device.written_type (map numbered_attribute attributes.now) }
{
    for attribute in attributes {
        if let Some(found) = type_in(attribute) {
            return found;
        }
    }
    (VarType::Integer, 1)
}

fn variable_attributes(item: &Item<Target>) -> Option<&[Attribute<Target>]>
    ensures { option_map (λ a. map numbered_attribute a.now) result ≡ assembly.variable_attributes
        (numbered_item item.now) }
{
    match item.sort {
        ItemKind::Variable => Some(&item.attributes),
        ItemKind::Command
        | ItemKind::Menu
        | ItemKind::Collection(_)
        | ItemKind::Method
        | ItemKind::Array => None,
    }
}

fn push_variable(kinds: &mut Vec<VarKind>, item: &Item<Target>) -> Result<(), AllocError>
    requires { IsTrue (assembly.is_small_variable (numbered_item item.now)) }
    ensures { OnOk result (kinds.new.items ≡ kinds.old.items
        ++ assembly.variable_kinds (numbered_item item.now ∷ [])) }
{
    if let Some(attributes) = variable_attributes(item) {
        let (var_type, size) = written_type(attributes);
        kinds.push(VarKind {
            var_type,
            size: size as u8,
        })?;
    }
    Ok(())
}

/// The types and the sizes of the variables, by number.
pub fn variable_kinds(alloc: Global, items: &[Item<Target>]) -> Result<Vec<VarKind>, AllocError>
    requires { IsTrue (list_all assembly.is_small_variable (map numbered_item items.now)) }
    ensures { IfOk result (λ kinds. kinds.items
        ≡ assembly.variable_kinds (map numbered_item items.now)) }
{
    let mut kinds = Vec::new(alloc);
    for item in items {
        push_variable(&mut kinds, item)?;
    }
    Ok(kinds)
}
