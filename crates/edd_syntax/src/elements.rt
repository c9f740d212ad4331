//! The elements of arrays, in the order in which an image has them.

ghost use Rattle.std.specs.Prelude.{◌≡◌, ◌++◌, ◌≤◌, map, IfOk, OnOk};
ghost use Rattle.std.specs.List.{flat_map};
ghost use Rattle.edd_syntax.specs.declared.numbers.Kind.TheVariants as kind;
ghost use Rattle.edd_syntax.specs.Device.{environment};
ghost use Rattle.edd_syntax.specs.Elements as listed;
ghost use Rattle.edd_syntax.specs.ItemView.{identification_of, numbered_items, numbered_array_element, numbered_attribute, numbered_item};
ghost use Rattle.edd_syntax.specs.Resolution.{count_of};
ghost use Rattle.edd_syntax.specs.Resolved.{description};
ghost use Rattle.edd_syntax.specs.Rows.{of_kind};
ghost use Rattle.edd_syntax.specs.Targets as targets;

use crate::checked::Checked;
use crate::item::{ArrayElement, Attribute, Item};
use crate::numbers::{ArrNo, Element, ItemNo, Kind, VarNo};
use crate::reference::Target;
use std::alloc::{AllocError, Global};

// An array of a checked description has no other reference.
fn variable_of(target: Target) -> VarNo
    ensures { result ≡ targets.variable_of target }
{
    match target {
        Target::Item(ItemNo::Variable(variable)) => variable,
        _ => VarNo(0),
    }
}

fn push_elements(
    found: &mut Vec<Element>,
    array: ArrNo,
    elements: &[ArrayElement<Target>],
) -> Result<(), AllocError>
    ensures { OnOk result (found.new.items ≡ found.old.items
        ++ map (listed.element_of array) (map numbered_array_element elements.now)) }
{
    for element in elements {
        let var = variable_of(element.variable);
        found.push(Element {
            array,
            number: element.number,
            var,
        })?;
    }
    Ok(())
}

fn push_attribute(
    found: &mut Vec<Element>,
    array: ArrNo,
    attribute: &Attribute<Target>,
) -> Result<(), AllocError>
    ensures { OnOk result (found.new.items ≡ found.old.items ++ map (listed.element_of array)
        (listed.written_elements (numbered_attribute attribute.now))) }
{
    match attribute {
        Attribute::Elements(_, elements) => push_elements(found, array, elements),
        _ => Ok(()),
    }
}

// The elements of an array in the order of the source.
fn push_written(
    found: &mut Vec<Element>,
    array: ArrNo,
    attributes: &[Attribute<Target>],
) -> Result<(), AllocError>
    ensures { OnOk result (found.new.items ≡ found.old.items ++ map (listed.element_of array)
        (flat_map listed.written_elements (map numbered_attribute attributes.now))) }
{
    for attribute in attributes {
        push_attribute(found, array, attribute)?;
    }
    Ok(())
}

// Only a sort that is stable keeps elements of one number in the order of the source.
fn sort(found: &mut Vec<Element>) -> Result<(), AllocError>
    ensures { OnOk result (found.new.items ≡ listed.by_number found.old.items) }
{
    found.sort_by_key(|element| element.number)
}

fn push_array(
    all: &mut Vec<Element>,
    array: ArrNo,
    item: &Item<Target>,
    alloc: Global,
) -> Result<(), AllocError>
    ensures { OnOk result (all.new.items
        ≡ all.old.items ++ listed.elements_of array (numbered_item item.now)) }
{
    let mut found = Vec::new(alloc);
    push_written(&mut found, array, item.attributes())?;
    sort(&mut found)?;
    all.extend_from_slice(&found)
}

fn push_arrays(
    all: &mut Vec<Element>,
    items: &[Item<Target>],
    alloc: Global,
) -> Result<(), AllocError>
    requires { count_of kind.Array (map numbered_item items.now) ≤ 4096 }
    ensures { OnOk result (all.new.items ≡ all.old.items
        ++ listed.elements_from 0 (of_kind kind.Array (map numbered_item items.now))) }
{
    let mut number = 0;
    for item in items {
        if item.kind() == Kind::Array {
            push_array(all, ArrNo(number), item, alloc)?;
            number += 1;
        }
    }
    Ok(())
}

impl Checked {
    /// The elements of all arrays, by array and number.
    pub fn elements(&self, alloc: Global) -> Result<Vec<Element>, AllocError>
        ensures { IfOk result (λ elements. elements.items ≡ (environment (description
            (identification_of self.now.identification)
            (numbered_items self.now.items.value.items))).elements) }
    {
        let mut all = Vec::new(alloc);
        push_arrays(&mut all, &self.items, alloc)?;
        Ok(all)
    }
}
