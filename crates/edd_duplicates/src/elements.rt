//! Numbers that two elements of one array have.

ghost use Rattle.std.specs.Prelude.{[], ℕ, List, OnOk};
ghost use Rattle.edd_breaches.specs.Told.{Tells};
ghost use Rattle.edd_breaches.specs.Along.{told_along};
ghost use Rattle.edd_duplicates.specs.Elements.{HasNumbers, element_told, numbers_behind};

use edd_breaches::{Breach, Rule, tell_clash};
use edd_syntax::item::ArrayElement;
use edd_syntax::numbers::TokenNo;
use edd_syntax::reference::Target;
use std::alloc::{AllocError, Global};
use std::collections::BTreeMap;

// Adds the number of an element, or tells of it where it was there. The numbers have the token of
// the first element with each.
#[tactic(auto, using(edd_breaches::proofs::TellLaws::tells))]
fn tell_element<'a>(
    element: &ArrayElement<Target>,
    numbers: &mut BTreeMap<u32, TokenNo>,
    told: &mut Vec<Breach<'a>>,
) -> Result<(), AllocError>
    ensures told { (before : List ℕ) → HasNumbers numbers.old before → OnOk result
        (Tells (element_told before element.now) told.old.items told.new.items) }
    ensures adds { (before : List ℕ) → HasNumbers numbers.old before → OnOk result
        (HasNumbers numbers.new (numbers_behind before element.now)) }
{
    match numbers.insert(element.number, element.at)? {
        None => Ok(()),
        Some(first) => {
            numbers.insert(element.number, first)?;
            tell_clash(Rule::DuplicateElement, element.at, Some(first), told)
        }
    }
}

/// Tells of each element whose number an element before it has.
#[tactic(auto, using(edd_breaches::proofs::TellLaws::tells))]
pub fn tell_elements<'a>(
    elements: &[ArrayElement<Target>],
    alloc: Global,
    told: &mut Vec<Breach<'a>>,
) -> Result<(), AllocError>
    ensures told { OnOk result (Tells (told_along element_told numbers_behind [] elements.now)
        told.old.items told.new.items) }
{
    let mut numbers = BTreeMap::new(alloc);
    for element in elements {
        tell_element(element, &mut numbers, told)?;
    }
    Ok(())
}
