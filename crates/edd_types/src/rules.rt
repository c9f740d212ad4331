//! All rules of the profile, one after another.

ghost use Rattle.std.specs.Prelude.{◌≡◌, OnOk};
ghost use Rattle.std.specs.List.{flat_map};
ghost use Rattle.edd_breaches.specs.Told.{Tells, refusals};
ghost use Rattle.edd_syntax.specs.Item.{Identification};
ghost use Rattle.edd_syntax.specs.ItemView.{numbered_items};
ghost use Rattle.edd_syntax.specs.Resolved.{description};
ghost use Rattle.edd_syntax.specs.SubsetRules.{subset_breaches};
ghost use Rattle.edd_types.specs.declared.sought.Calls.TheVariants as calls;
ghost use Rattle.edd_types.specs.Rules.{breaks_told_in_method, constants_told, labels_told_in_method, elements_told, attribute_told, rule_told, all_told};

use crate::attributes::{tell_conditions, tell_method, tell_transaction};
use crate::breaks::tell_breaks;
use crate::labels::tell_labels;
use crate::options::tell_options;
use crate::sought::{Calls, Sought};
use crate::types::tell_types;
use edd_breaches::{Breach, Rule};
use edd_duplicates::tell_elements;
use edd_syntax::item::{Attribute, Item};
use edd_syntax::reference::Target;
use std::alloc::{AllocError, Global};

#[tactic(auto, using(edd_breaches::proofs::TellLaws::tells))]
fn tell_breaks_in<'a>(
    attribute: &Attribute<Target>,
    told: &mut Vec<Breach<'a>>,
) -> Result<(), AllocError>
    ensures told { OnOk result
        (Tells (breaks_told_in_method attribute.now) told.old.items told.new.items) }
{
    match attribute {
        Attribute::Definition(_, parts) => tell_breaks(parts, false, false, told),
        _ => Ok(()),
    }
}

#[tactic(auto, using(edd_breaches::proofs::TellLaws::tells))]
fn tell_constants_in<'a>(
    attribute: &Attribute<Target>,
    told: &mut Vec<Breach<'a>>,
) -> Result<(), AllocError>
    ensures told { OnOk result (Tells (constants_told attribute.now) told.old.items told.new.items) }
{
    match attribute {
        Attribute::Transaction { parts, .. } => tell_transaction(parts, Sought::Constant, told),
        _ => Ok(()),
    }
}

#[tactic(auto, using(edd_breaches::proofs::TellLaws::tells))]
fn tell_labels_in<'a>(
    attribute: &Attribute<Target>,
    alloc: Global,
    told: &mut Vec<Breach<'a>>,
) -> Result<(), AllocError>
    ensures told { OnOk result
        (Tells (labels_told_in_method attribute.now) told.old.items told.new.items) }
{
    match attribute {
        Attribute::Definition(_, parts) => tell_labels(parts, alloc, told),
        _ => Ok(()),
    }
}

#[tactic(auto, using(edd_breaches::proofs::TellLaws::tells))]
fn tell_elements_in<'a>(
    attribute: &Attribute<Target>,
    alloc: Global,
    told: &mut Vec<Breach<'a>>,
) -> Result<(), AllocError>
    ensures told { OnOk result (Tells (elements_told attribute.now) told.old.items told.new.items) }
{
    match attribute {
        Attribute::Elements(_, elements) => tell_elements(elements, alloc, told),
        _ => Ok(()),
    }
}

// Tells of one of the rules that speak of single attributes.
#[tactic(auto, using(edd_breaches::proofs::TellLaws::tells))]
fn tell_attribute<'a>(
    attribute: &Attribute<Target>,
    which: Calls,
    rule: Rule<'a>,
    alloc: Global,
    told: &mut Vec<Breach<'a>>,
) -> Result<(), AllocError>
    ensures told { OnOk result
        (Tells (attribute_told which rule.entry attribute.now) told.old.items told.new.items) }
{
    match rule {
        Rule::Mismatch => {
            tell_options(attribute, told)?;
            tell_method(attribute, Sought::Call(which), told)?;
            tell_conditions(attribute, Sought::Call(which), told)
        }
        Rule::FloatValue => {
            tell_method(attribute, Sought::Decimal, told)?;
            tell_conditions(attribute, Sought::Decimal, told)
        }
        Rule::BreakOutside => tell_breaks_in(attribute, told),
        Rule::ConstRange => tell_constants_in(attribute, told),
        Rule::DuplicateCase => {
            tell_labels_in(attribute, alloc, told)?;
            tell_conditions(attribute, Sought::Default, told)
        }
        Rule::DuplicateElement => tell_elements_in(attribute, alloc, told),
        _ => Ok(()),
    }
}

#[tactic(auto, using(edd_breaches::proofs::TellLaws::tells, edd_breaches::proofs::TellLaws::tells_more))]
fn tell_attributes<'a>(
    attributes: &[Attribute<Target>],
    which: Calls,
    rule: Rule<'a>,
    alloc: Global,
    told: &mut Vec<Breach<'a>>,
) -> Result<(), AllocError>
    ensures told { OnOk result
        (Tells (flat_map (attribute_told which rule.entry) attributes.now) told.old.items told.new.items) }
{
    for attribute in attributes {
        tell_attribute(attribute, which, rule, alloc, told)?;
    }
    Ok(())
}

#[tactic(auto, using(edd_breaches::proofs::TellLaws::tells, edd_breaches::proofs::TellLaws::tells_more))]
fn tell_rule<'a>(
    items: &[Item<Target>],
    which: Calls,
    rule: Rule<'a>,
    alloc: Global,
    told: &mut Vec<Breach<'a>>,
) -> Result<(), AllocError>
    ensures told { OnOk result (Tells (rule_told which rule.entry items.now) told.old.items told.new.items) }
{
    for item in items {
        tell_attributes(item.attributes(), which, rule, alloc, told)?;
    }
    Ok(())
}

/// Tells the breaches of the profile, rule by rule: the types and sizes of variables, then what
/// functions and types take, decimals, `break` and `continue`, data constants and masks, labels,
/// elements; each with its token, and where two clash with that of the first. Of calls it tells
/// those that are looked for.
#[tactic(auto, using(edd_breaches::proofs::TellLaws::tells), unfolding(crate::specs::Rules::all_told))]
pub fn tell_profile<'a>(
    items: &'a [Item<Target>],
    which: Calls,
    alloc: Global,
    told: &mut Vec<Breach<'a>>,
) -> Result<(), AllocError>
    ensures told { OnOk result (Tells (all_told which items.now) told.old.items told.new.items) }
    ensures rules { OnOk result ((i : Identification) → refusals (all_told calls.All items.now)
        ≡ subset_breaches (description i (numbered_items items.now))) }
{
    tell_types(items, told)?;
    tell_rule(items, which, Rule::Mismatch, alloc, told)?;
    tell_rule(items, which, Rule::FloatValue, alloc, told)?;
    tell_rule(items, which, Rule::BreakOutside, alloc, told)?;
    tell_rule(items, which, Rule::ConstRange, alloc, told)?;
    tell_rule(items, which, Rule::DuplicateCase, alloc, told)?;
    tell_rule(items, which, Rule::DuplicateElement, alloc, told)?;
    Ok(())
}
