//! The types of variables.

ghost use Rattle.std.specs.Prelude.{OnOk};
ghost use Rattle.std.specs.List.{flat_map};
ghost use Rattle.edd_breaches.specs.Told.{Tells};
ghost use Rattle.edd_types.specs.Rules.{word_told, type_told, types_told};

use edd_breaches::{Breach, Rule, tell};
use edd_syntax::item::{Attribute, Item, TypeWord};
use edd_syntax::numbers::TokenNo;
use edd_syntax::reference::Target;
use std::alloc::AllocError;

#[tactic(auto, using(edd_breaches::proofs::TellLaws::tells))]
fn tell_word<'a>(
    name: &'a str,
    word: &'a TypeWord,
    at: TokenNo,
    told: &mut Vec<Breach<'a>>,
) -> Result<(), AllocError>
    ensures told { OnOk result
        (Tells (word_told name.now word.now at) told.old.items told.new.items) }
{
    match word {
        TypeWord::Known {
            size: Some(size),
            ..
        } if *size == 0 || *size > 4 => tell(Rule::BadSize(name), at, told),
        TypeWord::Known { .. } => Ok(()),
        TypeWord::Other(other) => {
            let word = other.as_str();
            if word == "FLOAT" || word == "DOUBLE" {
                return tell(Rule::FloatVariable(name), at, told);
            }
            let variable = name;
            tell(Rule::OtherType { variable, word }, at, told)
        }
    }
}

#[tactic(auto, using(edd_breaches::proofs::TellLaws::tells))]
fn tell_type<'a>(
    name: &'a str,
    attribute: &'a Attribute<Target>,
    told: &mut Vec<Breach<'a>>,
) -> Result<(), AllocError>
    ensures told { OnOk result
        (Tells (type_told name.now attribute.now) told.old.items told.new.items) }
{
    match attribute {
        Attribute::TypeOf { at, word, .. } => tell_word(name, word, *at, told),
        _ => Ok(()),
    }
}

#[tactic(auto, using(edd_breaches::proofs::TellLaws::tells, edd_breaches::proofs::TellLaws::tells_more))]
fn tell_types_of<'a>(
    name: &'a str,
    attributes: &'a [Attribute<Target>],
    told: &mut Vec<Breach<'a>>,
) -> Result<(), AllocError>
    ensures told { OnOk result
        (Tells (flat_map (type_told name.now) attributes.now) told.old.items told.new.items) }
{
    for attribute in attributes {
        tell_type(name, attribute, told)?;
    }
    Ok(())
}

/// Tells of each variable of a type that the profile doesn't have.
#[tactic(auto, using(edd_breaches::proofs::TellLaws::tells, edd_breaches::proofs::TellLaws::tells_more))]
pub fn tell_types<'a>(
    items: &'a [Item<Target>],
    told: &mut Vec<Breach<'a>>,
) -> Result<(), AllocError>
    ensures told { OnOk result (Tells (types_told items.now) told.old.items told.new.items) }
{
    for item in items {
        tell_types_of(item.name(), item.attributes(), told)?;
    }
    Ok(())
}
