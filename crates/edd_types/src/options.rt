//! Options and enumerators that a type does not have.

ghost use Rattle.std.specs.Prelude.{◌≡◌, OnOk};
ghost use Rattle.std.specs.List.{flat_map};
ghost use Rattle.edd_breaches.specs.Told.{Tells};
ghost use Rattle.edd_syntax.specs.SubsetRules as rules;
ghost use Rattle.edd_types.specs.Rules.{option_told, options_told};

use crate::attributes::tell_type_part;
use crate::sought::Sought;
use edd_breaches::{Breach, Rule, tell};
use edd_syntax::item::{Attribute, TypePart, TypeWord};
use edd_syntax::numbers::NumberOption;
use edd_syntax::reference::Target;
use edd_syntax::types::VarType;
use std::alloc::AllocError;

fn is_enumerated(kind: VarType) -> bool
    ensures { result ≡ rules.is_enumerated kind }
{
    match kind {
        VarType::Integer | VarType::UnsignedInteger => false,
        VarType::Enumerated | VarType::BitEnumerated => true,
    }
}

#[tactic(auto, using(edd_breaches::proofs::TellLaws::tells))]
fn tell_option<'a>(
    part: &TypePart<Target>,
    kind: VarType,
    told: &mut Vec<Breach<'a>>,
) -> Result<(), AllocError>
    ensures told { OnOk result (Tells (option_told kind part.now) told.old.items told.new.items) }
{
    match (part, is_enumerated(kind)) {
        (
            TypePart::OneNumber {
                which: NumberOption::DefaultValue,
                ..
            },
            _,
        ) => Ok(()),
        (TypePart::Element(_), true) => Ok(()),
        (TypePart::Element(_), false) => tell_type_part(part, Sought::Enumerator, told),
        (TypePart::OneNumber { at, .. } | TypePart::OneFormat { at, .. }, is_enumerated) => {
            if is_enumerated {
                return tell(Rule::Mismatch, *at, told);
            }
            Ok(())
        }
    }
}

#[tactic(auto, using(edd_breaches::proofs::TellLaws::tells, edd_breaches::proofs::TellLaws::tells_more))]
fn tell_options_of<'a>(
    parts: &[TypePart<Target>],
    kind: VarType,
    told: &mut Vec<Breach<'a>>,
) -> Result<(), AllocError>
    ensures told { OnOk result
        (Tells (flat_map (option_told kind) parts.now) told.old.items told.new.items) }
{
    for part in parts {
        tell_option(part, kind, told)?;
    }
    Ok(())
}

/// Tells of the options and enumerators that the type in an attribute does not have.
#[tactic(auto, using(edd_breaches::proofs::TellLaws::tells))]
pub fn tell_options<'a>(
    attribute: &Attribute<Target>,
    told: &mut Vec<Breach<'a>>,
) -> Result<(), AllocError>
    ensures told { OnOk result (Tells (options_told attribute.now) told.old.items told.new.items) }
{
    match attribute {
        Attribute::TypeOf {
            word: TypeWord::Known { kind, .. },
            parts,
            ..
        } => tell_options_of(parts, *kind, told),
        _ => Ok(()),
    }
}
