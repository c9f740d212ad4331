//! Breaches in attributes, under conditions and in methods.

ghost use Rattle.std.specs.Prelude.{OnOk};
ghost use Rattle.std.specs.List.{flat_map};
ghost use Rattle.edd_breaches.specs.Told.{Tells};
ghost use Rattle.edd_types.specs.Attributes.{type_part_told, transaction_part_told, conditions_told, method_told};

use crate::conditionals::{tell_cond, tell_conds};
use crate::sought::Sought;
use crate::statements::tell_parts;
use edd_breaches::Breach;
use edd_syntax::item::{Attribute, TransactionPart, TypePart};
use edd_syntax::reference::Target;
use std::alloc::AllocError;

/// Tells of such breaches in an option or an enumerator of a type.
pub fn tell_type_part<'a>(
    part: &TypePart<Target>,
    sought: Sought,
    told: &mut Vec<Breach<'a>>,
) -> Result<(), AllocError>
    ensures told { OnOk result
        (Tells (type_part_told sought part.now) told.old.items told.new.items) }
{
    match part {
        TypePart::OneNumber { value, .. } => tell_cond(value, sought, told),
        TypePart::OneFormat { format, .. } => tell_cond(format, sought, told),
        TypePart::Element(c) => tell_cond(c, sought, told),
    }
}

#[tactic(auto, using(edd_breaches::proofs::TellLaws::tells, edd_breaches::proofs::TellLaws::tells_more))]
fn tell_type_parts<'a>(
    parts: &[TypePart<Target>],
    sought: Sought,
    told: &mut Vec<Breach<'a>>,
) -> Result<(), AllocError>
    ensures told { OnOk result
        (Tells (flat_map (type_part_told sought) parts.now) told.old.items told.new.items) }
{
    for part in parts {
        tell_type_part(part, sought, told)?;
    }
    Ok(())
}

fn tell_transaction_part<'a>(
    part: &TransactionPart<Target>,
    sought: Sought,
    told: &mut Vec<Breach<'a>>,
) -> Result<(), AllocError>
    ensures told { OnOk result
        (Tells (transaction_part_told sought part.now) told.old.items told.new.items) }
{
    match part {
        TransactionPart::Request(_, all) => tell_conds(all, sought, told),
        TransactionPart::Reply(_, all) => tell_conds(all, sought, told),
    }
}

/// Tells of such breaches in a transaction.
#[tactic(auto, using(edd_breaches::proofs::TellLaws::tells, edd_breaches::proofs::TellLaws::tells_more))]
pub fn tell_transaction<'a>(
    parts: &[TransactionPart<Target>],
    sought: Sought,
    told: &mut Vec<Breach<'a>>,
) -> Result<(), AllocError>
    ensures told { OnOk result
        (Tells (flat_map (transaction_part_told sought) parts.now) told.old.items told.new.items) }
{
    for part in parts {
        tell_transaction_part(part, sought, told)?;
    }
    Ok(())
}

/// Tells of such breaches in what an attribute has under conditions.
#[tactic(auto, using(edd_breaches::proofs::TellLaws::tells))]
pub fn tell_conditions<'a>(
    attribute: &Attribute<Target>,
    sought: Sought,
    told: &mut Vec<Breach<'a>>,
) -> Result<(), AllocError>
    ensures told { OnOk result
        (Tells (conditions_told sought attribute.now) told.old.items told.new.items) }
{
    match attribute {
        Attribute::OneText(_, _, c) => tell_cond(c, sought, told),
        Attribute::Handling(_, c) => tell_cond(c, sought, told),
        Attribute::Validity(_, c) => tell_cond(c, sought, told),
        Attribute::TypeOf { parts, .. } => tell_type_parts(parts, sought, told),
        Attribute::Transaction { parts, .. } => tell_transaction(parts, sought, told),
        Attribute::Items(_, entries) => tell_conds(entries, sought, told),
        Attribute::Class(_, _)
        | Attribute::Number(_, _)
        | Attribute::Operation(_, _)
        | Attribute::ResponseCodes(_, _)
        | Attribute::Members(_, _)
        | Attribute::Elements(_, _)
        | Attribute::Definition(_, _) => Ok(()),
    }
}

/// Tells of such breaches in the expressions of a method.
#[tactic(auto, using(edd_breaches::proofs::TellLaws::tells))]
pub fn tell_method<'a>(
    attribute: &Attribute<Target>,
    sought: Sought,
    told: &mut Vec<Breach<'a>>,
) -> Result<(), AllocError>
    ensures told { OnOk result
        (Tells (method_told sought attribute.now) told.old.items told.new.items) }
{
    match attribute {
        Attribute::Definition(_, parts) => tell_parts(parts, sought, told),
        _ => Ok(()),
    }
}
