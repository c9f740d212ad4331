//! The meaning of all names of a description.

ghost use Rattle.std.specs.Prelude.{◌≡◌, ◌++◌, [], false, Some, IfErr, IfOk, IfSome, is_some};
ghost use Rattle.edd_breaches.specs.Faults.{IsFirstOf};
ghost use Rattle.edd_breaches.specs.Told.{Tells, broken};
ghost use Rattle.edd_syntax.specs.Accepted.{name_breaches};
ghost use Rattle.edd_syntax.specs.ItemView.{identification_of, numbered_items};
ghost use Rattle.edd_syntax.specs.NameRules.{too_many};
ghost use Rattle.edd_syntax.specs.Resolved.{description};
ghost use Rattle.edd_syntax.specs.ResolvedTrees.{resolved_unit};
ghost use Rattle.edd_names.specs.Told.{AreAtTokens, IsMeant, IsRead, names_told, told_of_names};
ghost use Rattle.edd_names.specs.Units.{unit_view};

use crate::unit_items::copy_items;
use edd_breaches::{Breach, RuleFault};
use edd_name_meanings::directory::Names;
use edd_name_rules::tell_rules;
use edd_syntax::item::Item;
use edd_syntax::reference::Target;
use edd_syntax::resolved::Resolved;
use edd_syntax::unit::Unit;
use std::alloc::{AllocError, Global};

/// All that breaks a rule on names, each at its token, and the items of the unit, at their tokens,
/// with the meaning of each name in its place: of one that means nothing, an item of the first kind
/// that may be there. What there is too much of has no numbers: then it is not asked what names
/// mean, and there are no items.
pub fn tell_names<'a>(
    alloc: Global,
    unit: &'a Unit,
    told: &mut Vec<Breach<'a>>,
) -> Result<Option<Vec<Item<Target>>>, AllocError>
    ensures told { IfOk result (λ items. Tells (names_told unit.now (is_some items)) told.old.items
        told.new.items) }
    ensures rules { IfOk result (λ items. broken told.new.items ≡ broken told.old.items
        ++ told_of_names (unit_view unit.now) (is_some items)) }
    ensures counted { IfOk result (λ items. is_some items ≡ false
        → too_many (unit_view unit.now) ≡ [] → ⊥) }
    ensures read { IfOk result (λ items. IfSome items
        (λ v. IsRead (unit_view unit.now) (numbered_items v.items))) }
    ensures kept { IfOk result (λ items. IfSome items
        (λ v. AreAtTokens unit.now v.items)) }
    ensures sound { IfOk result (λ items. IfSome items
        (λ v. IsMeant (unit_view unit.now) (numbered_items v.items))) }
{
    if !tell_rules(&unit.items, alloc, told)? {
        return Ok(None);
    }
    let names = Names::new(alloc, unit.identification, &unit.items)?;
    Ok(Some(copy_items(&unit.items, &names, told)?))
}

/// The unit with the meaning of each name in its place: the number of an item, the slot of a local,
/// or the function of a call. An error other than refused memory is the first broken rule on counts
/// (40), names that are there twice (20), attributes that are there twice (23), missing attributes
/// (24), and on unknown names (21) and items of a wrong kind (22) in the order of the source.
pub fn resolve(alloc: Global, unit: &Unit) -> Result<Resolved, RuleFault>
    ensures sound { IfOk result (λ r. resolved_unit (unit_view unit.now)
        ≡ Some (description (identification_of r.identification)
        (numbered_items r.items.value.items))) }
    ensures accepted { IfOk result (λ r. name_breaches (unit_view unit.now) ≡ []) }
    ensures refused { IfErr result (IsFirstOf (name_breaches (unit_view unit.now))) }
{
    let mut told = Vec::new(alloc);
    let items = tell_names(alloc, unit, &mut told)?;
    if let Some(first) = told.first() {
        return Err(RuleFault::of(alloc, first)?);
    }
    match items {
        Some(items) => Ok(Resolved::new(alloc, unit.identification, items)?),
        None => unreachable!(),
    }
}
