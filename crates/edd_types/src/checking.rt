//! The check of a description against the profile.

ghost use Rattle.std.specs.Prelude.{◌≡◌, [], IfOk, IfErr, OnOk};
ghost use Rattle.edd_breaches.specs.Faults.{IsFirstOf};
ghost use Rattle.edd_syntax.specs.ItemView.{identification_of, numbered_items};
ghost use Rattle.edd_syntax.specs.Resolved.{description};
ghost use Rattle.edd_syntax.specs.SubsetRules.{subset_breaches};

use crate::rules::tell_profile;
use crate::sought::Calls;
use edd_breaches::RuleFault;
use edd_syntax::checked::Checked;
use edd_syntax::resolved::Resolved;
use std::alloc::Global;

/// Checks a description against the profile, rule by rule: the types and sizes of variables, then
/// what functions and types take, decimals, `break` and `continue`, data constants and masks,
/// labels, elements. The answer shares the trees of the given one.
pub fn check(alloc: Global, resolved: &Resolved) -> Result<Checked, RuleFault>
    ensures identification { IfOk result (λ c. c.identification ≡ resolved.now.identification) }
    ensures items { IfOk result (λ c. c.items.value ≡ resolved.now.items.value) }
    ensures accepted { OnOk result
        (subset_breaches (description (identification_of resolved.now.identification)
        (numbered_items resolved.now.items.value.items)) ≡ []) }
    ensures refused { IfErr result
        (IsFirstOf (subset_breaches (description (identification_of resolved.now.identification)
        (numbered_items resolved.now.items.value.items)))) }
{
    let mut told = Vec::new(alloc);
    tell_profile(&resolved.items, Calls::All, alloc, &mut told)?;
    match told.first() {
        None => Ok(Checked::new(resolved)?),
        Some(first) => Err(RuleFault::of(alloc, first)?),
    }
}
