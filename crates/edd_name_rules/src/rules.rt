//! The rules on counts, names and attributes, in the order in which they are answered.

ghost use Rattle.std.specs.Prelude.{◌≡◌, ◌++◌, IfOk, OnOk};
ghost use Rattle.edd_breaches.specs.Told.{Tells, refusals};
ghost use Rattle.edd_syntax.specs.ItemView.{named_items};
ghost use Rattle.edd_syntax.specs.NameRules.{too_many, duplicate_names, duplicate_attributes, missing_attributes};
ghost use Rattle.edd_name_rules.specs.RulesTold.{are_few, rules_told};
ghost use Rattle.edd_name_rules.specs.Walks.{described};

use crate::attributes::tell_missing;
use crate::duplicates::tell_names;
use crate::excess::tell_too_many;
use crate::repeats::tell_repeats;
use edd_breaches::Breach;
use edd_syntax::item::Item;
use edd_syntax::reference::Path;
use std::alloc::{AllocError, Global};

/// All that breaks a rule on counts, names and attributes, each at its token: rule after rule, and
/// for each rule in the order of the source. What there is too much of has no token. Where two
/// clash, the earlier one's token is beside it. The answer is whether there are so few items of each
/// kind, and locals of each method, that they have numbers.
#[tactic(auto, using(edd_breaches::proofs::TellLaws::tells), unfolding(crate::specs::RulesTold::rules_told))]
pub fn tell_rules<'a>(
    items: &'a [Item<Path>],
    alloc: Global,
    told: &mut Vec<Breach<'a>>,
) -> Result<bool, AllocError>
    ensures told { OnOk result (Tells (rules_told items.now) told.old.items told.new.items) }
    ensures few { IfOk result (λ few. few ≡ are_few (named_items items.now)) }
    ensures rules { OnOk result (refusals (rules_told items.now)
        ≡ too_many (described (named_items items.now))
        ++ (duplicate_names (described (named_items items.now))
        ++ (duplicate_attributes (described (named_items items.now))
        ++ missing_attributes (described (named_items items.now))))) }
{
    let are_few = tell_too_many(items, told)?;
    tell_names(items, alloc, told)?;
    tell_repeats(items, alloc, told)?;
    tell_missing(items, told)?;
    Ok(are_few)
}
