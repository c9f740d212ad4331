//! What there is too much of.

ghost use Rattle.std.specs.Prelude.{◌≡◌, IfOk, OnOk};
ghost use Rattle.edd_breaches.specs.Told.{Tells};
ghost use Rattle.edd_syntax.specs.ItemView.{named_items};
ghost use Rattle.edd_name_rules.specs.RulesTold.{are_few, excess_told, too_many_told};

use crate::counts::{first_extra_item, has_too_many_items};
use crate::sizes::has_too_many_nodes;
use crate::slots::{first_with_locals, first_with_transactions};
use edd_breaches::{Breach, Rule};
use edd_syntax::item::Item;
use edd_syntax::limits::Limit;
use edd_syntax::numbers::TokenNo;
use edd_syntax::reference::Path;
use std::alloc::AllocError;

// Where there is too much of something, it is told, with the item in which it is so.
#[tactic(auto, using(crate::proofs::Telling::excess))]
fn tell_excess<'a>(
    is_over: bool,
    limit: Limit,
    first: Option<TokenNo>,
    told: &mut Vec<Breach<'a>>,
) -> Result<(), AllocError>
    ensures told { OnOk result (Tells (excess_told is_over limit) told.old.items told.new.items) }
{
    if !is_over {
        return Ok(());
    }
    told.push(Breach {
        rule: Rule::TooMany(limit),
        place: None,
        earlier: first,
    })?;
    Ok(())
}

/// Tells what there is too much of. The answer is whether there are so few items of each kind, and
/// locals of each method, that they have numbers.
#[tactic(auto, using(edd_breaches::proofs::TellLaws::tells))]
pub fn tell_too_many<'a>(
    items: &[Item<Path>],
    told: &mut Vec<Breach<'a>>,
) -> Result<bool, AllocError>
    ensures told { OnOk result (Tells (too_many_told items.now) told.old.items told.new.items) }
    ensures few { IfOk result (λ few. few ≡ are_few (named_items items.now)) }
{
    let has_many_items = has_too_many_items(items);
    tell_excess(
        has_many_items,
        Limit::Items,
        first_extra_item(items, has_many_items),
        told,
    )?;
    let transactions = first_with_transactions(items);
    tell_excess(
        transactions.is_some(),
        Limit::Transactions,
        transactions,
        told,
    )?;
    let locals = first_with_locals(items);
    tell_excess(locals.is_some(), Limit::Locals, locals, told)?;
    tell_excess(has_too_many_nodes(items), Limit::Nodes, None, told)?;
    Ok(!has_many_items && !locals.is_some())
}
