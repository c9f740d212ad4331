//! Labels that one `switch` has twice.

ghost use Rattle.std.specs.Prelude.{OnOk};
ghost use Rattle.edd_breaches.specs.Told.{Tells};
ghost use Rattle.edd_syntax.specs.SubsetRules as rules;
ghost use Rattle.edd_syntax.specs.SubsetRules.{no_labels};
ghost use Rattle.edd_breaches.specs.Along.{told_along};
ghost use Rattle.edd_types.specs.Labels.{Holds, labels_told, labels_behind, labels_told_inside};

use edd_breaches::{Breach, Rule, tell_clash};
use edd_syntax::numbers::TokenNo;
use edd_syntax::reference::Target;
use edd_syntax::stmt::{Part, Stmt};
use edd_syntax::wrap::wrap;
use std::alloc::{AllocError, Global};
use std::collections::BTreeMap;

// The labels of a `switch` so far, as numbers of 32 bits, each with the token of the first one.
#[derive(Drop)]
struct Labels {
    cases: BTreeMap<i64, TokenNo>,
    default: Option<TokenNo>,
}

impl Labels {
    fn new(alloc: Global) -> Labels
        ensures { Holds result no_labels }
    {
        Labels {
            cases: BTreeMap::new(alloc),
            default: None,
        }
    }
}

/// Tells of each label that its `switch` has already, in the body of a `switch` or in another
/// block.
#[cycle(labels)]
#[tactic(auto, using(edd_breaches::proofs::TellLaws::tells))]
pub fn tell_labels<'a>(
    parts: &[Part<Target>],
    alloc: Global,
    told: &mut Vec<Breach<'a>>,
) -> Result<(), AllocError>
    ensures told { OnOk result (Tells (told_along labels_told labels_behind no_labels parts.now)
        told.old.items told.new.items) }
{
    let mut labels = Labels::new(alloc);
    for part in parts {
        tell_part(part, &mut labels, alloc, told)?;
    }
    Ok(())
}

#[cycle(labels)]
#[tactic(auto, using(edd_breaches::proofs::TellLaws::tells))]
fn tell_part<'a>(
    part: &Part<Target>,
    labels: &mut Labels,
    alloc: Global,
    told: &mut Vec<Breach<'a>>,
) -> Result<(), AllocError>
    ensures told { (so_far : rules.Labels) → Holds labels.old so_far → OnOk result
        (Tells (labels_told so_far part.now) told.old.items told.new.items) }
    ensures adds { (so_far : rules.Labels) → Holds labels.old so_far → OnOk result
        (Holds labels.new (labels_behind so_far part.now)) }
{
    match part {
        Part::Declare(_) => Ok(()),
        Part::Statement(s) => tell_inside(s, alloc, told),
        Part::CaseLabel { at, label } => {
            let case = wrap(32, i128::from(*label));
            let earlier = labels.cases.get(&case).copied();
            labels.cases.insert(case, earlier.unwrap_or(*at))?;
            match earlier {
                None => Ok(()),
                Some(_) => tell_clash(Rule::DuplicateCase, *at, earlier, told),
            }
        }
        Part::DefaultLabel { at } => match labels.default {
            None => {
                labels.default = Some(*at);
                Ok(())
            }
            Some(_) => tell_clash(Rule::DuplicateCase, *at, labels.default, told),
        },
    }
}

#[cycle(labels)]
#[tactic(auto, using(edd_breaches::proofs::TellLaws::tells))]
fn tell_inside<'a>(
    s: &Stmt<Target>,
    alloc: Global,
    told: &mut Vec<Breach<'a>>,
) -> Result<(), AllocError>
    ensures told { OnOk result (Tells (labels_told_inside s.now) told.old.items told.new.items) }
{
    match s {
        Stmt::Block(parts) => tell_labels(parts, alloc, told),
        Stmt::Switch(_, parts) => tell_labels(parts, alloc, told),
        Stmt::If(_, body) | Stmt::While(_, body) | Stmt::Do(body, _) | Stmt::For { body, .. } => {
            tell_inside(body, alloc, told)
        }
        Stmt::IfElse(_, first, otherwise) => {
            tell_inside(first, alloc, told)?;
            tell_inside(otherwise, alloc, told)
        }
        Stmt::Empty
        | Stmt::Evaluate(_)
        | Stmt::Break { .. }
        | Stmt::Continue { .. }
        | Stmt::Return => Ok(()),
    }
}
