//! The values under conditions.

ghost use Rattle.std.specs.Prelude.{List, OnOk};
ghost use Rattle.edd_breaches.specs.Told.{Told, Tells};
ghost use Rattle.edd_types.specs.declared.sought.Sought.{Sought};
ghost use Rattle.edd_types.specs.declared.sought.Sought.TheVariants as sought;
ghost use Rattle.edd_types.specs.Expressions.{condition_told};
ghost use Rattle.edd_types.specs.Conditionals.{nothing_told, enumerator_told, data_told};

use crate::expressions::tell_condition;
use crate::sought::Sought;
use edd_breaches::{Breach, Rule, tell};
use edd_syntax::expr::Expr;
use edd_syntax::item::{DataItem, Enumerator, MenuEntry};
use edd_syntax::reference::Target;
use edd_syntax::text::Text;
use edd_syntax::types::Handling;
use std::alloc::AllocError;

/// A value that may have a breach in it.
pub trait TellValue {
    ghost told_in: { Sought → Self → List Told };

    /// Tells of such breaches.
    fn tell_value<'a>(&self, sought: Sought, told: &mut Vec<Breach<'a>>) -> Result<(), AllocError>
        ensures told { OnOk result
            (Tells (told_in sought self.now) told.old.items told.new.items) };
}

impl TellValue for Text {
    ghost told_in = { nothing_told };

    #[tactic(auto, using(edd_breaches::proofs::TellLaws::tells))]
    fn tell_value<'a>(
        &self,
        _sought: Sought,
        _told: &mut Vec<Breach<'a>>,
    ) -> Result<(), AllocError> {
        Ok(())
    }
}

impl TellValue for Handling {
    ghost told_in = { nothing_told };

    #[tactic(auto, using(edd_breaches::proofs::TellLaws::tells))]
    fn tell_value<'a>(
        &self,
        _sought: Sought,
        _told: &mut Vec<Breach<'a>>,
    ) -> Result<(), AllocError> {
        Ok(())
    }
}

impl TellValue for bool {
    ghost told_in = { nothing_told };

    #[tactic(auto, using(edd_breaches::proofs::TellLaws::tells))]
    fn tell_value<'a>(
        &self,
        _sought: Sought,
        _told: &mut Vec<Breach<'a>>,
    ) -> Result<(), AllocError> {
        Ok(())
    }
}

impl TellValue for MenuEntry<Target> {
    ghost told_in = { nothing_told };

    #[tactic(auto, using(edd_breaches::proofs::TellLaws::tells))]
    fn tell_value<'a>(
        &self,
        _sought: Sought,
        _told: &mut Vec<Breach<'a>>,
    ) -> Result<(), AllocError> {
        Ok(())
    }
}

impl TellValue for Expr<Target> {
    ghost told_in = { condition_told };

    #[tactic(auto, using(edd_breaches::proofs::TellLaws::tells))]
    fn tell_value<'a>(&self, sought: Sought, told: &mut Vec<Breach<'a>>) -> Result<(), AllocError> {
        tell_condition(self, sought, told)
    }
}

impl TellValue for Enumerator {
    ghost told_in = { enumerator_told };

    #[tactic(auto, using(edd_breaches::proofs::TellLaws::tells))]
    fn tell_value<'a>(&self, sought: Sought, told: &mut Vec<Breach<'a>>) -> Result<(), AllocError> {
        match sought {
            Sought::Enumerator => tell(Rule::Mismatch, self.at, told),
            Sought::Call(_) | Sought::Decimal | Sought::Constant | Sought::Default => Ok(()),
        }
    }
}

impl TellValue for DataItem<Target> {
    ghost told_in = { data_told };

    #[tactic(auto, using(edd_breaches::proofs::TellLaws::tells))]
    fn tell_value<'a>(&self, sought: Sought, told: &mut Vec<Breach<'a>>) -> Result<(), AllocError> {
        match sought {
            Sought::Constant => tell_constant(self, told),
            Sought::Enumerator | Sought::Call(_) | Sought::Decimal | Sought::Default => Ok(()),
        }
    }
}

// Tells of a constant over 255 or of a mask of 0.
#[tactic(auto, using(edd_breaches::proofs::TellLaws::tells))]
fn tell_constant<'a>(item: &DataItem<Target>, told: &mut Vec<Breach<'a>>) -> Result<(), AllocError>
    ensures told { OnOk result
        (Tells (data_told sought.Constant item.now) told.old.items told.new.items) }
{
    match item {
        DataItem::Constant { at, value } if *value > 255 => tell(Rule::ConstRange, *at, told),
        DataItem::Variable {
            at,
            mask: Some(0),
            ..
        } => tell(Rule::ConstRange, *at, told),
        DataItem::Constant { .. } | DataItem::Variable { .. } => Ok(()),
    }
}
