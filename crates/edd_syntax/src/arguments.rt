//! Which arguments a function may have.

ghost use Rattle.std.specs.Prelude.{◌≡◌};
ghost use Rattle.edd_syntax.specs.SubsetRules as rules;
ghost use Rattle.edd_syntax.specs.TreeView.{numbered_argument};

use crate::expr::{Argument, Expr};
use crate::numbers::ItemNo;
use crate::operators::Parameter;
use crate::reference::Target;

impl Parameter {
    /// Whether a function may have the argument in this place (this profile of EDDL).
    pub fn fits(self, argument: &Argument<Target>) -> bool
        ensures { result ≡ rules.fits self (numbered_argument argument.now) }
    {
        match (self, argument) {
            (Parameter::Text, Argument::Text(_)) => true,
            (Parameter::Number, Argument::Value(_)) => true,
            (
                Parameter::DeviceVariable,
                Argument::Value(Expr::Reference(Target::Item(ItemNo::Variable(_)))),
            ) => true,
            (
                Parameter::Method,
                Argument::Value(Expr::Reference(Target::Item(ItemNo::Method(_)))),
            ) => true,
            _ => false,
        }
    }
}
