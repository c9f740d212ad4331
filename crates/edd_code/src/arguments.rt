//! The arguments of a call as its function takes them.

ghost use Rattle.std.specs.Prelude.{◌≡◌, map, option_map};
ghost use Rattle.edd_syntax.specs.Expression.{arguments_from};
ghost use Rattle.edd_syntax.specs.SubsetRules.{all_fit};
ghost use Rattle.edd_syntax.specs.TreeView.{numbered_argument, numbered_expr};
ghost use Rattle.edd_code.specs.Arguments as kinds;
ghost use Rattle.edd_code.specs.Arguments.{both, only};

use edd_syntax::expr::{Argument, Expr};
use edd_syntax::numbers::{ItemNo, MethNo, VarNo};
use edd_syntax::operators::Parameter;
use edd_syntax::reference::Target;

fn as_value<'a>(argument: &'a Argument<Target>) -> Option<&'a Expr<Target>>
    ensures { option_map (λ e. numbered_expr e.now) result
        ≡ kinds.as_value (numbered_argument argument.now) }
{
    match argument {
        Argument::Text(_) => None,
        Argument::Value(e) => Some(e),
    }
}

// A plain reference.
fn as_target(argument: &Argument<Target>) -> Option<Target>
    ensures { result ≡ kinds.as_target (numbered_argument argument.now) }
{
    match argument {
        Argument::Value(Expr::Reference(to)) => Some(*to),
        _ => None,
    }
}

// A plain reference to a variable.
fn as_variable(argument: &Argument<Target>) -> Option<VarNo>
    ensures { result ≡ kinds.as_variable (numbered_argument argument.now) }
{
    match argument {
        Argument::Value(Expr::Reference(Target::Item(ItemNo::Variable(variable)))) => {
            Some(*variable)
        }
        _ => None,
    }
}

/// The number of a variable, where a plain reference names one.
pub(crate) fn variable_number(argument: &Argument<Target>) -> Option<u16>
    ensures { result ≡ option_map (λ v. v.0) (kinds.as_variable (numbered_argument argument.now)) }
{
    let variable = as_variable(argument)?;
    Some(variable.0)
}

// A plain reference to a METHOD.
fn as_method(argument: &Argument<Target>) -> Option<MethNo>
    ensures { result ≡ kinds.as_method (numbered_argument argument.now) }
{
    match argument {
        Argument::Value(Expr::Reference(Target::Item(ItemNo::Method(method)))) => Some(*method),
        _ => None,
    }
}

/// Whether the arguments are such as these parameters ask for, in number and kind.
pub(crate) fn all_fit(parameters: &[Parameter], arguments: &[Argument<Target>]) -> bool
    ensures { result ≡ all_fit parameters.now
        (arguments_from (map numbered_argument arguments.now)) }
{
    match parameters {
        [] => match arguments {
            [] => true,
            [_, ..] => false,
        },
        [first, more @ ..] => match arguments {
            [] => false,
            [one, rest @ ..] => first.fits(one) && all_fit(more, rest),
        },
    }
}

/// The value, where it is the only argument.
#[tactic(auto, using(crate::proofs::FewArguments::not_one))]
pub(crate) fn only_value<'a>(arguments: &'a [Argument<Target>]) -> Option<&'a Expr<Target>>
    ensures { option_map (λ e. numbered_expr e.now) result
        ≡ only kinds.as_value (arguments_from (map numbered_argument arguments.now)) }
{
    match arguments {
        [only] => as_value(only),
        _ => None,
    }
}

/// The METHOD, where a plain reference to one is the only argument.
#[tactic(auto, using(crate::proofs::FewArguments::not_one))]
pub(crate) fn only_method(arguments: &[Argument<Target>]) -> Option<MethNo>
    ensures { result ≡ only kinds.as_method
        (arguments_from (map numbered_argument arguments.now)) }
{
    match arguments {
        [only] => as_method(only),
        _ => None,
    }
}

/// A plain reference, and a value.
#[tactic(auto, using(crate::proofs::FewArguments::not_two))]
pub(crate) fn target_and_value<'a>(
    arguments: &'a [Argument<Target>],
) -> Option<(Target, &'a Expr<Target>)>
    ensures { option_map (λ p. (p.0, numbered_expr p.1.now)) result
        ≡ both kinds.as_target kinds.as_value
        (arguments_from (map numbered_argument arguments.now)) }
{
    match arguments {
        [first, second] => Some((as_target(first)?, as_value(second)?)),
        _ => None,
    }
}
