//! Calls of builtin functions.

ghost use Rattle.std.specs.Prelude.{◌≡◌, map, not, OnOk};
ghost use Rattle.edd_breaches.specs.Told.{Tells};
ghost use Rattle.edd_syntax.specs.Expression.{arguments_from};
ghost use Rattle.edd_syntax.specs.TreeView.{numbered_argument};
ghost use Rattle.edd_syntax.specs.Refusal.{Mismatch, refused_if};
ghost use Rattle.edd_types.specs.declared.sought.Sought.TheVariants as sought;
ghost use Rattle.edd_types.specs.Expressions.{all_fit_among, call_breaches_among, call_told, fits_among, is_nameless};

use crate::sought::Calls;
use edd_breaches::{Breach, Rule, tell};
use edd_syntax::expr::{Argument, Expr};
use edd_syntax::numbers::TokenNo;
use edd_syntax::operators::{Builtin, Parameter};
use edd_syntax::reference::Target;
use std::alloc::AllocError;

// The call of a function that does not exist.
fn is_nameless(argument: &Argument<Target>) -> bool
    ensures { result ≡ is_nameless (numbered_argument argument.now) }
{
    match argument {
        Argument::Value(Expr::Call { function, .. }) => !matches!(function, Target::Function(_)),
        _ => false,
    }
}

fn fits_among(which: Calls, parameter: Parameter, argument: &Argument<Target>) -> bool
    ensures { result ≡ fits_among which parameter (numbered_argument argument.now) }
{
    match which {
        Calls::All => parameter.fits(argument),
        Calls::Named => is_nameless(argument) || parameter.fits(argument),
    }
}

// The arguments are such as these parameters ask for, in number and kind.
fn all_fit(which: Calls, parameters: &[Parameter], arguments: &[Argument<Target>]) -> bool
    ensures { result ≡ all_fit_among which parameters.now
        (arguments_from (map numbered_argument arguments.now)) }
{
    match parameters {
        [] => match arguments {
            [] => true,
            [_, ..] => false,
        },
        [first, more @ ..] => match arguments {
            [] => false,
            [one, rest @ ..] => fits_among(which, *first, one) && all_fit(which, more, rest),
        },
    }
}

// An abort is a statement of its own.
fn is_call(
    which: Calls,
    function: Target,
    arguments: &[Argument<Target>],
    is_statement: bool,
) -> bool
    ensures { call_breaches_among which is_statement function
        (arguments_from (map numbered_argument arguments.now)) ≡ refused_if (not result) Mismatch }
{
    match function {
        Target::Function(f) => {
            let is_abort = matches!(f, Builtin::Abort | Builtin::ProcessAbort);
            all_fit(which, f.parameters(), arguments) && (is_statement || !is_abort)
        }
        Target::Local(_) | Target::Item(_) => matches!(which, Calls::Named),
    }
}

/// Tells of a call with arguments that its function does not take, or of an abort inside an
/// expression.
#[tactic(auto, using(edd_breaches::proofs::TellLaws::tells, crate::proofs::Arguments::calls))]
pub fn tell_call<'a>(
    which: Calls,
    function: Target,
    arguments: &[Argument<Target>],
    is_statement: bool,
    at: TokenNo,
    told: &mut Vec<Breach<'a>>,
) -> Result<(), AllocError>
    ensures told { OnOk result (Tells (call_told (sought.Call which) is_statement function
        (arguments_from (map numbered_argument arguments.now)) at) told.old.items told.new.items) }
{
    if is_call(which, function, arguments, is_statement) {
        return Ok(());
    }
    tell(Rule::Mismatch, at, told)
}
