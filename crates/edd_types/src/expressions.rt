//! Calls and decimals in expressions.

ghost use Rattle.std.specs.Prelude.{map, OnOk};
ghost use Rattle.std.specs.List.{flat_map};
ghost use Rattle.edd_breaches.specs.Told.{Tells};
ghost use Rattle.edd_syntax.specs.Expression.{arguments_from};
ghost use Rattle.edd_syntax.specs.TreeView.{numbered_argument};
ghost use Rattle.edd_types.specs.Expressions.{decimal_told, call_told, expr_told, argument_told, condition_told};

use crate::calls::tell_call;
use crate::sought::Sought;
use edd_breaches::{Breach, Rule, tell};
use edd_syntax::expr::{Argument, Expr};
use edd_syntax::numbers::TokenNo;
use edd_syntax::reference::Target;
use std::alloc::AllocError;

#[tactic(auto, using(edd_breaches::proofs::TellLaws::tells))]
fn tell_decimal<'a>(
    sought: Sought,
    at: TokenNo,
    told: &mut Vec<Breach<'a>>,
) -> Result<(), AllocError>
    ensures told { OnOk result (Tells (decimal_told sought at) told.old.items told.new.items) }
{
    match sought {
        Sought::Decimal => tell(Rule::FloatValue, at, told),
        Sought::Enumerator | Sought::Call(_) | Sought::Constant | Sought::Default => Ok(()),
    }
}

#[tactic(auto, using(edd_breaches::proofs::TellLaws::tells))]
fn tell_one_call<'a>(
    sought: Sought,
    function: Target,
    arguments: &[Argument<Target>],
    is_statement: bool,
    at: TokenNo,
    told: &mut Vec<Breach<'a>>,
) -> Result<(), AllocError>
    ensures told { OnOk result (Tells (call_told sought is_statement function
        (arguments_from (map numbered_argument arguments.now)) at) told.old.items told.new.items) }
{
    match sought {
        Sought::Call(which) => tell_call(which, function, arguments, is_statement, at, told),
        Sought::Enumerator | Sought::Decimal | Sought::Constant | Sought::Default => Ok(()),
    }
}

/// Tells of such breaches in an expression, which may be a whole statement.
#[cycle(expressions)]
#[tactic(auto, using(edd_breaches::proofs::TellLaws::tells, edd_breaches::proofs::TellLaws::tells_more))]
pub fn tell_expression<'a>(
    e: &Expr<Target>,
    sought: Sought,
    is_statement: bool,
    told: &mut Vec<Breach<'a>>,
) -> Result<(), AllocError>
    ensures told { OnOk result
        (Tells (expr_told sought is_statement e.now) told.old.items told.new.items) }
{
    match e {
        Expr::Literal(_) | Expr::Reference(_) | Expr::Increment(_, _) => Ok(()),
        Expr::Decimal { at } => tell_decimal(sought, *at, told),
        Expr::Indexed(_, inner)
        | Expr::Parentheses(inner)
        | Expr::Unary(_, inner)
        | Expr::Assign(_, inner)
        | Expr::CompoundAssign(_, _, inner) => tell_expression(inner, sought, false, told),
        Expr::Binary(_, a, b)
        | Expr::Compare(_, a, b)
        | Expr::LogicalAnd(a, b)
        | Expr::LogicalOr(a, b) => {
            tell_expression(a, sought, false, told)?;
            tell_expression(b, sought, false, told)
        }
        Expr::Conditional(test, a, b) => {
            tell_expression(test, sought, false, told)?;
            tell_expression(a, sought, false, told)?;
            tell_expression(b, sought, false, told)
        }
        Expr::Call {
            at,
            function,
            arguments,
        } => {
            tell_one_call(sought, *function, arguments, is_statement, *at, told)?;
            tell_arguments(arguments, sought, told)
        }
    }
}

#[cycle(expressions)]
#[tactic(auto, using(edd_breaches::proofs::TellLaws::tells, edd_breaches::proofs::TellLaws::tells_more))]
fn tell_arguments<'a>(
    arguments: &[Argument<Target>],
    sought: Sought,
    told: &mut Vec<Breach<'a>>,
) -> Result<(), AllocError>
    ensures told { OnOk result (Tells (flat_map (argument_told sought) arguments.now)
        told.old.items told.new.items) }
{
    for argument in arguments {
        tell_argument(argument, sought, told)?;
    }
    Ok(())
}

#[cycle(expressions)]
#[tactic(auto, using(edd_breaches::proofs::TellLaws::tells, edd_breaches::proofs::TellLaws::tells_more))]
fn tell_argument<'a>(
    argument: &Argument<Target>,
    sought: Sought,
    told: &mut Vec<Breach<'a>>,
) -> Result<(), AllocError>
    ensures told { OnOk result
        (Tells (argument_told sought argument.now) told.old.items told.new.items) }
{
    match argument {
        Argument::Text(_) => Ok(()),
        Argument::Value(e) => tell_expression(e, sought, false, told),
    }
}

/// Tells of such breaches in an expression under conditions, or in one of them.
#[tactic(auto, using(edd_breaches::proofs::TellLaws::tells))]
pub fn tell_condition<'a>(
    e: &Expr<Target>,
    sought: Sought,
    told: &mut Vec<Breach<'a>>,
) -> Result<(), AllocError>
    ensures told { OnOk result
        (Tells (condition_told sought e.now) told.old.items told.new.items) }
{
    match sought {
        Sought::Call(which) => tell_expression(e, Sought::Call(which), false, told),
        Sought::Decimal => tell_expression(e, Sought::Decimal, false, told),
        Sought::Enumerator | Sought::Constant | Sought::Default => Ok(()),
    }
}
