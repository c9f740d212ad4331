//! The texts among the arguments of calls, added to the table of strings. A call whose arguments
//! don't fit has no code for them.

ghost use Rattle.std.specs.Prelude.{[], ◌∷◌, ◌++◌, IsErrOf, IsTrue, OnOk, map};
ghost use Rattle.std.specs.List.{list_all};
ghost use Rattle.edd_syntax.specs.Expression.{arguments_from};
ghost use Rattle.edd_syntax.specs.Strings.{argument_texts, expr_texts, strings_of_texts};
ghost use Rattle.edd_syntax.specs.TreeView.{numbered_argument, numbered_expr};
ghost use Rattle.edd_syntax.specs.WellFormed.{is_text};
ghost use Rattle.edd_code.specs.Tables.{Grows, Overflows};
ghost use Rattle.edd_code.specs.Written.{HoldsTexts};

use crate::fault::LowerFault;
use crate::strings::add_text;
use edd_strings::Table;
use edd_syntax::expr::{Argument, Expr};
use edd_syntax::reference::Target;
use std::alloc::Global;

// The texts in an expression.
#[cycle(texts)]
#[tactic(auto, using(crate::proofs::TextsHeld::holding))]
fn add_texts(alloc: Global, table: &mut Table, e: &Expr<Target>) -> Result<(), LowerFault>
    requires { IsTrue (list_all is_text (expr_texts (numbered_expr e.now))) }
    ensures sound { OnOk result (HoldsTexts table.old (expr_texts (numbered_expr e.now))
        table.new) }
    ensures grows { Grows table.old table.new }
    ensures refused { IsErrOf result LowerFault.TooMany
        → Overflows table.old (strings_of_texts (expr_texts (numbered_expr e.now))) }
{
    match e {
        Expr::Literal(_) | Expr::Decimal { .. } | Expr::Reference(_) | Expr::Increment(_, _) => {
            Ok(())
        }
        Expr::Indexed(_, inner)
        | Expr::Parentheses(inner)
        | Expr::Unary(_, inner)
        | Expr::Assign(_, inner)
        | Expr::CompoundAssign(_, _, inner) => add_texts(alloc, table, inner),
        Expr::Binary(_, left, right)
        | Expr::Compare(_, left, right)
        | Expr::LogicalAnd(left, right)
        | Expr::LogicalOr(left, right) => add_both(alloc, table, left, right),
        Expr::Conditional(test, first, second) => {
            add_texts(alloc, table, test)?;
            add_both(alloc, table, first, second)?;
            Ok(())
        }
        Expr::Call { arguments, .. } => add_argument_texts(alloc, table, arguments),
    }
}

#[cycle(texts)]
#[tactic(auto, using(crate::proofs::TextsHeld::holding))]
fn add_both(
    alloc: Global,
    table: &mut Table,
    left: &Expr<Target>,
    right: &Expr<Target>,
) -> Result<(), LowerFault>
    requires left { IsTrue (list_all is_text (expr_texts (numbered_expr left.now))) }
    requires right { IsTrue (list_all is_text (expr_texts (numbered_expr right.now))) }
    ensures sound { OnOk result
        (HoldsTexts table.old (expr_texts (numbered_expr left.now)
        ++ expr_texts (numbered_expr right.now)) table.new) }
    ensures grows { Grows table.old table.new }
    ensures refused { IsErrOf result LowerFault.TooMany
        → Overflows table.old (strings_of_texts (expr_texts (numbered_expr left.now)
        ++ expr_texts (numbered_expr right.now))) }
{
    add_texts(alloc, table, left)?;
    add_texts(alloc, table, right)
}

/// Adds the texts among these arguments, at any depth.
#[cycle(texts)]
#[tactic(auto, using(crate::proofs::TextsHeld::holding))]
pub(crate) fn add_argument_texts(
    alloc: Global,
    table: &mut Table,
    arguments: &[Argument<Target>],
) -> Result<(), LowerFault>
    requires { IsTrue (list_all is_text
        (argument_texts (arguments_from (map numbered_argument arguments.now)))) }
    ensures sound { OnOk result
        (HoldsTexts table.old (argument_texts
        (arguments_from (map numbered_argument arguments.now))) table.new) }
    ensures grows { Grows table.old table.new }
    ensures refused { IsErrOf result LowerFault.TooMany
        → Overflows table.old (strings_of_texts
        (argument_texts (arguments_from (map numbered_argument arguments.now)))) }
{
    for argument in arguments {
        add_argument(alloc, table, argument)?;
    }
    Ok(())
}

// One text, or those in an expression.
#[cycle(texts)]
#[tactic(auto, using(crate::proofs::TextsHeld::holding))]
fn add_argument(
    alloc: Global,
    table: &mut Table,
    argument: &Argument<Target>,
) -> Result<(), LowerFault>
    requires { IsTrue (list_all is_text
        (argument_texts (arguments_from (numbered_argument argument.now ∷ [])))) }
    ensures sound { OnOk result
        (HoldsTexts table.old (argument_texts
        (arguments_from (numbered_argument argument.now ∷ []))) table.new) }
    ensures grows { Grows table.old table.new }
    ensures refused { IsErrOf result LowerFault.TooMany
        → Overflows table.old (strings_of_texts
        (argument_texts (arguments_from (numbered_argument argument.now ∷ [])))) }
{
    match argument {
        Argument::Text(text) => {
            add_text(alloc, table, text)?;
            Ok(())
        }
        Argument::Value(e) => add_texts(alloc, table, e),
    }
}
