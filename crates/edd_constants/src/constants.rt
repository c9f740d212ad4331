//! What an expression is for all values of a device.

ghost use Rattle.std.specs.Prelude.{◌≡◌, map};
ghost use Rattle.edd_syntax.specs.declared.operators.Operator as operators;
ghost use Rattle.edd_syntax.specs.declared.reference.Target as targets;
ghost use Rattle.edd_syntax.specs.Expression as tree;
ghost use Rattle.edd_syntax.specs.Expression.{arguments_from};
ghost use Rattle.edd_syntax.specs.TreeView.{numbered_argument, numbered_expr};
ghost use Rattle.edd_syntax.specs.TwosComplement.{is_zero};
ghost use Rattle.edd_instructions.specs.declared.unit.Sort.{Sort};
ghost use Rattle.edd_instructions.specs.declared.unit.Sort.TheVariants as sorts;
ghost use Rattle.edd_instructions.specs.Steps.{Fits};
ghost use Rattle.edd_constants.specs.Constants.{IsKnown, KnownFits, TellsOfOne, TellsOfTwo, TellsOfThree, truth_of, unused};

use edd_arithmetic::{apply, compare, operate, trap_of, wrapped_constant};
use edd_instructions::Sort;
use edd_syntax::answer::Trap;
use edd_syntax::expr::{Argument, Expr};
use edd_syntax::operators::{Comparison, Operator, UnaryOperator};
use edd_syntax::reference::Target;

/// What is known of an expression's value.
#[derive(Clone, Copy, PartialEq, Eq)]
pub enum Known {
    /// It is this number.
    Number(i64),
    /// There is none: the expression traps.
    Traps(Trap),
    /// It may depend on values.
    Nothing,
}

impl Known {
    /// The number that it is, if it is known to be one.
    pub fn number(self) -> Option<i64> {
        match self {
            Known::Number(number) => Some(number),
            Known::Traps(_) | Known::Nothing => None,
        }
    }
}

// What an operator gives of two numbers.
fn computed(operator: Operator, first: i64, second: i64, sort: Sort) -> Known
    requires left { Fits sort first }
    requires right { Fits sort second }
    ensures sound { TellsOfTwo sort (tree.Binary operator) (Known.Number first)
        (Known.Number second) result }
    ensures fits { KnownFits sort result }
{
    match operate(sort, operator, first, second) {
        Ok(number) => Known::Number(number),
        Err(trap) => Known::Traps(trap),
    }
}

// What an operator gives of an unknown number and this one.
fn with_second(operator: Operator, second: i64, sort: Sort) -> Known
    ensures sound { TellsOfTwo sort (tree.Binary operator) Known.Nothing (Known.Number second)
        result }
    ensures fits { KnownFits sort result }
{
    match trap_of(sort, operator, second) {
        Some(trap) => Known::Traps(trap),
        None => Known::Nothing,
    }
}

// What an operator gives of two operands, of which the first is evaluated first.
fn combined(operator: Operator, first: Known, second: Known, sort: Sort) -> Known
    requires left { KnownFits sort first }
    requires right { KnownFits sort second }
    ensures sound { TellsOfTwo sort (tree.Binary operator) first second result }
    ensures fits { KnownFits sort result }
{
    match first {
        Known::Traps(trap) => Known::Traps(trap),
        Known::Number(a) => match second {
            Known::Traps(trap) => Known::Traps(trap),
            Known::Number(b) => computed(operator, a, b, sort),
            Known::Nothing => Known::Nothing,
        },
        Known::Nothing => match second {
            Known::Traps(trap) => Known::Traps(trap),
            Known::Number(b) => with_second(operator, b, sort),
            Known::Nothing => Known::Nothing,
        },
    }
}

// What a comparison gives of two operands.
fn compared(comparison: Comparison, first: Known, second: Known) -> Known
    ensures sound { (sort : Sort) → TellsOfTwo sort (tree.Compare comparison) first second result }
    ensures fits { (sort : Sort) → KnownFits sort result }
{
    match first {
        Known::Traps(trap) => Known::Traps(trap),
        Known::Number(a) => match second {
            Known::Traps(trap) => Known::Traps(trap),
            Known::Number(b) => Known::Number(compare(comparison, a, b)),
            Known::Nothing => Known::Nothing,
        },
        Known::Nothing => unused(second),
    }
}

// What an operator gives of its one operand.
fn applied(operator: UnaryOperator, operand: Known, sort: Sort) -> Known
    requires { KnownFits sort operand }
    ensures sound { TellsOfOne sort (tree.Unary operator) operand result }
    ensures fits { KnownFits sort result }
{
    match operand {
        Known::Number(number) => Known::Number(apply(sort, operator, number)),
        Known::Traps(trap) => Known::Traps(trap),
        Known::Nothing => Known::Nothing,
    }
}

// The truth of a value as 0 or 1.
fn truth(known: Known) -> Known
    ensures { result ≡ truth_of known }
{
    match known {
        Known::Number(number) => Known::Number(i64::from(number != 0)),
        other => other,
    }
}

// What is known of a value that is not used: only whether it traps.
fn unused(known: Known) -> Known
    ensures { result ≡ unused known }
{
    match known {
        Known::Traps(trap) => Known::Traps(trap),
        Known::Number(_) | Known::Nothing => Known::Nothing,
    }
}

fn is_zero(number: i64) -> bool
    ensures { result ≡ is_zero number }
{
    number == 0
}

// What `first && second` gives.
fn both(first: Known, second: Known) -> Known
    ensures sound { (sort : Sort) → TellsOfTwo sort tree.LogicalAnd first second result }
    ensures fits { (sort : Sort) → KnownFits sort result }
{
    match first {
        Known::Number(number) => {
            if is_zero(number) {
                Known::Number(0)
            } else {
                truth(second)
            }
        }
        Known::Traps(trap) => Known::Traps(trap),
        Known::Nothing => Known::Nothing,
    }
}

// What `first || second` gives.
fn either(first: Known, second: Known) -> Known
    ensures sound { (sort : Sort) → TellsOfTwo sort tree.LogicalOr first second result }
    ensures fits { (sort : Sort) → KnownFits sort result }
{
    match first {
        Known::Number(number) => {
            if is_zero(number) {
                truth(second)
            } else {
                Known::Number(1)
            }
        }
        Known::Traps(trap) => Known::Traps(trap),
        Known::Nothing => Known::Nothing,
    }
}

// What `test ? first : second` gives.
fn chosen(test: Known, first: Known, second: Known) -> Known
    ensures sound { (sort : Sort) → TellsOfThree sort tree.Conditional test first second result }
    ensures fits { (sort : Sort) → KnownFits sort first → KnownFits sort second
        → KnownFits sort result }
{
    match test {
        Known::Number(number) => { if is_zero(number) { second } else { first } }
        Known::Traps(trap) => Known::Traps(trap),
        Known::Nothing => match second {
            Known::Traps(_) => unused(first),
            Known::Number(_) | Known::Nothing => Known::Nothing,
        },
    }
}

// What is known of an assignment of such a value: in an attribute nothing, since none has one.
fn stored(known: Known, sort: Sort) -> Known
    ensures assigned { (to : targets.Target) → TellsOfOne sort (tree.Assign to) known result }
    ensures combined { (operator : operators.Operator) (to : targets.Target)
        (a : tree.Expr targets.Target)
        → IsKnown sort (tree.Binary operator (tree.Reference to) a) known
        → IsKnown sort (tree.CompoundAssign operator to a) result }
    ensures fits { KnownFits sort result }
{
    match sort {
        Sort::Attribute => Known::Nothing,
        Sort::Method => unused(known),
    }
}

/// What an expression is for all values of a device.
#[cycle(known)]
pub fn evaluate(e: &Expr<Target>, sort: Sort) -> Known
    ensures sound { IsKnown sort (numbered_expr e.now) result }
    ensures fits { KnownFits sort result }
{
    match e {
        Expr::Literal(number) => Known::Number(wrapped_constant(sort, *number)),
        Expr::Parentheses(inner) => evaluate(inner, sort),
        Expr::Unary(operator, operand) => applied(*operator, evaluate(operand, sort), sort),
        Expr::Binary(operator, first, second) => {
            combined(
                *operator,
                evaluate(first, sort),
                evaluate(second, sort),
                sort,
            )
        }
        Expr::Compare(comparison, first, second) => {
            compared(*comparison, evaluate(first, sort), evaluate(second, sort))
        }
        Expr::LogicalAnd(first, second) => both(evaluate(first, sort), evaluate(second, sort)),
        Expr::LogicalOr(first, second) => either(evaluate(first, sort), evaluate(second, sort)),
        Expr::Conditional(test, first, second) => {
            chosen(
                evaluate(test, sort),
                evaluate(first, sort),
                evaluate(second, sort),
            )
        }
        Expr::Indexed(_, index) => unused(evaluate(index, sort)),
        Expr::Assign(_, value) => stored(evaluate(value, sort), sort),
        Expr::CompoundAssign(operator, _, value) => {
            let read = Known::Nothing;
            stored(combined(*operator, read, evaluate(value, sort), sort), sort)
        }
        Expr::Call { arguments, .. } => match sort {
            Sort::Attribute => Known::Nothing,
            Sort::Method => known_of_call(arguments),
        },
        Expr::Decimal { .. } | Expr::Reference(_) | Expr::Increment(_, _) => Known::Nothing,
    }
}

// Of a method's call only whether one of its arguments traps.
#[cycle(known)]
fn known_of_call(arguments: &[Argument<Target>]) -> Known
    ensures sound { (function : targets.Target) → IsKnown sorts.Method
        (tree.Call function (arguments_from (map numbered_argument arguments.now))) result }
    ensures fits { (sort : Sort) → KnownFits sort result }
{
    for argument in arguments {
        if let Argument::Value(e) = argument {
            if let Known::Traps(trap) = evaluate(e, Sort::Method) {
                return Known::Traps(trap);
            }
        }
    }
    Known::Nothing
}

/// Whether a condition is a plain literal, as in `while (1)`.
pub fn is_literal(e: &Expr<Target>) -> bool {
    match e {
        Expr::Literal(_) => true,
        Expr::Parentheses(inner) => matches!(**inner, Expr::Literal(_)),
        _ => false,
    }
}
