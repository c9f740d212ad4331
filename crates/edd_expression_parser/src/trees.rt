//! Expressions with their heights.

ghost use Rattle.std.specs.Prelude.{◌≡◌, ◌≤◌, ◌+◌, [], ◌∷◌, ◌++◌, None, IfOk, MatchResult, max};
ghost use Rattle.edd_syntax.specs.TreeView.{path_of};
ghost use Rattle.edd_syntax.specs.Expression as tree;
ghost use Rattle.edd_syntax.specs.Size.{height, argument_height};
ghost use Rattle.edd_grammar.specs.Signs.{infix_tree, assignment_tree};
ghost use Rattle.edd_grammar.specs.ExpressionReading.{as_path};
ghost use Rattle.edd_token_reader.specs.Views.{infix_view, assignment_view};
ghost use Rattle.edd_expression_parser.specs.Expressions.{expr_view, argument_levels, listed};

use edd_syntax::expr::{Argument, Expr};
use edd_syntax::numbers::TokenNo;
use edd_syntax::operators::UnaryOperator;
use edd_syntax::reference::Path;
use edd_syntax::text::CompactString;
use edd_token_reader::operators::{Assignment, Infix};
use std::alloc::{AllocError, Global};

/// An expression and its height.
#[derive(Drop)]
pub struct Measured {
    pub expr: Expr<Path>,
    pub levels: u32,
    ghost counted: { levels ≡ height (expr_view expr) },
}

/// An expression in a box, as another one has it, and its height. What is to be a child is boxed as
/// soon as it is read: the proof of a function that holds a whole expression where a fault can stop
/// it is far longer.
#[derive(Drop)]
pub struct Child {
    pub expr: Box<Expr<Path>>,
    pub levels: u32,
    ghost counted: { levels ≡ height (expr_view expr.value) },
}

/// An argument and its height.
#[derive(Drop)]
pub struct MeasuredArgument {
    pub argument: Argument<Path>,
    pub levels: u32,
    ghost counted: { levels ≡ argument_levels argument },
}

/// Arguments, and the height of the highest.
#[derive(Drop)]
pub struct MeasuredArguments {
    pub arguments: Vec<Argument<Path>>,
    pub levels: u32,
    ghost counted: { levels ≡ argument_height (listed arguments.items) },
}

/// An expression without children.
pub fn leaf(expr: Expr<Path>) -> Measured
    requires { height (expr_view expr) ≡ 1 }
    ensures { result.expr ≡ expr }
{
    Measured { expr, levels: 1 }
}

/// The expression in a box.
pub fn boxed(alloc: Global, inner: Measured) -> Result<Child, AllocError>
    ensures { IfOk result (λ c. (c.expr.value ≡ inner.expr) × (c.levels ≡ inner.levels)) }
{
    Ok(Child {
        expr: Box::new(alloc, inner.expr)?,
        levels: inner.levels,
    })
}

/// `( inner )`
pub fn parentheses(inner: Child) -> Measured
    requires { inner.levels ≤ 100 }
    ensures { expr_view result.expr ≡ tree.Parentheses (expr_view inner.expr.value) }
{
    Measured {
        expr: Expr::Parentheses(inner.expr),
        levels: inner.levels + 1,
    }
}

/// An operator before its operand.
pub fn unary_over(op: UnaryOperator, inner: Child) -> Measured
    requires { inner.levels ≤ 100 }
    ensures { expr_view result.expr ≡ tree.Unary op (expr_view inner.expr.value) }
{
    Measured {
        expr: Expr::Unary(op, inner.expr),
        levels: inner.levels + 1,
    }
}

/// An assignment of a value.
pub fn assigned(op: Assignment, to: Path, value: Child) -> Measured
    requires { value.levels ≤ 100 }
    ensures { expr_view result.expr ≡ assignment_tree (assignment_view op) (path_of to)
        (expr_view value.expr.value) }
{
    let levels = value.levels + 1;
    let expr = match op {
        Assignment::Simple => Expr::Assign(to, value.expr),
        Assignment::Compound(op) => Expr::CompoundAssign(op, to, value.expr),
    };
    Measured { expr, levels }
}

/// An operator between two operands.
pub fn binary(op: Infix, left: Child, right: Child) -> Measured
    requires left_low { left.levels ≤ 100 }
    requires right_low { right.levels ≤ 100 }
    ensures { expr_view result.expr ≡ infix_tree (infix_view op) (expr_view left.expr.value)
        (expr_view right.expr.value) }
{
    let levels = left.levels.max(right.levels) + 1;
    let expr = match op {
        Infix::Plain(op) => Expr::Binary(op, left.expr, right.expr),
        Infix::Comparing(by) => Expr::Compare(by, left.expr, right.expr),
        Infix::Both => Expr::LogicalAnd(left.expr, right.expr),
        Infix::Either => Expr::LogicalOr(left.expr, right.expr),
    };
    Measured { expr, levels }
}

/// `test ? first : second`
pub fn choice_between(test: Child, first: Child, second: Child) -> Measured
    requires test_low { test.levels ≤ 100 }
    requires first_low { first.levels ≤ 100 }
    requires second_low { second.levels ≤ 100 }
    ensures { expr_view result.expr ≡ tree.Conditional (expr_view test.expr.value)
        (expr_view first.expr.value) (expr_view second.expr.value) }
{
    Measured {
        levels: test.levels.max(first.levels.max(second.levels)) + 1,
        expr: Expr::Conditional(test.expr, first.expr, second.expr),
    }
}

/// A path without members, whose name is there.
pub fn plain(alloc: Global, at: TokenNo, name: &str) -> Result<Path, AllocError>
    ensures { IfOk result (λ p. path_of p ≡ record { base = name.now; members = [] }) }
{
    Ok(Path {
        at,
        base: CompactString::new(alloc, name)?,
        members: Vec::new(alloc),
    })
}

/// A call, whose name is there.
pub fn call(
    alloc: Global,
    at: TokenNo,
    name: &str,
    arguments: MeasuredArguments,
) -> Result<Measured, AllocError>
    requires { arguments.levels ≤ 100 }
    ensures { IfOk result (λ t. expr_view t.expr
        ≡ tree.Call (record { base = name.now; members = [] }) (listed arguments.arguments.items)) }
{
    let function = plain(alloc, at, name)?;
    Ok(Measured {
        expr: Expr::Call {
            at,
            function,
            arguments: arguments.arguments,
        },
        levels: arguments.levels + 1,
    })
}

/// `name [ index ]`, whose name is there.
pub fn indexed_by(
    alloc: Global,
    at: TokenNo,
    name: &str,
    index: Child,
) -> Result<Measured, AllocError>
    requires { index.levels ≤ 100 }
    ensures { IfOk result (λ t. expr_view t.expr
        ≡ tree.Indexed (record { base = name.now; members = [] }) (expr_view index.expr.value)) }
{
    let array = plain(alloc, at, name)?;
    Ok(Measured {
        expr: Expr::Indexed(array, index.expr),
        levels: index.levels + 1,
    })
}

/// No arguments.
pub fn no_arguments(alloc: Global) -> MeasuredArguments
    ensures items { result.arguments.items ≡ [] }
    ensures levels { result.levels ≡ 0 }
{
    MeasuredArguments {
        arguments: Vec::new(alloc),
        levels: 0,
    }
}

/// These arguments, in a list without room for more.
pub fn fitted(all: MeasuredArguments) -> MeasuredArguments
    ensures items { result.arguments.items ≡ all.arguments.items }
    ensures levels { result.levels ≡ all.levels }
{
    let levels = all.levels;
    let mut arguments = all.arguments;
    arguments.shrink_to_fit();
    MeasuredArguments { arguments, levels }
}

/// One more argument at the end.
#[tactic(auto, using(crate::proofs::ArgumentHeights::listed_height))]
pub fn with_argument(
    all: MeasuredArguments,
    next: MeasuredArgument,
) -> Result<MeasuredArguments, AllocError>
    ensures { IfOk result (λ a. (a.arguments.items ≡ all.arguments.items ++ next.argument ∷ [])
        × (a.levels ≡ max all.levels next.levels)) }
{
    let levels = all.levels.max(next.levels);
    let mut arguments = all.arguments;
    arguments.push(next.argument)?;
    Ok(MeasuredArguments { arguments, levels })
}

/// The reference, or the expression as it was.
pub fn into_path(expr: Expr<Path>) -> Result<Path, Expr<Path>>
    ensures { MatchResult result (λ r. expr_view expr ≡ tree.Reference (path_of r))
        (λ e. (e ≡ expr) × (as_path (expr_view expr) ≡ None)) }
{
    match expr {
        Expr::Reference(to) => Ok(to),
        Expr::Literal(value) => Err(Expr::Literal(value)),
        Expr::Decimal { at } => Err(Expr::Decimal { at }),
        Expr::Indexed(array, index) => Err(Expr::Indexed(array, index)),
        Expr::Parentheses(inner) => Err(Expr::Parentheses(inner)),
        Expr::Unary(op, operand) => Err(Expr::Unary(op, operand)),
        Expr::Binary(op, left, right) => Err(Expr::Binary(op, left, right)),
        Expr::Compare(by, left, right) => Err(Expr::Compare(by, left, right)),
        Expr::LogicalAnd(left, right) => Err(Expr::LogicalAnd(left, right)),
        Expr::LogicalOr(left, right) => Err(Expr::LogicalOr(left, right)),
        Expr::Conditional(test, first, second) => Err(Expr::Conditional(test, first, second)),
        Expr::Assign(to, value) => Err(Expr::Assign(to, value)),
        Expr::CompoundAssign(op, to, value) => Err(Expr::CompoundAssign(op, to, value)),
        Expr::Increment(op, to) => Err(Expr::Increment(op, to)),
        Expr::Call {
            at,
            function,
            arguments,
        } => Err(Expr::Call {
            at,
            function,
            arguments,
        }),
    }
}
