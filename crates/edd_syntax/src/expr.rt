//! Expressions, over the type R of their references.

use crate::numbers::TokenNo;
use crate::operators::{Comparison, IncrementOperator, Operator, UnaryOperator};
use crate::text::Text;

/// An expression of an attribute or a method. What is at a token is where a refusal may name it.
#[cycle(expr)]
#[derive(Drop)]
pub enum Expr<R> {
    Literal(u32),
    /// A number with a fraction or an exponent, which no checked unit has.
    Decimal {
        at: TokenNo,
    },
    Reference(R),
    /// `array [ index ]`
    Indexed(R, Box<Expr<R>>),
    Parentheses(Box<Expr<R>>),
    Unary(UnaryOperator, Box<Expr<R>>),
    Binary(Operator, Box<Expr<R>>, Box<Expr<R>>),
    Compare(Comparison, Box<Expr<R>>, Box<Expr<R>>),
    LogicalAnd(Box<Expr<R>>, Box<Expr<R>>),
    LogicalOr(Box<Expr<R>>, Box<Expr<R>>),
    /// `test ? first : second`
    Conditional(Box<Expr<R>>, Box<Expr<R>>, Box<Expr<R>>),
    Assign(R, Box<Expr<R>>),
    /// `to op= value`
    CompoundAssign(Operator, R, Box<Expr<R>>),
    Increment(IncrementOperator, R),
    Call {
        at: TokenNo,
        function: R,
        arguments: Vec<Argument<R>>,
    },
}

#[cycle(expr)]
#[derive(Drop)]
pub enum Argument<R> {
    Text(Text),
    Value(Expr<R>),
}
