//! Conditionals, over the types R of references and V of values.

use crate::expr::Expr;
use crate::numbers::TokenNo;

/// A value, or values that depend on expressions. A single value has one conditional at each
/// branch, a list any number.
#[cycle(cond)]
#[derive(Drop)]
pub enum Cond<R, V> {
    Value(V),
    /// Without ELSE, `otherwise` is empty.
    If {
        condition: Expr<R>,
        first: Vec<Cond<R, V>>,
        otherwise: Vec<Cond<R, V>>,
    },
    Select {
        on: Expr<R>,
        arms: Vec<Arm<R, V>>,
    },
}

#[cycle(cond)]
#[derive(Drop)]
pub enum Arm<R, V> {
    Case { label: i64, body: Vec<Cond<R, V>> },
    Default { at: TokenNo, body: Vec<Cond<R, V>> },
}
