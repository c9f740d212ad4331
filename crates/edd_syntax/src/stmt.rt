//! Statements, over the type R of their references.

use crate::expr::Expr;
use crate::numbers::TokenNo;

#[cycle(stmt)]
#[derive(Drop)]
pub enum Stmt<R> {
    Empty,
    Evaluate(Expr<R>),
    Block(Vec<Part<R>>),
    If(Expr<R>, Box<Stmt<R>>),
    IfElse(Expr<R>, Box<Stmt<R>>, Box<Stmt<R>>),
    While(Expr<R>, Box<Stmt<R>>),
    Do(Box<Stmt<R>>, Expr<R>),
    /// A missing condition is true.
    For {
        initial: Option<Expr<R>>,
        condition: Option<Expr<R>>,
        update: Option<Expr<R>>,
        body: Box<Stmt<R>>,
    },
    Switch(Expr<R>, Vec<Part<R>>),
    Break {
        at: TokenNo,
    },
    Continue {
        at: TokenNo,
    },
    Return,
}

/// What is between braces. Labels are between those of a `switch` alone.
#[cycle(stmt)]
#[derive(Drop)]
pub enum Part<R> {
    Declare(Vec<Declarator<R>>),
    Statement(Stmt<R>),
    CaseLabel { at: TokenNo, label: i64 },
    DefaultLabel { at: TokenNo },
}

/// A declared local, with its value if one is written.
#[derive(Drop)]
pub struct Declarator<R> {
    pub place: R,
    pub value: Option<Expr<R>>,
}
