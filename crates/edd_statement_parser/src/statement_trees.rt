//! Statements made of their parts.

ghost use Rattle.std.specs.Prelude.{◌≡◌, IfOk, option_map};
ghost use Rattle.edd_syntax.specs.Statement as tree;
ghost use Rattle.edd_expression_parser.specs.Expressions.{expr_view};
ghost use Rattle.edd_statement_parser.specs.Bodies.{stmt_view, body_view};

use edd_syntax::expr::Expr;
use edd_syntax::reference::Path;
use edd_syntax::stmt::{Part, Stmt};
use std::alloc::{AllocError, Global};

/// `{ parts }`
pub fn block(parts: Vec<Part<Path>>) -> Stmt<Path>
    ensures { stmt_view result ≡ tree.Block (body_view parts.items) }
{
    Stmt::Block(parts)
}

/// `switch (on) { parts }`
pub fn switch(on: Expr<Path>, parts: Vec<Part<Path>>) -> Stmt<Path>
    ensures { stmt_view result ≡ tree.Switch (expr_view on) (body_view parts.items) }
{
    Stmt::Switch(on, parts)
}

/// The statement in a box. A child is boxed as soon as it is read: the proof of a function that
/// holds a whole statement where a fault can stop it is far longer.
pub fn boxed(alloc: Global, statement: Stmt<Path>) -> Result<Box<Stmt<Path>>, AllocError>
    ensures { IfOk result (λ b. b.value ≡ statement) }
{
    Ok(Box::new(alloc, statement)?)
}

/// An `if` without `else`.
pub fn if_alone(condition: Expr<Path>, first: Box<Stmt<Path>>) -> Stmt<Path>
    ensures { stmt_view result ≡ tree.If (expr_view condition) (stmt_view first.value) }
{
    Stmt::If(condition, first)
}

/// An `if` with its `else`.
pub fn if_else(
    condition: Expr<Path>,
    first: Box<Stmt<Path>>,
    otherwise: Box<Stmt<Path>>,
) -> Stmt<Path>
    ensures { stmt_view result ≡ tree.IfElse (expr_view condition) (stmt_view first.value)
        (stmt_view otherwise.value) }
{
    Stmt::IfElse(condition, first, otherwise)
}

pub fn while_loop(condition: Expr<Path>, body: Box<Stmt<Path>>) -> Stmt<Path>
    ensures { stmt_view result ≡ tree.While (expr_view condition) (stmt_view body.value) }
{
    Stmt::While(condition, body)
}

pub fn do_loop(body: Box<Stmt<Path>>, condition: Expr<Path>) -> Stmt<Path>
    ensures { stmt_view result ≡ tree.Do (stmt_view body.value) (expr_view condition) }
{
    Stmt::Do(body, condition)
}

/// The three expressions of a `for`.
#[derive(Drop)]
pub struct ForHead {
    pub initial: Option<Expr<Path>>,
    pub condition: Option<Expr<Path>>,
    pub update: Option<Expr<Path>>,
}

pub fn for_loop(head: ForHead, body: Box<Stmt<Path>>) -> Stmt<Path>
    ensures { stmt_view result ≡ tree.For (option_map expr_view head.initial)
        (option_map expr_view head.condition) (option_map expr_view head.update)
        (stmt_view body.value) }
{
    Stmt::For {
        initial: head.initial,
        condition: head.condition,
        update: head.update,
        body,
    }
}
