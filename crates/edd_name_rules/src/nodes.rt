//! The nodes of a tree, taken from a number of nodes that may be spent.

ghost use Rattle.std.specs.Prelude.{◌≡◌, ◌-◌, [], ◌∷◌, map, option_map};
ghost use Rattle.edd_syntax.specs.Expression.{arguments_from};
ghost use Rattle.edd_syntax.specs.Statement.{body_from};
ghost use Rattle.edd_syntax.specs.TreeView.{path_of, expr_of, argument_of, stmt_of, part_of, declarator_of};
ghost use Rattle.edd_syntax.specs.Size.{nodes, argument_nodes, optional_nodes, declarator_nodes, statement_nodes, body_nodes};

use edd_syntax::expr::{Argument, Expr};
use edd_syntax::reference::Path;
use edd_syntax::stmt::{Declarator, Part, Stmt};

/// What is left of a number of nodes after those of an expression: 0 where they are more.
#[cycle(spend)]
#[tactic(auto, using(crate::proofs::Spends::spends))]
pub fn spend(e: &Expr<Path>, budget: u32) -> u32
    ensures { result ≡ budget - nodes (expr_of path_of e.now) }
{
    let left = budget.saturating_sub(1);
    match e {
        Expr::Literal(_) | Expr::Decimal { .. } | Expr::Reference(_) | Expr::Increment(_, _) =>
            left,
        Expr::Indexed(_, inner)
        | Expr::Parentheses(inner)
        | Expr::Unary(_, inner)
        | Expr::Assign(_, inner)
        | Expr::CompoundAssign(_, _, inner) => spend(inner, left),
        Expr::Binary(_, a, b)
        | Expr::Compare(_, a, b)
        | Expr::LogicalAnd(a, b)
        | Expr::LogicalOr(a, b) => spend(b, spend(a, left)),
        Expr::Conditional(test, a, b) => spend(b, spend(a, spend(test, left))),
        Expr::Call { arguments, .. } => spend_arguments(arguments, left),
    }
}

#[cycle(spend)]
fn spend_arguments(arguments: &[Argument<Path>], budget: u32) -> u32
    ensures { result ≡ budget -
        (argument_nodes (arguments_from (map (argument_of path_of) arguments.now))) }
{
    let mut left = budget;
    for a in arguments {
        left = spend_argument(a, left);
    }
    left
}

#[cycle(spend)]
fn spend_argument(a: &Argument<Path>, left: u32) -> u32
    ensures { result ≡ left -
        (argument_nodes (arguments_from (argument_of path_of a.now ∷ []))) }
{
    match a {
        Argument::Text(_) => left,
        Argument::Value(e) => spend(e, left),
    }
}

/// What is left after the nodes of an expression, if there is one.
pub fn spend_optional(e: &Option<Expr<Path>>, budget: u32) -> u32
    ensures { result ≡ budget - optional_nodes (option_map (expr_of path_of) e.now) }
{
    match e {
        None => budget,
        Some(e) => spend(e, budget),
    }
}

/// What is left after the nodes of declarators.
pub fn spend_declarators(declarators: &[Declarator<Path>], budget: u32) -> u32
    ensures { result ≡ budget -
        (declarator_nodes (map (declarator_of path_of) declarators.now)) }
{
    let mut left = budget;
    for d in declarators {
        left = spend_declarator(d, left);
    }
    left
}

#[tactic(auto, using(crate::proofs::Spends::spends))]
fn spend_declarator(d: &Declarator<Path>, budget: u32) -> u32
    ensures { result ≡ budget - declarator_nodes (declarator_of path_of d.now ∷ []) }
{
    spend_optional(&d.value, budget.saturating_sub(1))
}

/// What is left after the nodes of a statement.
#[cycle(spend_statement)]
#[tactic(auto, using(crate::proofs::Spends::spends))]
pub fn spend_statement(s: &Stmt<Path>, budget: u32) -> u32
    ensures { result ≡ budget - statement_nodes (stmt_of path_of s.now) }
{
    let left = budget.saturating_sub(1);
    match s {
        Stmt::Empty | Stmt::Break { .. } | Stmt::Continue { .. } | Stmt::Return => left,
        Stmt::Evaluate(e) => spend(e, left),
        Stmt::Block(parts) => spend_parts(parts, left),
        Stmt::If(test, first) => spend_statement(first, spend(test, left)),
        Stmt::IfElse(test, first, otherwise) => {
            spend_statement(otherwise, spend_statement(first, spend(test, left)))
        }
        Stmt::While(test, body) => spend_statement(body, spend(test, left)),
        Stmt::Do(body, test) => spend(test, spend_statement(body, left)),
        Stmt::For {
            initial,
            condition,
            update,
            body,
        } => {
            let left = spend_optional(initial, left);
            let left = spend_optional(condition, left);
            let left = spend_optional(update, left);
            spend_statement(body, left)
        }
        Stmt::Switch(on, parts) => spend_parts(parts, spend(on, left)),
    }
}

/// What is left after the nodes between braces.
#[cycle(spend_statement)]
pub fn spend_parts(parts: &[Part<Path>], budget: u32) -> u32
    ensures { result ≡ budget - body_nodes (body_from (map (part_of path_of) parts.now)) }
{
    let mut left = budget;
    for part in parts {
        left = spend_part(part, left);
    }
    left
}

#[cycle(spend_statement)]
#[tactic(auto, using(crate::proofs::Spends::spends))]
fn spend_part(part: &Part<Path>, left: u32) -> u32
    ensures { result ≡ left - body_nodes (body_from (part_of path_of part.now ∷ [])) }
{
    match part {
        Part::Declare(declarators) => spend_declarators(declarators, left.saturating_sub(1)),
        Part::Statement(s) => spend_statement(s, left),
        Part::CaseLabel { .. } | Part::DefaultLabel { .. } => left.saturating_sub(1),
    }
}
