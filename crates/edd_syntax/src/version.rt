//! The version of the layout that an image of a checked description needs.

ghost use Rattle.std.specs.Prelude.{◌≡◌, ◌||◌, [], ◌∷◌, map, nat_lt, option_map, if◌then◌else◌};
ghost use Rattle.std.specs.List.{list_any, flat_map};
ghost use Rattle.edd_syntax.specs.declared.numbers.Kind.TheVariants as kind;
ghost use Rattle.edd_syntax.specs.Expression.{arguments_from};
ghost use Rattle.edd_syntax.specs.Item.{kind_of_item};
ghost use Rattle.edd_syntax.specs.ItemView.{identification_of, numbered_attribute, numbered_item, numbered_items};
ghost use Rattle.edd_syntax.specs.LayoutVersion as layout;
ghost use Rattle.edd_syntax.specs.LayoutVersion.{names_it, argument_names_it, one_names_it, body_names_it, needs_second_version};
ghost use Rattle.edd_syntax.specs.Numbers.{same_kind};
ghost use Rattle.edd_syntax.specs.Resolution.{count_of};
ghost use Rattle.edd_syntax.specs.Resolved.{description};
ghost use Rattle.edd_syntax.specs.Statement.{body_from};
ghost use Rattle.edd_syntax.specs.SubsetRules.{bodies_in, optional_part, stmt_expressions};
ghost use Rattle.edd_syntax.specs.TreeView.{numbered_argument, numbered_declarator, numbered_expr, numbered_part, numbered_stmt};

use crate::checked::Checked;
use crate::expr::{Argument, Expr};
use crate::item::{Attribute, Item};
use crate::numbers::Kind;
use crate::operators::Builtin;
use crate::reference::Target;
use crate::stmt::{Declarator, Part, Stmt};

fn has_array(items: &[Item<Target>]) -> bool
    ensures { result ≡ list_any (λ i. same_kind (kind_of_item i.sort) kind.Array)
        (map numbered_item items.now) }
{
    for item in items {
        if item.kind() == Kind::Array {
            return true;
        }
    }
    false
}

// ---- whether add_abort_method is named

fn is_add_abort_method(function: Target) -> bool
    ensures { result ≡ layout.is_add_abort_method function }
{
    matches!(function, Target::Function(Builtin::AddAbortMethod))
}

#[cycle(version_exprs)]
fn in_expr(e: &Expr<Target>) -> bool
    ensures { result ≡ names_it (numbered_expr e.now) }
{
    match e {
        Expr::Literal(_) | Expr::Decimal { .. } | Expr::Reference(_) | Expr::Increment(_, _) => {
            false
        }
        Expr::Indexed(_, inner)
        | Expr::Parentheses(inner)
        | Expr::Unary(_, inner)
        | Expr::Assign(_, inner)
        | Expr::CompoundAssign(_, _, inner) => in_expr(inner),
        Expr::Binary(_, a, b)
        | Expr::Compare(_, a, b)
        | Expr::LogicalAnd(a, b)
        | Expr::LogicalOr(a, b) => in_expr(a) || in_expr(b),
        Expr::Conditional(test, a, b) => in_expr(test) || in_expr(a) || in_expr(b),
        Expr::Call {
            function,
            arguments,
            ..
        } => is_add_abort_method(*function) || in_arguments(arguments),
    }
}

#[cycle(version_exprs)]
fn in_arguments(arguments: &[Argument<Target>]) -> bool
    ensures { result ≡ argument_names_it (arguments_from (map numbered_argument arguments.now)) }
{
    for argument in arguments {
        if in_argument(argument) {
            return true;
        }
    }
    false
}

#[cycle(version_exprs)]
fn in_argument(argument: &Argument<Target>) -> bool
    ensures { result
        ≡ argument_names_it (arguments_from (numbered_argument argument.now ∷ [])) }
{
    match argument {
        Argument::Text(_) => false,
        Argument::Value(e) => in_expr(e),
    }
}

fn in_optional(e: &Option<Expr<Target>>) -> bool
    ensures { result ≡ one_names_it (optional_part (option_map numbered_expr e.now)) }
{
    match e {
        None => false,
        Some(e) => in_expr(e),
    }
}

fn in_declarators(declarators: &[Declarator<Target>]) -> bool
    ensures { result ≡ one_names_it (flat_map (λ d. optional_part d.value)
        (map numbered_declarator declarators.now)) }
{
    for d in declarators {
        if in_optional(&d.value) {
            return true;
        }
    }
    false
}

#[cycle(version_statements)]
fn in_statement(s: &Stmt<Target>) -> bool
    ensures { result ≡ one_names_it (stmt_expressions (numbered_stmt s.now)) }
{
    match s {
        Stmt::Empty | Stmt::Break { .. } | Stmt::Continue { .. } | Stmt::Return => false,
        Stmt::Evaluate(e) => in_expr(e),
        Stmt::Block(parts) => in_body(parts),
        Stmt::If(condition, first) => in_expr(condition) || in_statement(first),
        Stmt::IfElse(condition, first, otherwise) => {
            in_expr(condition) || in_statement(first) || in_statement(otherwise)
        }
        Stmt::While(condition, body) => in_expr(condition) || in_statement(body),
        Stmt::Do(body, condition) => in_statement(body) || in_expr(condition),
        Stmt::For {
            initial,
            condition,
            update,
            body,
        } => {
            in_optional(initial)
                || in_optional(condition)
                || in_optional(update)
                || in_statement(body)
        }
        Stmt::Switch(on, parts) => in_expr(on) || in_body(parts),
    }
}

#[cycle(version_statements)]
fn in_body(parts: &[Part<Target>]) -> bool
    ensures { result ≡ body_names_it (body_from (map numbered_part parts.now)) }
{
    for part in parts {
        if in_part(part) {
            return true;
        }
    }
    false
}

#[cycle(version_statements)]
fn in_part(part: &Part<Target>) -> bool
    ensures { result ≡ body_names_it (body_from (numbered_part part.now ∷ [])) }
{
    match part {
        Part::Declare(declarators) => in_declarators(declarators),
        Part::Statement(s) => in_statement(s),
        Part::CaseLabel { .. } | Part::DefaultLabel { .. } => false,
    }
}

fn in_attribute(attribute: &Attribute<Target>) -> bool
    ensures { result ≡ list_any body_names_it (bodies_in (numbered_attribute attribute.now)) }
{
    match attribute {
        Attribute::Definition(_, parts) => in_body(parts),
        _ => false,
    }
}

fn in_attributes(attributes: &[Attribute<Target>]) -> bool
    ensures { result ≡ list_any body_names_it
        (flat_map bodies_in (map numbered_attribute attributes.now)) }
{
    for attribute in attributes {
        if in_attribute(attribute) {
            return true;
        }
    }
    false
}

fn in_items(items: &[Item<Target>]) -> bool
    ensures { result ≡ list_any body_names_it
        (flat_map bodies_in (flat_map (λ i. i.attributes) (map numbered_item items.now))) }
{
    for item in items {
        if in_attributes(item.attributes()) {
            return true;
        }
    }
    false
}

#[tactic(auto, using(crate::proofs::ArrayLaws::counted_any))]
fn needs_second(items: &[Item<Target>]) -> bool
    ensures { result ≡ (nat_lt 0 (count_of kind.Array (map numbered_item items.now))
        || list_any body_names_it
        (flat_map bodies_in (flat_map (λ i. i.attributes) (map numbered_item items.now)))) }
{
    has_array(items) || in_items(items)
}

impl Checked {
    /// The version of the layout that an image of it needs: 2 where there is an array or where a
    /// method names add_abort_method, else 1.
    pub fn version(&self) -> u16
        ensures { result ≡ (if needs_second_version (description
            (identification_of self.now.identification)
            (numbered_items self.now.items.value.items)) then 2 else 1) }
    {
        if needs_second(&self.items) { 2 } else { 1 }
    }
}
