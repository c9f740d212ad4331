//! Expressions with the meaning of their names.

ghost use Rattle.std.specs.Prelude.{[], ◌∷◌, ◌++◌, map};
ghost use Rattle.std.specs.List.{flat_map};
ghost use Rattle.edd_syntax.specs.declared.expr.Argument.{Argument};
ghost use Rattle.edd_syntax.specs.declared.reference.Target.{Target};
ghost use Rattle.edd_syntax.specs.Expression.{arguments_from};
ghost use Rattle.edd_syntax.specs.NameUses.{OfArray, OfFunction, OfItem, expr_uses, uses_among, argument_uses};
ghost use Rattle.edd_syntax.specs.Resolution as resolution;
ghost use Rattle.edd_syntax.specs.Resolution.{variable_kinds};
ghost use Rattle.edd_syntax.specs.ResolvedTrees.{at_scope, resolved_expr, resolved_by, resolved_arguments};
ghost use Rattle.edd_syntax.specs.TreeView.{path_of, expr_of, argument_of, numbered_argument, numbered_expr};
ghost use Rattle.edd_name_meanings.specs.Directory.{description_of, read_by};
ghost use Rattle.edd_expression_names.specs.ResolvedParts.{resolved_argument};
ghost use Rattle.edd_name_meanings.specs.Meanings.{scope_of};
ghost use Rattle.edd_name_meanings.specs.Copies.{Copies, Keeps, Told};
ghost use Rattle.edd_name_meanings.specs.TokensIn.{tokens_in_argument, tokens_in_expr};
ghost use Rattle.edd_name_meanings.specs.PathsIn.{paths_in_arguments, paths_in_expr};

use crate::texts::copy_text;
use edd_breaches::Breach;
use edd_name_meanings::directory::Names;
use edd_name_meanings::references::{Local, argument_kinds, refer, refer_array, refer_function};
use edd_syntax::expr::{Argument, Expr};
use edd_syntax::numbers::Kind;
use edd_syntax::reference::{Path, Target};
use std::alloc::AllocError;

/// What a reference of an expression means, which is a variable or a local.
pub fn refer_variable<'a>(
    names: &Names,
    scope: &[Local],
    path: &'a Path,
    told: &mut Vec<Breach<'a>>,
) -> Result<Target, AllocError>
    ensures told { Told (description_of names.now)
        (OfItem (scope_of scope.now) variable_kinds (path_of path.now) ∷ [])
        (path.now ∷ []) told.old.items told.new.items result }
    ensures sound { Copies ((read_by names.now).reference (scope_of scope.now) variable_kinds
        (path_of path.now)) (λ t. t) result }
{
    refer(names, scope, &[Kind::Variable], path, told)
}

/// An expression with the meaning of its names.
pub fn copy_expr<'a>(
    e: &'a Expr<Path>,
    names: &Names,
    scope: &[Local],
    told: &mut Vec<Breach<'a>>,
) -> Result<Expr<Target>, AllocError>
    ensures told { Told (description_of names.now)
        (expr_uses (scope_of scope.now) (expr_of path_of e.now))
        (paths_in_expr e.now) told.old.items told.new.items result }
    ensures sound { Copies (resolved_expr (at_scope (read_by names.now) (scope_of scope.now))
        (expr_of path_of e.now)) numbered_expr result }
    ensures kept { Keeps (tokens_in_expr e.now) tokens_in_expr result }
{
    copy_among(e, &[Kind::Variable], names, scope, told)
}

// An expression in whose place a plain reference names an item of these kinds.
#[cycle(exprs)]
#[tactic(auto, using(edd_name_meanings::proofs::UseLaws::uses), unfolding(edd_syntax::specs::ResolvedTrees::resolved_by))]
fn copy_among<'a>(
    e: &'a Expr<Path>,
    kinds: &[Kind],
    names: &Names,
    scope: &[Local],
    told: &mut Vec<Breach<'a>>,
) -> Result<Expr<Target>, AllocError>
    ensures told { Told (description_of names.now)
        (uses_among (scope_of scope.now) kinds.now (expr_of path_of e.now))
        (paths_in_expr e.now) told.old.items told.new.items result }
    ensures sound { Copies (resolved_by (at_scope (read_by names.now) (scope_of scope.now))
        ((read_by names.now).reference (scope_of scope.now) kinds.now) (expr_of path_of e.now))
        numbered_expr result }
    ensures kept { Keeps (tokens_in_expr e.now) tokens_in_expr result }
{
    match e {
        Expr::Literal(value) => Ok(Expr::Literal(*value)),
        Expr::Decimal { at } => Ok(Expr::Decimal { at: *at }),
        Expr::Reference(from) => Ok(Expr::Reference(refer(names, scope, kinds, from, told)?)),
        Expr::Indexed(array, index) => {
            let (array, index) = copy_indexed(index, array, names, scope, told)?;
            Ok(Expr::Indexed(array, index))
        }
        Expr::Parentheses(inner) => {
            Ok(Expr::Parentheses(copy_boxed(inner, names, scope, told)?))
        }
        Expr::Unary(op, operand) => {
            Ok(Expr::Unary(*op, copy_boxed(operand, names, scope, told)?))
        }
        Expr::Binary(op, left, right) => {
            let (left, right) = copy_pair(left, right, names, scope, told)?;
            Ok(Expr::Binary(*op, left, right))
        }
        Expr::Compare(by, left, right) => {
            let (left, right) = copy_pair(left, right, names, scope, told)?;
            Ok(Expr::Compare(*by, left, right))
        }
        Expr::LogicalAnd(left, right) => {
            let (left, right) = copy_pair(left, right, names, scope, told)?;
            Ok(Expr::LogicalAnd(left, right))
        }
        Expr::LogicalOr(left, right) => {
            let (left, right) = copy_pair(left, right, names, scope, told)?;
            Ok(Expr::LogicalOr(left, right))
        }
        Expr::Conditional(test, first, second) => {
            let test = copy_boxed(test, names, scope, told)?;
            let (first, second) = copy_pair(first, second, names, scope, told)?;
            Ok(Expr::Conditional(test, first, second))
        }
        Expr::Assign(to, value) => {
            let (to, value) = copy_assigned(value, to, names, scope, told)?;
            Ok(Expr::Assign(to, value))
        }
        Expr::CompoundAssign(op, to, value) => {
            let (to, value) = copy_assigned(value, to, names, scope, told)?;
            Ok(Expr::CompoundAssign(*op, to, value))
        }
        Expr::Increment(by, to) => {
            Ok(Expr::Increment(*by, refer_variable(names, scope, to, told)?))
        }
        Expr::Call {
            at,
            function,
            arguments,
        } => {
            let (function, arguments) = copy_call(arguments, function, names, scope, told)?;
            Ok(Expr::Call {
                at: *at,
                function,
                arguments,
            })
        }
    }
}

// A part of an expression, in its box.
#[cycle(exprs)]
#[tactic(auto, using(edd_name_meanings::proofs::UseLaws::uses))]
fn copy_boxed<'a>(
    e: &'a Expr<Path>,
    names: &Names,
    scope: &[Local],
    told: &mut Vec<Breach<'a>>,
) -> Result<Box<Expr<Target>>, AllocError>
    ensures told { Told (description_of names.now)
        (expr_uses (scope_of scope.now) (expr_of path_of e.now))
        (paths_in_expr e.now) told.old.items told.new.items result }
    ensures sound { Copies (resolved_expr (at_scope (read_by names.now) (scope_of scope.now))
        (expr_of path_of e.now)) (λ t. numbered_expr t.value) result }
    ensures kept { Keeps (tokens_in_expr e.now) (λ t. tokens_in_expr t.value) result }
{
    let copy = copy_among(e, &[Kind::Variable], names, scope, told)?;
    Ok(Box::new(names.alloc, copy)?)
}

// Two parts of an expression, one after the other.
#[cycle(exprs)]
#[tactic(auto, using(edd_name_meanings::proofs::UseLaws::uses))]
fn copy_pair<'a>(
    left: &'a Expr<Path>,
    right: &'a Expr<Path>,
    names: &Names,
    scope: &[Local],
    told: &mut Vec<Breach<'a>>,
) -> Result<(Box<Expr<Target>>, Box<Expr<Target>>), AllocError>
    ensures told { Told (description_of names.now)
        (expr_uses (scope_of scope.now) (expr_of path_of left.now) ++ expr_uses (scope_of scope.now)
        (expr_of path_of right.now)) (paths_in_expr left.now ++ paths_in_expr right.now)
        told.old.items told.new.items result }
    ensures left { Copies (resolved_expr (at_scope (read_by names.now) (scope_of scope.now))
        (expr_of path_of left.now)) (λ t. numbered_expr t.0.value) result }
    ensures right { Copies (resolved_expr (at_scope (read_by names.now) (scope_of scope.now))
        (expr_of path_of right.now)) (λ t. numbered_expr t.1.value) result }
    ensures kept { Keeps (tokens_in_expr left.now ++ tokens_in_expr right.now)
        (λ t. tokens_in_expr t.0.value ++ tokens_in_expr t.1.value) result }
{
    let left = copy_boxed(left, names, scope, told)?;
    let right = copy_boxed(right, names, scope, told)?;
    Ok((left, right))
}

// What is assigned to, and the value.
#[cycle(exprs)]
#[tactic(auto, using(edd_name_meanings::proofs::UseLaws::uses))]
fn copy_assigned<'a>(
    value: &'a Expr<Path>,
    to: &'a Path,
    names: &Names,
    scope: &[Local],
    told: &mut Vec<Breach<'a>>,
) -> Result<(Target, Box<Expr<Target>>), AllocError>
    ensures told { Told (description_of names.now)
        (OfItem (scope_of scope.now) variable_kinds (path_of to.now)
        ∷ expr_uses (scope_of scope.now) (expr_of path_of value.now))
        (to.now ∷ paths_in_expr value.now) told.old.items told.new.items result }
    ensures to { Copies ((read_by names.now).reference (scope_of scope.now) variable_kinds
        (path_of to.now)) (λ t. t.0) result }
    ensures value { Copies (resolved_expr (at_scope (read_by names.now) (scope_of scope.now))
        (expr_of path_of value.now)) (λ t. numbered_expr t.1.value) result }
    ensures kept { Keeps (tokens_in_expr value.now) (λ t. tokens_in_expr t.1.value) result }
{
    let to = refer_variable(names, scope, to, told)?;
    let value = copy_boxed(value, names, scope, told)?;
    Ok((to, value))
}

// An array, and the number of its element.
#[cycle(exprs)]
#[tactic(auto, using(edd_name_meanings::proofs::UseLaws::uses))]
fn copy_indexed<'a>(
    index: &'a Expr<Path>,
    array: &'a Path,
    names: &Names,
    scope: &[Local],
    told: &mut Vec<Breach<'a>>,
) -> Result<(Target, Box<Expr<Target>>), AllocError>
    ensures told { Told (description_of names.now)
        (OfArray (scope_of scope.now) (path_of array.now)
        ∷ expr_uses (scope_of scope.now) (expr_of path_of index.now))
        (array.now ∷ paths_in_expr index.now) told.old.items told.new.items result }
    ensures array { Copies ((read_by names.now).array (scope_of scope.now) (path_of array.now))
        (λ t. t.0) result }
    ensures index { Copies (resolved_expr (at_scope (read_by names.now) (scope_of scope.now))
        (expr_of path_of index.now)) (λ t. numbered_expr t.1.value) result }
    ensures kept { Keeps (tokens_in_expr index.now) (λ t. tokens_in_expr t.1.value) result }
{
    let array = refer_array(names, scope, array, told)?;
    let index = copy_boxed(index, names, scope, told)?;
    Ok((array, index))
}

// The function that is called, and its arguments.
#[cycle(exprs)]
#[tactic(auto, using(edd_name_meanings::proofs::UseLaws::uses))]
fn copy_call<'a>(
    arguments: &'a [Argument<Path>],
    function: &'a Path,
    names: &Names,
    scope: &[Local],
    told: &mut Vec<Breach<'a>>,
) -> Result<(Target, Vec<Argument<Target>>), AllocError>
    ensures told { Told (description_of names.now) (OfFunction (path_of function.now)
        ∷ argument_uses (scope_of scope.now) (resolution.argument_kinds (path_of function.now))
        (arguments_from (map (argument_of path_of) arguments.now)))
        (function.now ∷ paths_in_arguments arguments.now) told.old.items told.new.items result }
    ensures function { Copies ((read_by names.now).function (path_of function.now)) (λ t. t.0)
        result }
    ensures arguments { Copies (resolved_arguments
        (at_scope (read_by names.now) (scope_of scope.now))
        ((read_by names.now).reference (scope_of scope.now)
        (resolution.argument_kinds (path_of function.now)))
        (arguments_from (map (argument_of path_of) arguments.now)))
        (λ t. arguments_from (map numbered_argument t.1.items)) result }
    ensures kept { Keeps (flat_map tokens_in_argument arguments.now)
        (λ t. flat_map tokens_in_argument t.1.items) result }
{
    let kinds = argument_kinds(function);
    let function = refer_function(names, function, told)?;
    let arguments = copy_arguments(arguments, kinds, names, scope, told)?;
    Ok((function, arguments))
}

#[cycle(exprs)]
fn copy_arguments<'a>(
    arguments: &'a [Argument<Path>],
    kinds: &[Kind],
    names: &Names,
    scope: &[Local],
    told: &mut Vec<Breach<'a>>,
) -> Result<Vec<Argument<Target>>, AllocError>
    ensures told { Told (description_of names.now)
        (argument_uses (scope_of scope.now) kinds.now
        (arguments_from (map (argument_of path_of) arguments.now)))
        (paths_in_arguments arguments.now) told.old.items told.new.items result }
    ensures sound { Copies (resolved_arguments (at_scope (read_by names.now) (scope_of scope.now))
        ((read_by names.now).reference (scope_of scope.now) kinds.now)
        (arguments_from (map (argument_of path_of) arguments.now)))
        (λ all. arguments_from (map numbered_argument all.items)) result }
    ensures kept { Keeps (flat_map tokens_in_argument arguments.now)
        (λ all. flat_map tokens_in_argument all.items) result }
{
    let mut all = Vec::with_capacity(names.alloc, arguments.len())?;
    for argument in arguments {
        all.push(copy_argument(argument, kinds, names, scope, told)?)?;
    }
    Ok(all)
}

#[cycle(exprs)]
#[tactic(auto, using(edd_name_meanings::proofs::UseLaws::uses))]
fn copy_argument<'a>(
    argument: &'a Argument<Path>,
    kinds: &[Kind],
    names: &Names,
    scope: &[Local],
    told: &mut Vec<Breach<'a>>,
) -> Result<Argument<Target>, AllocError>
    ensures told { Told (description_of names.now)
        (argument_uses (scope_of scope.now) kinds.now
        (arguments_from (argument_of path_of argument.now ∷ [])))
        (paths_in_arguments (argument.now ∷ [])) told.old.items told.new.items result }
    ensures sound { Copies (resolved_argument (at_scope (read_by names.now) (scope_of scope.now))
        ((read_by names.now).reference (scope_of scope.now) kinds.now)
        (argument_of path_of argument.now)) numbered_argument result }
    ensures kept { Keeps (tokens_in_argument argument.now) tokens_in_argument result }
{
    match argument {
        Argument::Text(text) => Ok(Argument::Text(copy_text(text, names.alloc)?)),
        Argument::Value(e) => Ok(Argument::Value(copy_among(e, kinds, names, scope, told)?)),
    }
}
