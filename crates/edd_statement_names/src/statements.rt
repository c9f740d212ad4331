//! Statements with the meaning of their names.

ghost use Rattle.std.specs.Prelude.{◌≡◌, ◌+◌, ◌≤◌, ◌++◌, [], ◌∷◌, IfOk, OnOk, map, option_map};
ghost use Rattle.std.specs.List.{flat_map};
ghost use Rattle.edd_syntax.specs.NameUses.{expr_uses, optional_uses, stmt_uses, body_uses};
ghost use Rattle.edd_syntax.specs.ResolvedTrees.{at_scope, resolved_expr, resolved_optional, resolved_stmt, resolved_body};
ghost use Rattle.edd_syntax.specs.Statement.{body_from, slots_of, slots_in};
ghost use Rattle.edd_syntax.specs.TreeView.{path_of, expr_of, stmt_of, part_of, numbered_expr, numbered_part, numbered_stmt};
ghost use Rattle.edd_name_meanings.specs.Directory.{description_of, read_by};
ghost use Rattle.edd_name_meanings.specs.Meanings.{scope_of};
ghost use Rattle.edd_statement_names.specs.ResolvedParts.{part_uses, paths_in_part, resolved_part, scope_behind, next_behind};
ghost use Rattle.edd_name_meanings.specs.Copies.{Copies, Keeps, Told};
ghost use Rattle.edd_name_meanings.specs.TokensIn.{tokens_in_expr, tokens_in_optional, tokens_in_part, tokens_in_stmt};
ghost use Rattle.edd_name_meanings.specs.PathsIn.{paths_in_expr, paths_in_optional, paths_in_parts, paths_in_stmt};

use crate::declarators::{copy_declarators, copy_optional};
use edd_breaches::Breach;
use edd_expression_names::exprs::copy_expr;
use edd_name_meanings::directory::Names;
use edd_name_meanings::references::Local;
use edd_syntax::expr::Expr;
use edd_syntax::reference::{Path, Target};
use edd_syntax::stmt::{Part, Stmt};
use std::alloc::{AllocError, Global};

// The locals that can be used in a block as it begins: those around it.
fn inner_scope<'a>(scope: &[Local<'a>], alloc: Global) -> Result<Vec<Local<'a>>, AllocError>
    ensures sound { IfOk result (λ v. v.items ≡ scope.now) }
{
    Ok(Vec::from_slice(alloc, scope)?)
}

/// A statement with the meaning of its names. Each of its locals takes the next slot.
#[cycle(statements)]
#[tactic(auto, using(edd_name_meanings::proofs::UseLaws::uses), unfolding(edd_syntax::specs::ResolvedTrees::resolved_stmt, edd_syntax::specs::Statement::slots_of))]
fn copy_stmt<'a>(
    s: &'a Stmt<Path>,
    names: &Names,
    scope: &[Local<'a>],
    next: &mut u8,
    told: &mut Vec<Breach<'a>>,
) -> Result<Stmt<Target>, AllocError>
    requires { next.old + slots_of (stmt_of path_of s.now) ≤ 64 }
    ensures told { Told (description_of names.now)
        (stmt_uses (stmt_of path_of s.now) (scope_of scope.now) next.old)
        (paths_in_stmt s.now) told.old.items told.new.items result }
    ensures sound { Copies (resolved_stmt (read_by names.now) (stmt_of path_of s.now)
        (scope_of scope.now) next.old) numbered_stmt result }
    ensures kept { Keeps (tokens_in_stmt s.now) tokens_in_stmt result }
    ensures next { OnOk result (next.new ≡ next.old + slots_of (stmt_of path_of s.now)) }
{
    match s {
        Stmt::Empty => Ok(Stmt::Empty),
        Stmt::Evaluate(e) => Ok(Stmt::Evaluate(copy_expr(e, names, scope, told)?)),
        Stmt::Block(parts) => Ok(Stmt::Block(copy_body(parts, names, scope, next, told)?)),
        Stmt::If(condition, body) => {
            let (condition, body) = copy_guarded(condition, body, names, scope, next, told)?;
            Ok(Stmt::If(condition, body))
        }
        Stmt::IfElse(condition, first, otherwise) => {
            let (condition, first, otherwise) = copy_choice(
                condition, first, otherwise, names, scope, next, told,
            )?;
            Ok(Stmt::IfElse(condition, first, otherwise))
        }
        Stmt::While(condition, body) => {
            let (condition, body) = copy_guarded(condition, body, names, scope, next, told)?;
            Ok(Stmt::While(condition, body))
        }
        Stmt::Do(body, condition) => {
            let (body, condition) = copy_repeated(body, condition, names, scope, next, told)?;
            Ok(Stmt::Do(body, condition))
        }
        Stmt::For {
            initial,
            condition,
            update,
            body,
        } => {
            let (initial, condition, update, body) = copy_looped(
                initial, condition, update, body, names, scope, next, told,
            )?;
            Ok(Stmt::For {
                initial,
                condition,
                update,
                body,
            })
        }
        Stmt::Switch(on, parts) => {
            let (on, parts) = copy_switched(parts, on, names, scope, next, told)?;
            Ok(Stmt::Switch(on, parts))
        }
        Stmt::Break { at } => Ok(Stmt::Break { at: *at }),
        Stmt::Continue { at } => Ok(Stmt::Continue { at: *at }),
        Stmt::Return => Ok(Stmt::Return),
    }
}

// A part of a statement, in its box.
#[cycle(statements)]
#[tactic(auto, using(edd_name_meanings::proofs::UseLaws::uses))]
fn copy_boxed<'a>(
    s: &'a Stmt<Path>,
    names: &Names,
    scope: &[Local<'a>],
    next: &mut u8,
    told: &mut Vec<Breach<'a>>,
) -> Result<Box<Stmt<Target>>, AllocError>
    requires { next.old + slots_of (stmt_of path_of s.now) ≤ 64 }
    ensures told { Told (description_of names.now)
        (stmt_uses (stmt_of path_of s.now) (scope_of scope.now) next.old)
        (paths_in_stmt s.now) told.old.items told.new.items result }
    ensures sound { Copies (resolved_stmt (read_by names.now) (stmt_of path_of s.now)
        (scope_of scope.now) next.old) (λ t. numbered_stmt t.value) result }
    ensures kept { Keeps (tokens_in_stmt s.now) (λ t. tokens_in_stmt t.value) result }
    ensures next { OnOk result (next.new ≡ next.old + slots_of (stmt_of path_of s.now)) }
{
    let copy = copy_stmt(s, names, scope, next, told)?;
    Ok(Box::new(names.alloc, copy)?)
}

// A condition, and the statement under it.
#[cycle(statements)]
#[tactic(auto, using(edd_name_meanings::proofs::UseLaws::uses))]
fn copy_guarded<'a>(
    condition: &'a Expr<Path>,
    body: &'a Stmt<Path>,
    names: &Names,
    scope: &[Local<'a>],
    next: &mut u8,
    told: &mut Vec<Breach<'a>>,
) -> Result<(Expr<Target>, Box<Stmt<Target>>), AllocError>
    requires { next.old + slots_of (stmt_of path_of body.now) ≤ 64 }
    ensures told { Told (description_of names.now)
        (expr_uses (scope_of scope.now) (expr_of path_of condition.now)
        ++ stmt_uses (stmt_of path_of body.now) (scope_of scope.now) next.old)
        (paths_in_expr condition.now ++ paths_in_stmt body.now) told.old.items told.new.items
        result }
    ensures condition { Copies (resolved_expr (at_scope (read_by names.now) (scope_of scope.now))
        (expr_of path_of condition.now)) (λ t. numbered_expr t.0) result }
    ensures body { Copies (resolved_stmt (read_by names.now) (stmt_of path_of body.now)
        (scope_of scope.now) next.old) (λ t. numbered_stmt t.1.value) result }
    ensures kept { Keeps (tokens_in_expr condition.now ++ tokens_in_stmt body.now)
        (λ t. tokens_in_expr t.0 ++ tokens_in_stmt t.1.value) result }
    ensures next { OnOk result (next.new ≡ next.old + slots_of (stmt_of path_of body.now)) }
{
    let condition = copy_expr(condition, names, scope, told)?;
    let body = copy_boxed(body, names, scope, next, told)?;
    Ok((condition, body))
}

// A condition, and the two statements of which one is chosen.
#[cycle(statements)]
#[tactic(auto, using(edd_name_meanings::proofs::UseLaws::uses))]
fn copy_choice<'a>(
    condition: &'a Expr<Path>,
    first: &'a Stmt<Path>,
    otherwise: &'a Stmt<Path>,
    names: &Names,
    scope: &[Local<'a>],
    next: &mut u8,
    told: &mut Vec<Breach<'a>>,
) -> Result<(Expr<Target>, Box<Stmt<Target>>, Box<Stmt<Target>>), AllocError>
    requires { next.old + (slots_of (stmt_of path_of first.now)
        + slots_of (stmt_of path_of otherwise.now)) ≤ 64 }
    ensures told { Told (description_of names.now)
        (expr_uses (scope_of scope.now) (expr_of path_of condition.now)
        ++ (stmt_uses (stmt_of path_of first.now) (scope_of scope.now) next.old
        ++ stmt_uses (stmt_of path_of otherwise.now) (scope_of scope.now)
        (next.old + slots_of (stmt_of path_of first.now))))
        (paths_in_expr condition.now ++ (paths_in_stmt first.now ++ paths_in_stmt otherwise.now))
        told.old.items told.new.items result }
    ensures condition { Copies (resolved_expr (at_scope (read_by names.now) (scope_of scope.now))
        (expr_of path_of condition.now)) (λ t. numbered_expr t.0) result }
    ensures first { Copies (resolved_stmt (read_by names.now) (stmt_of path_of first.now)
        (scope_of scope.now) next.old) (λ t. numbered_stmt t.1.value) result }
    ensures otherwise { Copies (resolved_stmt (read_by names.now) (stmt_of path_of otherwise.now)
        (scope_of scope.now) (next.old + slots_of (stmt_of path_of first.now)))
        (λ t. numbered_stmt t.2.value) result }
    ensures kept { Keeps (tokens_in_expr condition.now ++
        (tokens_in_stmt first.now ++ tokens_in_stmt otherwise.now))
        (λ t. tokens_in_expr t.0 ++ (tokens_in_stmt t.1.value ++ tokens_in_stmt t.2.value)) result }
    ensures next { OnOk result (next.new ≡ next.old
        + (slots_of (stmt_of path_of first.now) + slots_of (stmt_of path_of otherwise.now))) }
{
    let condition = copy_expr(condition, names, scope, told)?;
    let first = copy_boxed(first, names, scope, next, told)?;
    let otherwise = copy_boxed(otherwise, names, scope, next, told)?;
    Ok((condition, first, otherwise))
}

// A statement, and the condition after it.
#[cycle(statements)]
#[tactic(auto, using(edd_name_meanings::proofs::UseLaws::uses))]
fn copy_repeated<'a>(
    body: &'a Stmt<Path>,
    condition: &'a Expr<Path>,
    names: &Names,
    scope: &[Local<'a>],
    next: &mut u8,
    told: &mut Vec<Breach<'a>>,
) -> Result<(Box<Stmt<Target>>, Expr<Target>), AllocError>
    requires { next.old + slots_of (stmt_of path_of body.now) ≤ 64 }
    ensures told { Told (description_of names.now)
        (stmt_uses (stmt_of path_of body.now) (scope_of scope.now) next.old
        ++ expr_uses (scope_of scope.now) (expr_of path_of condition.now))
        (paths_in_stmt body.now ++ paths_in_expr condition.now) told.old.items told.new.items
        result }
    ensures body { Copies (resolved_stmt (read_by names.now) (stmt_of path_of body.now)
        (scope_of scope.now) next.old) (λ t. numbered_stmt t.0.value) result }
    ensures condition { Copies (resolved_expr (at_scope (read_by names.now) (scope_of scope.now))
        (expr_of path_of condition.now)) (λ t. numbered_expr t.1) result }
    ensures kept { Keeps (tokens_in_stmt body.now ++ tokens_in_expr condition.now)
        (λ t. tokens_in_stmt t.0.value ++ tokens_in_expr t.1) result }
    ensures next { OnOk result (next.new ≡ next.old + slots_of (stmt_of path_of body.now)) }
{
    let body = copy_boxed(body, names, scope, next, told)?;
    let condition = copy_expr(condition, names, scope, told)?;
    Ok((body, condition))
}

// The parts of FOR: three expressions, each of which may be missing, and the body.
type Looped = (
    Option<Expr<Target>>,
    Option<Expr<Target>>,
    Option<Expr<Target>>,
    Box<Stmt<Target>>,
);

#[cycle(statements)]
#[tactic(auto, using(edd_name_meanings::proofs::UseLaws::uses))]
fn copy_looped<'a>(
    initial: &'a Option<Expr<Path>>,
    condition: &'a Option<Expr<Path>>,
    update: &'a Option<Expr<Path>>,
    body: &'a Stmt<Path>,
    names: &Names,
    scope: &[Local<'a>],
    next: &mut u8,
    told: &mut Vec<Breach<'a>>,
) -> Result<Looped, AllocError>
    requires { next.old + slots_of (stmt_of path_of body.now) ≤ 64 }
    ensures told { Told (description_of names.now)
        (optional_uses (scope_of scope.now) (option_map (expr_of path_of) initial.now)
        ++ (optional_uses (scope_of scope.now) (option_map (expr_of path_of) condition.now)
        ++ (optional_uses (scope_of scope.now) (option_map (expr_of path_of) update.now)
        ++ stmt_uses (stmt_of path_of body.now) (scope_of scope.now) next.old)))
        (paths_in_optional initial.now ++ (paths_in_optional condition.now ++
        (paths_in_optional update.now ++ paths_in_stmt body.now))) told.old.items told.new.items
        result }
    ensures initial { Copies (resolved_optional (at_scope (read_by names.now) (scope_of scope.now))
        (option_map (expr_of path_of) initial.now)) (λ t. option_map numbered_expr t.0) result }
    ensures condition { Copies (resolved_optional
        (at_scope (read_by names.now) (scope_of scope.now))
        (option_map (expr_of path_of) condition.now)) (λ t. option_map numbered_expr t.1) result }
    ensures update { Copies (resolved_optional (at_scope (read_by names.now) (scope_of scope.now))
        (option_map (expr_of path_of) update.now)) (λ t. option_map numbered_expr t.2) result }
    ensures body { Copies (resolved_stmt (read_by names.now) (stmt_of path_of body.now)
        (scope_of scope.now) next.old) (λ t. numbered_stmt t.3.value) result }
    ensures kept { Keeps (tokens_in_optional initial.now ++
        (tokens_in_optional condition.now ++ (tokens_in_optional update.now ++ tokens_in_stmt
        body.now))) (λ t. tokens_in_optional t.0 ++
        (tokens_in_optional t.1 ++ (tokens_in_optional t.2 ++ tokens_in_stmt t.3.value))) result }
    ensures next { OnOk result (next.new ≡ next.old + slots_of (stmt_of path_of body.now)) }
{
    let initial = copy_optional(initial, names, scope, told)?;
    let condition = copy_optional(condition, names, scope, told)?;
    let update = copy_optional(update, names, scope, told)?;
    let body = copy_boxed(body, names, scope, next, told)?;
    Ok((initial, condition, update, body))
}

// What SWITCH is on, and its parts.
#[cycle(statements)]
#[tactic(auto, using(edd_name_meanings::proofs::UseLaws::uses))]
fn copy_switched<'a>(
    parts: &'a [Part<Path>],
    on: &'a Expr<Path>,
    names: &Names,
    scope: &[Local<'a>],
    next: &mut u8,
    told: &mut Vec<Breach<'a>>,
) -> Result<(Expr<Target>, Vec<Part<Target>>), AllocError>
    requires { next.old + slots_in (body_from (map (part_of path_of) parts.now)) ≤ 64 }
    ensures told { Told (description_of names.now)
        (expr_uses (scope_of scope.now) (expr_of path_of on.now)
        ++ body_uses (body_from (map (part_of path_of) parts.now)) (scope_of scope.now) next.old)
        (paths_in_expr on.now ++ paths_in_parts parts.now) told.old.items told.new.items result }
    ensures on { Copies (resolved_expr (at_scope (read_by names.now) (scope_of scope.now))
        (expr_of path_of on.now)) (λ t. numbered_expr t.0) result }
    ensures parts { Copies (resolved_body (read_by names.now)
        (body_from (map (part_of path_of) parts.now)) (scope_of scope.now) next.old)
        (λ t. body_from (map numbered_part t.1.items)) result }
    ensures kept { Keeps (tokens_in_expr on.now ++ flat_map tokens_in_part parts.now)
        (λ t. tokens_in_expr t.0 ++ flat_map tokens_in_part t.1.items) result }
    ensures next { OnOk result (next.new ≡ next.old
        + slots_in (body_from (map (part_of path_of) parts.now))) }
{
    let on = copy_expr(on, names, scope, told)?;
    let parts = copy_body(parts, names, scope, next, told)?;
    Ok((on, parts))
}

/// What is between braces, with the meaning of its names. Its locals can be used up to the
/// closing brace.
#[cycle(statements)]
pub fn copy_body<'a>(
    parts: &'a [Part<Path>],
    names: &Names,
    scope: &[Local<'a>],
    next: &mut u8,
    told: &mut Vec<Breach<'a>>,
) -> Result<Vec<Part<Target>>, AllocError>
    requires { next.old + slots_in (body_from (map (part_of path_of) parts.now)) ≤ 64 }
    ensures told { Told (description_of names.now)
        (body_uses (body_from (map (part_of path_of) parts.now)) (scope_of scope.now) next.old)
        (paths_in_parts parts.now) told.old.items told.new.items result }
    ensures sound { Copies (resolved_body (read_by names.now)
        (body_from (map (part_of path_of) parts.now)) (scope_of scope.now) next.old)
        (λ t. body_from (map numbered_part t.items)) result }
    ensures kept { Keeps (flat_map tokens_in_part parts.now) (λ t. flat_map tokens_in_part t.items)
        result }
    ensures next { OnOk result (next.new ≡ next.old
        + slots_in (body_from (map (part_of path_of) parts.now))) }
{
    let mut inner = inner_scope(scope, names.alloc)?;
    let mut copies = Vec::with_capacity(names.alloc, parts.len())?;
    for part in parts {
        copies.push(copy_part(part, names, &mut inner, next, told)?)?;
    }
    Ok(copies)
}

// A part of a block, with the scope and the next slot after it.
#[cycle(statements)]
#[tactic(auto, using(edd_name_meanings::proofs::UseLaws::uses), unfolding(edd_syntax::specs::Statement::slots_of))]
fn copy_part<'a>(
    part: &'a Part<Path>,
    names: &Names,
    scope: &mut Vec<Local<'a>>,
    next: &mut u8,
    told: &mut Vec<Breach<'a>>,
) -> Result<Part<Target>, AllocError>
    requires { next.old + slots_in (body_from (part_of path_of part.now ∷ [])) ≤ 64 }
    ensures told { Told (description_of names.now)
        (part_uses (scope_of scope.old.items) next.old (part_of path_of part.now))
        (paths_in_part part.now) told.old.items told.new.items result }
    ensures sound { Copies (resolved_part (read_by names.now) (scope_of scope.old.items) next.old
        (part_of path_of part.now)) numbered_part result }
    ensures kept { Keeps (tokens_in_part part.now) tokens_in_part result }
    ensures scope { OnOk result (scope_of scope.new.items
        ≡ scope_behind (scope_of scope.old.items) next.old (part_of path_of part.now)) }
    ensures next { OnOk result (next.new ≡ next_behind next.old (part_of path_of part.now)) }
{
    match part {
        Part::Declare(declarators) => {
            let copies = copy_declarators(declarators, names, scope, next, told)?;
            Ok(Part::Declare(copies))
        }
        Part::Statement(s) => Ok(Part::Statement(copy_stmt(s, names, scope, next, told)?)),
        Part::CaseLabel { at, label } => Ok(Part::CaseLabel {
            at: *at,
            label: *label,
        }),
        Part::DefaultLabel { at } => Ok(Part::DefaultLabel { at: *at }),
    }
}
