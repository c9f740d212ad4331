//! Declared locals with the meaning of the names in their values.

ghost use Rattle.std.specs.Prelude.{◌≡◌, ◌+◌, ◌<◌, ◌≤◌, OnOk, length, map, option_map};
ghost use Rattle.std.specs.List.{flat_map};
ghost use Rattle.edd_syntax.specs.NameUses.{optional_uses, declarator_uses};
ghost use Rattle.edd_syntax.specs.Resolution.{all_declared, declared};
ghost use Rattle.edd_syntax.specs.ResolvedTrees.{at_scope, resolved_optional, resolved_declarators};
ghost use Rattle.edd_syntax.specs.TreeView.{path_of, expr_of, declarator_of, numbered_declarator, numbered_expr};
ghost use Rattle.edd_name_meanings.specs.Directory.{description_of, read_by};
ghost use Rattle.edd_name_meanings.specs.Meanings.{scope_of};
ghost use Rattle.edd_statement_names.specs.ResolvedParts.{resolved_declarator};
ghost use Rattle.edd_name_meanings.specs.Copies.{Copies, Keeps, Told};
ghost use Rattle.edd_name_meanings.specs.TokensIn.{tokens_in_declarator, tokens_in_optional};
ghost use Rattle.edd_name_meanings.specs.PathsIn.{paths_in_declarators, paths_in_optional};

use edd_breaches::Breach;
use edd_expression_names::exprs::copy_expr;
use edd_name_meanings::directory::Names;
use edd_name_meanings::references::Local;
use edd_syntax::expr::Expr;
use edd_syntax::reference::{Path, Target};
use edd_syntax::stmt::Declarator;
use std::alloc::AllocError;

/// An expression that may be missing, with the meaning of its names.
#[tactic(auto, using(edd_name_meanings::proofs::UseLaws::uses))]
pub fn copy_optional<'a>(
    e: &'a Option<Expr<Path>>,
    names: &Names,
    scope: &[Local],
    told: &mut Vec<Breach<'a>>,
) -> Result<Option<Expr<Target>>, AllocError>
    ensures told { Told (description_of names.now)
        (optional_uses (scope_of scope.now) (option_map (expr_of path_of) e.now))
        (paths_in_optional e.now) told.old.items told.new.items result }
    ensures sound { Copies (resolved_optional (at_scope (read_by names.now) (scope_of scope.now))
        (option_map (expr_of path_of) e.now)) (option_map numbered_expr) result }
    ensures kept { Keeps (tokens_in_optional e.now) tokens_in_optional result }
{
    match e {
        Some(e) => Ok(Some(copy_expr(e, names, scope, told)?)),
        None => Ok(None),
    }
}

/// One more local, which hides those of its name.
pub fn declare<'a>(scope: &mut Vec<Local<'a>>, place: &'a Path, slot: u8) -> Result<(), AllocError>
    ensures sound { OnOk result (scope_of scope.new.items ≡ declared (path_of place.now) slot
        (scope_of scope.old.items)) }
{
    scope.insert(
        0,
        Local {
            name: place.base.as_str(),
            slot,
            at: place.at,
        },
    )?;
    Ok(())
}

#[tactic(auto, using(edd_name_meanings::proofs::UseLaws::uses))]
fn copy_declarator<'a>(
    declarator: &'a Declarator<Path>,
    names: &Names,
    scope: &[Local],
    slot: u8,
    told: &mut Vec<Breach<'a>>,
) -> Result<Declarator<Target>, AllocError>
    ensures told { Told (description_of names.now)
        (optional_uses (scope_of scope.now) (declarator_of path_of declarator.now).value)
        (paths_in_optional declarator.now.value) told.old.items told.new.items result }
    ensures sound { Copies (resolved_declarator (read_by names.now) (scope_of scope.now) slot
        (declarator_of path_of declarator.now)) numbered_declarator result }
    ensures kept { Keeps (tokens_in_declarator declarator.now) tokens_in_declarator result }
{
    let value = copy_optional(&declarator.value, names, scope, told)?;
    Ok(Declarator {
        place: Target::Local(slot),
        value,
    })
}

// The next declarator: its value is copied in the scope before it, and its local is in the scope
// after it.
#[tactic(auto, using(edd_name_meanings::proofs::UseLaws::uses))]
fn copy_next<'a>(
    declarator: &'a Declarator<Path>,
    names: &Names,
    scope: &mut Vec<Local<'a>>,
    next: &mut u8,
    told: &mut Vec<Breach<'a>>,
) -> Result<Declarator<Target>, AllocError>
    requires { next.old < 64 }
    ensures told { Told (description_of names.now)
        (optional_uses (scope_of scope.old.items) (declarator_of path_of declarator.now).value)
        (paths_in_optional declarator.now.value) told.old.items told.new.items result }
    ensures sound { Copies (resolved_declarator (read_by names.now) (scope_of scope.old.items)
        next.old (declarator_of path_of declarator.now)) numbered_declarator result }
    ensures kept { Keeps (tokens_in_declarator declarator.now) tokens_in_declarator result }
    ensures scope { OnOk result (scope_of scope.new.items
        ≡ declared (declarator_of path_of declarator.now).place next.old
        (scope_of scope.old.items)) }
    ensures next { OnOk result (next.new ≡ next.old + 1) }
{
    let copy = copy_declarator(declarator, names, scope, *next, told)?;
    declare(scope, &declarator.place, *next)?;
    *next += 1;
    Ok(copy)
}

/// Declarators with the meaning of the names in their values, and the scope and the next slot
/// after them.
#[tactic(auto, using(edd_name_meanings::proofs::UseLaws::uses))]
pub fn copy_declarators<'a>(
    declarators: &'a [Declarator<Path>],
    names: &Names,
    scope: &mut Vec<Local<'a>>,
    next: &mut u8,
    told: &mut Vec<Breach<'a>>,
) -> Result<Vec<Declarator<Target>>, AllocError>
    requires { next.old + length declarators.now ≤ 64 }
    ensures told { Told (description_of names.now)
        (declarator_uses (scope_of scope.old.items) next.old
        (map (declarator_of path_of) declarators.now)) (paths_in_declarators declarators.now)
        told.old.items told.new.items result }
    ensures sound { Copies (resolved_declarators (read_by names.now) (scope_of scope.old.items)
        next.old (map (declarator_of path_of) declarators.now))
        (λ copies. map numbered_declarator copies.items) result }
    ensures kept { Keeps (flat_map tokens_in_declarator declarators.now)
        (λ copies. flat_map tokens_in_declarator copies.items) result }
    ensures scope { OnOk result (scope_of scope.new.items ≡ all_declared (scope_of scope.old.items)
        next.old (map (declarator_of path_of) declarators.now)) }
    ensures next { OnOk result (next.new ≡ next.old + length declarators.now) }
{
    let mut copies = Vec::with_capacity(names.alloc, declarators.len())?;
    for declarator in declarators {
        copies.push(copy_next(declarator, names, scope, next, told)?)?;
    }
    Ok(copies)
}
