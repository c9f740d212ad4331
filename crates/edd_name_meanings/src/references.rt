//! What references and the names of functions mean.

ghost use Rattle.std.specs.Prelude.{◌≡◌, [], ◌∷◌, None, Some, IfErr, IfOk, option_map};
ghost use Rattle.edd_syntax.specs.Item.{Description};
ghost use Rattle.edd_syntax.specs.NameRules.{faults_of_local, faults_of_item};
ghost use Rattle.edd_syntax.specs.NameUses.{OfItem, OfArray, OfFunction};
ghost use Rattle.edd_syntax.specs.Reference as pure;
ghost use Rattle.edd_syntax.specs.Resolution as resolution;
ghost use Rattle.edd_syntax.specs.Resolution.{look_up, local_meant, item_meant, function_meant};
ghost use Rattle.edd_syntax.specs.Refusal.{first_of};
ghost use Rattle.edd_syntax.specs.TreeView.{path_of};
ghost use Rattle.edd_name_meanings.specs.Copies.{Copies, Told};
ghost use Rattle.edd_name_meanings.specs.Directory.{description_of};
ghost use Rattle.edd_name_meanings.specs.Places.{place_of_item};
ghost use Rattle.edd_name_meanings.specs.Meanings.{IsFaultOf, IsFirst, NoFault, scope_of};
ghost use Rattle.edd_name_meanings.specs.StandIns.{or_stand_in, read_in};

use crate::directory::Names;
use crate::follow::follow;
use crate::path_steps::{unknown_name, wrong_kind};
use crate::telling::{stand_in, tell};
use edd_breaches::Breach;
use edd_syntax::numbers::{KINDS, Kind, TokenNo};
use edd_syntax::operators::Builtin;
use edd_syntax::reference::{Path, Target};
use std::alloc::AllocError;

/// A local that can be used, with its slot and the token that declares it.
#[derive(Clone, Copy)]
pub struct Local<'a> {
    pub name: &'a str,
    pub slot: u8,
    pub at: TokenNo,
}

// The first local of a name.
fn find_local<'a>(scope: &[Local<'a>], name: &str) -> Option<Local<'a>>
    ensures { option_map (λ l. l.slot) result ≡ look_up name.now (scope_of scope.now) }
{
    for local in scope {
        if local.name == name {
            return Some(*local);
        }
    }
    None
}

// A local, which has no members.
fn refer_local<'b>(local: Local, path: &'b Path) -> Result<Target, Breach<'b>>
    ensures sound { IfOk result
        (λ t. (None ≡ first_of (faults_of_local (path_of path.now) (path_of path.now).members))
        × (local_meant local.entry.slot (path_of path.now).members ≡ Some t)) }
    ensures refused { IfErr result
        (λ b. IsFirst b (faults_of_local (path_of path.now) (path_of path.now).members)
        path.now.at) }
{
    if path.members.is_empty() {
        Ok(Target::Local(local.slot))
    } else {
        Err(wrong_kind(path.base.as_str(), path.at, Some(local.at)))
    }
}

fn refer_item<'b>(names: &Names, kinds: &[Kind], path: &'b Path) -> Result<Target, Breach<'b>>
    ensures sound { IfOk result
        (λ t. (None ≡ first_of (faults_of_item (description_of names.now) kinds.now
        (path_of path.now)))
        × (or_stand_in kinds.now
        (item_meant (description_of names.now) kinds.now (path_of path.now)) ≡ Some t)) }
    ensures refused { IfErr result
        (λ b. IsFirst b (faults_of_item (description_of names.now) kinds.now (path_of path.now))
        (place_of_item (description_of names.now) (path_of path.now) path.now.at)) }
{
    match names.item(path.base.as_str()) {
        Some(item) => follow(names, kinds, path, item),
        None => Err(unknown_name(path.base.as_str(), path.at)),
    }
}

// What a reference means at a place where items of some kinds may be.
#[tactic(auto, unfolding(crate::specs::Meanings::NoFault, crate::specs::Meanings::IsFaultOf, crate::specs::Meanings::faults_in))]
fn find<'b>(
    names: &Names,
    scope: &[Local],
    kinds: &[Kind],
    path: &'b Path,
) -> Result<Target, Breach<'b>>
    ensures accepted { IfOk result
        (λ t. NoFault (description_of names.now)
        (OfItem (scope_of scope.now) kinds.now (path_of path.now)
        ∷ [])) }
    ensures sound { IfOk result
        (λ t. (read_in (description_of names.now)).reference (scope_of scope.now) kinds.now
        (path_of path.now) ≡ Some t) }
    ensures refused { IfErr result
        (λ b. IsFaultOf b (description_of names.now)
        (OfItem (scope_of scope.now) kinds.now (path_of path.now)) path.now) }
{
    match find_local(scope, path.base.as_str()) {
        Some(local) => refer_local(local, path),
        None => refer_item(names, kinds, path),
    }
}

// The array that is meant before an index; a local of the name is no array.
#[tactic(auto, unfolding(crate::specs::Meanings::NoFault, crate::specs::Meanings::IsFaultOf, crate::specs::Meanings::faults_in))]
fn find_array<'b>(names: &Names, scope: &[Local], path: &'b Path) -> Result<Target, Breach<'b>>
    ensures accepted { IfOk result
        (λ t. NoFault (description_of names.now)
        (OfArray (scope_of scope.now) (path_of path.now) ∷ [])) }
    ensures sound { IfOk result
        (λ t. (read_in (description_of names.now)).array (scope_of scope.now) (path_of path.now)
        ≡ Some t) }
    ensures refused { IfErr result
        (λ b. IsFaultOf b (description_of names.now)
        (OfArray (scope_of scope.now) (path_of path.now)) path.now) }
{
    match find_local(scope, path.base.as_str()) {
        Some(local) => Err(wrong_kind(path.base.as_str(), path.at, Some(local.at))),
        None => refer_item(names, &[Kind::Array], path),
    }
}

/// The kinds of items that a plain reference may name as an argument of a function: all for one that
/// does not exist.
pub fn argument_kinds(function: &Path) -> &'static [Kind]
    ensures { result.now ≡ resolution.argument_kinds (path_of function.now) }
{
    match Builtin::named(function.base.as_str()) {
        Some(Builtin::AddAbortMethod) => &[Kind::Method],
        Some(_) => &[Kind::Variable],
        None => &KINDS,
    }
}

// What the name of a call means.
#[tactic(auto, unfolding(crate::specs::Meanings::NoFault, crate::specs::Meanings::IsFaultOf, crate::specs::Meanings::faults_in))]
fn find_function<'b>(path: &'b Path) -> Result<Target, Breach<'b>>
    ensures accepted { IfOk result
        (λ t. (unit : Description pure.Path) → NoFault unit (OfFunction (path_of path.now) ∷ [])) }
    ensures sound { IfOk result (λ t. function_meant (path_of path.now) ≡ Some t) }
    ensures refused { IfErr result (λ b. (unit : Description pure.Path)
        → IsFaultOf b unit (OfFunction (path_of path.now)) path.now) }
{
    match Builtin::named(path.base.as_str()) {
        Some(function) => Ok(Target::Function(function)),
        None => Err(unknown_name(path.base.as_str(), path.at)),
    }
}

/// What a reference means at a place where items of some kinds may be. A fault of it is told, and
/// the walk goes on.
#[tactic(auto, using(crate::proofs::UseLaws::uses))]
pub fn refer<'a>(
    names: &Names,
    scope: &[Local],
    kinds: &[Kind],
    path: &'a Path,
    told: &mut Vec<Breach<'a>>,
) -> Result<Target, AllocError>
    ensures told { Told (description_of names.now)
        (OfItem (scope_of scope.now) kinds.now (path_of path.now) ∷ []) (path.now ∷ [])
        told.old.items told.new.items
        result }
    ensures sound { Copies ((read_in (description_of names.now)).reference (scope_of scope.now)
        kinds.now
        (path_of path.now)) (λ t. t) result }
{
    match find(names, scope, kinds, path) {
        Ok(target) => Ok(target),
        Err(fault) => tell(fault, stand_in(kinds), told),
    }
}

/// The array that is meant before an index; a local of the name is no array. A fault of it is told,
/// and the walk goes on.
#[tactic(auto, using(crate::proofs::UseLaws::uses))]
pub fn refer_array<'a>(
    names: &Names,
    scope: &[Local],
    path: &'a Path,
    told: &mut Vec<Breach<'a>>,
) -> Result<Target, AllocError>
    ensures told { Told (description_of names.now)
        (OfArray (scope_of scope.now) (path_of path.now) ∷ []) (path.now ∷ []) told.old.items
        told.new.items
        result }
    ensures sound { Copies ((read_in (description_of names.now)).array (scope_of scope.now)
        (path_of path.now))
        (λ t. t) result }
{
    match find_array(names, scope, path) {
        Ok(target) => Ok(target),
        Err(fault) => tell(fault, stand_in(&[Kind::Array]), told),
    }
}

/// What the name of a call means. A fault of it is told, and the walk goes on.
#[tactic(auto, using(crate::proofs::UseLaws::uses))]
pub fn refer_function<'a>(
    names: &Names,
    path: &'a Path,
    told: &mut Vec<Breach<'a>>,
) -> Result<Target, AllocError>
    ensures told { Told (description_of names.now) (OfFunction (path_of path.now) ∷ [])
        (path.now ∷ []) told.old.items told.new.items
        result }
    ensures sound { Copies ((read_in (description_of names.now)).function (path_of path.now))
        (λ t. t) result }
{
    match find_function(path) {
        Ok(target) => Ok(target),
        Err(fault) => tell(fault, stand_in(&[]), told),
    }
}
