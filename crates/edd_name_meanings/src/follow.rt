//! What a path means.

ghost use Rattle.std.specs.Prelude.{◌≡◌, [], ◌∷◌, List, Option, None, Some, IfErr, IfOk, MatchOption, map};
ghost use Rattle.edd_syntax.specs.declared.numbers.ItemNo.{ItemNo};
ghost use Rattle.edd_syntax.specs.declared.numbers.Kind.{Kind};
ghost use Rattle.edd_syntax.specs.declared.numbers.TokenNo as token;
ghost use Rattle.edd_syntax.specs.NameRules.{faults_along};
ghost use Rattle.edd_syntax.specs.Numbers.{kind_of};
ghost use Rattle.edd_syntax.specs.Refusal.{Refusal, first_of};
ghost use Rattle.edd_syntax.specs.Resolution.{along};
ghost use Rattle.edd_syntax.specs.Text.{Name};
ghost use Rattle.edd_syntax.specs.WordsView.{text_bytes};
ghost use Rattle.edd_name_meanings.specs.Directory.{description_of};
ghost use Rattle.edd_name_meanings.specs.Meanings.{IsFirst, item_among};
ghost use Rattle.edd_name_meanings.specs.Paths.{Reaches};
ghost use Rattle.edd_name_meanings.specs.Places.{place_along};
ghost use Rattle.edd_name_meanings.specs.StandIns.{or_stand_in};

use crate::directory::Names;
use crate::path_steps::{PathStep, step_to_member, wrong_kind};
use crate::telling::stand_in;
use edd_breaches::Breach;
use edd_syntax::numbers::{ItemNo, Kind, TokenNo};
use edd_syntax::reference::{Path, Target};

// The step to the next member, or none where the item is not known.
fn step<'b>(
    names: &Names,
    here: PathStep<'b>,
    member: &'b str,
) -> Result<Option<PathStep<'b>>, Breach<'b>>
    requires { (j : ItemNo) → here.item ≡ Some j → kind_of j ≡ here.kind }
    ensures sound { IfOk result (λ next. (allowed : List Kind) (all : List Refusal)
        (at : token.TokenNo) (meant : Option ItemNo) (rest : List Name)
        → Reaches (description_of names.now) allowed all at meant here.entry (member.now ∷ rest)
        → MatchOption next ((None ≡ first_of all) × (meant ≡ None))
        (λ p. Reaches (description_of names.now) allowed all at meant p rest)) }
    ensures refused { IfErr result
        (λ b. (allowed : List Kind) (all : List Refusal) (at : token.TokenNo)
        (meant : Option ItemNo) (rest : List Name)
        → Reaches (description_of names.now) allowed all at meant here.entry (member.now ∷ rest)
        → IsFirst b all at) }
{
    if here.kind != Kind::Collection {
        return Err(wrong_kind(here.name, here.at, None));
    }
    // A dot is before each member.
    let at = TokenNo(here.at.0.saturating_add(2));
    match here.item {
        None => Ok(None),
        Some(item) => Ok(Some(step_to_member(names, item, member, at)?)),
    }
}

// The end of a path.
fn arrive<'b>(names: &Names, allowed: &[Kind], here: PathStep<'b>) -> Result<Target, Breach<'b>>
    ensures sound { IfOk result (λ t. (all : List Refusal) (at : token.TokenNo)
        (meant : Option ItemNo)
        → Reaches (description_of names.now) allowed.now all at meant here.entry []
        → (None ≡ first_of all) × (or_stand_in allowed.now (item_among allowed.now meant)
        ≡ Some t)) }
    ensures refused { IfErr result (λ b. (all : List Refusal) (at : token.TokenNo)
        (meant : Option ItemNo)
        → Reaches (description_of names.now) allowed.now all at meant here.entry []
        → IsFirst b all at) }
{
    if !here.kind.is_among(allowed) {
        return Err(wrong_kind(here.name, here.at, None));
    }
    match here.item {
        Some(item) => Ok(Target::Item(item)),
        None => Ok(stand_in(allowed)),
    }
}

/// The item that a path means which begins at an item, where items of some kinds are allowed. A
/// member that names nothing is no fault here: something stands for what it would mean.
pub fn follow<'b>(
    names: &Names,
    allowed: &[Kind],
    path: &'b Path,
    from: ItemNo,
) -> Result<Target, Breach<'b>>
    ensures sound { IfOk result
        (λ t. (None ≡ first_of (faults_along (description_of names.now) allowed.now
        (text_bytes path.now.base) (kind_of from) (Some from)
        (map text_bytes path.now.members.items)))
        × (or_stand_in allowed.now (item_among allowed.now (along (description_of names.now) from
        (map text_bytes path.now.members.items))) ≡ Some t)) }
    ensures refused { IfErr result
        (λ b. IsFirst b (faults_along (description_of names.now) allowed.now
        (text_bytes path.now.base)
        (kind_of from) (Some from) (map text_bytes path.now.members.items))
        (place_along (description_of names.now) path.now.at (kind_of from) (Some from)
        (map text_bytes path.now.members.items))) }
{
    let mut here = PathStep {
        name: path.base.as_str(),
        at: path.at,
        kind: from.kind(),
        item: Some(from),
    };
    for member in &path.members {
        match step(names, here, member.as_str())? {
            Some(next) => here = next,
            None => return Ok(stand_in(allowed)),
        }
    }
    arrive(names, allowed, here)
}
