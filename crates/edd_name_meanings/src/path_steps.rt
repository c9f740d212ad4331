//! What a reference to an item means.

ghost use Rattle.std.specs.Prelude.{◌≡◌, None, Some, IfErr, IfOk, option_and_then, option_map};
ghost use Rattle.edd_syntax.specs.declared.numbers.Kind.TheVariants as kind;
ghost use Rattle.edd_syntax.specs.ItemView.{member_of};
ghost use Rattle.edd_syntax.specs.Numbers.{kind_of};
ghost use Rattle.edd_syntax.specs.Refusal.{UnknownName, WrongKind};
ghost use Rattle.edd_syntax.specs.Resolution.{FoundMember, item_of_member, member_at, of_kind};
ghost use Rattle.edd_syntax.specs.TreeView.{path_of};
ghost use Rattle.edd_name_meanings.specs.Directory.{description_of};
ghost use Rattle.edd_breaches.specs.Told.{refusal_of};

use crate::directory::Names;
use edd_breaches::{Breach, Rule};
use edd_syntax::item::Member;
use edd_syntax::numbers::{ItemNo, Kind, TokenNo};
use edd_syntax::reference::Path;

/// Nothing has the name at a token.
pub fn unknown_name<'a>(name: &'a str, at: TokenNo) -> Breach<'a>
    ensures refusal { refusal_of result.rule ≡ UnknownName name.now }
    ensures placed { result.place ≡ Some at }
{
    Breach {
        rule: Rule::UnknownName(name),
        place: Some(at),
        earlier: None,
    }
}

/// What has the name at a token may not be there; a local is declared at the earlier token.
pub fn wrong_kind<'a>(name: &'a str, at: TokenNo, earlier: Option<TokenNo>) -> Breach<'a>
    ensures refusal { refusal_of result.rule ≡ WrongKind name.now }
    ensures placed { result.place ≡ Some at }
{
    Breach {
        rule: Rule::WrongKind(name),
        place: Some(at),
        earlier,
    }
}

/// A name on the way along a path and its token, the kind of what it names, and the item where that
/// is known.
#[derive(Clone, Copy)]
pub struct PathStep<'a> {
    pub name: &'a str,
    pub at: TokenNo,
    pub kind: Kind,
    pub item: Option<ItemNo>,
}

fn item_of_kind(item: Option<ItemNo>, kind: Kind) -> Option<ItemNo>
    ensures { result ≡ option_and_then (of_kind kind) item }
{
    match item {
        Some(i) if i.kind() == kind => Some(i),
        _ => None,
    }
}

fn member_of_item<'a>(
    names: &Names<'a>,
    item: ItemNo,
    member: &str,
) -> Option<(&'a Member<Path>, Kind)>
    requires { kind_of item ≡ kind.Collection }
    ensures { option_map (λ m. (member_of path_of m.0.now, m.1)) result
        ≡ member_at (description_of names.now) item member.now }
{
    match item {
        ItemNo::Collection(n) => names.member(n, member),
        ItemNo::Variable(_)
        | ItemNo::Command(_)
        | ItemNo::Menu(_)
        | ItemNo::Method(_)
        | ItemNo::Array(_) => None,
    }
}

// The step to a member of a collection, whose name is at a token.
pub fn step_to_member<'b>(
    names: &Names,
    item: ItemNo,
    member: &'b str,
    at: TokenNo,
) -> Result<PathStep<'b>, Breach<'b>>
    requires { kind_of item ≡ kind.Collection }
    ensures sound { IfOk result (λ p. (found : FoundMember)
        × (member_at (description_of names.now) item member.now ≡ Some found)
        × (p.name.now ≡ member.now) × (p.at ≡ at) × (p.kind ≡ found.1)
        × (p.item ≡ item_of_member (description_of names.now) found)) }
    ensures refused { IfErr result
        (λ b. (member_at (description_of names.now) item member.now ≡ None)
        × (refusal_of b.rule ≡ UnknownName member.now) × (b.place ≡ Some at)) }
{
    match member_of_item(names, item, member) {
        Some((found, of)) => Ok(PathStep {
            name: member,
            at,
            kind: of,
            item: item_of_kind(names.item(found.item.base.as_str()), of),
        }),
        None => Err(unknown_name(member, at)),
    }
}
