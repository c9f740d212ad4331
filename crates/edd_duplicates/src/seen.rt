//! Names that must differ.

ghost use Rattle.std.specs.Prelude.{◌≡◌, [], ◌∷◌, List, OnOk, IfOk, is_some, map};
ghost use Rattle.std.specs.Str.{bytes_eq};
ghost use Rattle.edd_breaches.specs.Told.{Tells, told_if, refusal_of};
ghost use Rattle.edd_syntax.specs.Refusal.{is_name_in};
ghost use Rattle.edd_syntax.specs.Text.{Name};
ghost use Rattle.edd_duplicates.specs.Names.{name_told, word_told};
ghost use Rattle.edd_duplicates.specs.Seen.{in_many, HasSeen};

use arrayvec::ArrayVec;
use edd_breaches::{Breach, Rule, tell_clash};
use edd_syntax::numbers::TokenNo;
use indexmap::IndexMap;
use std::alloc::{AllocError, Global};

/// A name, and the number of its token.
#[derive(Clone, Copy, Default)]
pub struct Mark<'a> {
    pub name: &'a str,
    pub token: u32,
}

/// Names of one scope, which must differ. Where mostly few come, the first stand in a list, since to
/// look through a short one takes less than a map does, and the others in the map.
#[derive(Drop)]
pub struct Seen<'a> {
    pub few: ArrayVec<Mark<'a>, 16>,
    pub is_short: bool,
    /// Each with the number of its token.
    pub many: IndexMap<&'a str, u32>,
}

impl<'a> Seen<'a> {
    /// No names yet, of which mostly few come.
    pub fn of_few(alloc: Global) -> Seen<'a>
        ensures { HasSeen [] result }
    {
        Seen {
            few: ArrayVec::new(),
            is_short: true,
            many: IndexMap::new(alloc),
        }
    }

    /// No names yet, of which mostly many come.
    pub fn of_many(alloc: Global) -> Seen<'a>
        ensures { HasSeen [] result }
    {
        Seen {
            few: ArrayVec::new(),
            is_short: false,
            many: IndexMap::new(alloc),
        }
    }
}

// Whether two names are one. Most of a scope differ in their lengths or in their last bytes.
fn are_one(one: &str, other: &str) -> bool
    ensures { result ≡ bytes_eq one.now other.now }
{
    one.len() == other.len() && one.as_bytes().last() == other.as_bytes().last() && one == other
}

// The token of a name in a list.
fn among(marks: &[Mark], name: &str) -> Option<u32>
    ensures { is_some result ≡ is_name_in (map (λ m. m.name.now) marks.now) name.now }
{
    for mark in marks {
        if are_one(mark.name, name) {
            return Some(mark.token);
        }
    }
    None
}

// One more name that is not in the list. The answer is the token of the first one of this name, if
// it was in the map. While the list has room there is mostly none, and the map is not asked.
fn put<'a>(seen: &mut Seen<'a>, name: &'a str, at: TokenNo) -> Result<Option<TokenNo>, AllocError>
    ensures found { IfOk result (λ found. is_some found ≡ in_many seen.old name.now) }
    ensures known { OnOk result ((before : List Name) → HasSeen before seen.old
        → HasSeen (name.now ∷ before) seen.new) }
{
    let token = at.0;
    if seen.is_short && !seen.few.is_full() && seen.many.is_empty() {
        seen.few.push(Mark { name, token });
        return Ok(None);
    }
    match seen.many.insert(name, token)? {
        None => Ok(None),
        Some(first) => {
            seen.many.insert(name, first)?;
            Ok(Some(TokenNo(first)))
        }
    }
}

/// One more name of a scope. The answer is the token of the first one of this name, if it was there.
pub fn add<'a>(
    seen: &mut Seen<'a>,
    name: &'a str,
    at: TokenNo,
) -> Result<Option<TokenNo>, AllocError>
    ensures found { IfOk result (λ found. (before : List Name) → HasSeen before seen.old
        → is_some found ≡ is_name_in before name.now) }
    ensures known { OnOk result ((before : List Name) → HasSeen before seen.old
        → HasSeen (name.now ∷ before) seen.new) }
{
    if let Some(token) = among(&seen.few, name) {
        return Ok(Some(TokenNo(token)));
    }
    put(seen, name, at)
}

// One more name or word of a scope, which must not be there yet.
#[tactic(auto, using(edd_breaches::proofs::TellLaws::told_where))]
fn note<'a>(
    seen: &mut Seen<'a>,
    name: &'a str,
    at: TokenNo,
    rule: Rule<'a>,
    told: &mut Vec<Breach<'a>>,
) -> Result<(), AllocError>
    ensures told { OnOk result ((before : List Name) → HasSeen before seen.old
        → Tells (told_if (is_name_in before name.now) (refusal_of rule.entry) at)
        told.old.items told.new.items) }
    ensures known { OnOk result ((before : List Name) → HasSeen before seen.old
        → HasSeen (name.now ∷ before) seen.new) }
{
    match add(seen, name, at)? {
        Some(earlier) => tell_clash(rule, at, Some(earlier), told),
        None => Ok(()),
    }
}

/// One more name of a scope.
pub fn note_name<'a>(
    seen: &mut Seen<'a>,
    name: &'a str,
    at: TokenNo,
    told: &mut Vec<Breach<'a>>,
) -> Result<(), AllocError>
    ensures told { OnOk result ((before : List Name) → HasSeen before seen.old
        → Tells (name_told before name.now at) told.old.items told.new.items) }
    ensures known { OnOk result ((before : List Name) → HasSeen before seen.old
        → HasSeen (name.now ∷ before) seen.new) }
{
    note(seen, name, at, Rule::DuplicateName(name), told)
}

/// One more word of attributes.
pub fn note_word<'a>(
    seen: &mut Seen<'a>,
    word: &'static str,
    at: TokenNo,
    told: &mut Vec<Breach<'a>>,
) -> Result<(), AllocError>
    ensures told { OnOk result ((before : List Name) → HasSeen before seen.old
        → Tells (word_told before word.now at) told.old.items told.new.items) }
    ensures known { OnOk result ((before : List Name) → HasSeen before seen.old
        → HasSeen (word.now ∷ before) seen.new) }
{
    let name: &'a str = word;
    note(seen, name, at, Rule::DuplicateAttribute(word), told)
}
