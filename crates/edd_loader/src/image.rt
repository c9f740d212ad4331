//! Images that were loaded.

ghost use Rattle.std.specs.Prelude.{◌≡◌, ◌≢◌, IfErr, IfOk, IfNone, IfSome, IsTrue, MatchOption, OnOk, Some, is_some, option_map};
ghost use Rattle.std.specs.List.{slice_get};
ghost use Rattle.edd_image.specs.Contents.{contents_in, fields_of_variable};
ghost use Rattle.edd_image.specs.Existing.{item_exists, string_exists, variable_exists};
ghost use Rattle.edd_instructions.specs.Agreement.{name_numbered, string_numbered};
ghost use Rattle.edd_instructions.specs.Reading.{environment_of};
ghost use Rattle.edd_syntax.specs.Elements.{element_variable};
ghost use Rattle.edd_loader.specs.Lookups.{IsFirstNamed, type_of_kind};
ghost use Rattle.edd_image.specs.Fields.{counts_in};
ghost use Rattle.edd_instructions.specs.Validity.{BreaksFirst, IsValid};
ghost use Rattle.edd_loader.specs.Texts.{given, seen};
ghost use Rattle.edd_loader.specs.Faults.{rule_of};
ghost use Rattle.edd_loader.specs.Spots.{IsSpotOf};
ghost use Rattle.edd_loader.specs.Starts.{starts_in};

use crate::checks::first_broken;
use crate::elements::element_at;
use crate::fault::{LoadFault, fault_of};
use crate::lookups::{as_text, find, name_at, place_of_item, string_at, variable_at};
use crate::spot::Spot;
use crate::starts::{Starts, starts_in};
use crate::texts::{Text, text_of};
use edd_image::{Counts, VarKind, counts};
use edd_syntax::numbers::{ArrNo, ItemNo, StrNo, VarNo};
use std::alloc::{AllocError, Global};
use std::marker::Model;

/// A valid image in the bytes that it was lent, and where their sections start. Contracts see it as
/// these bytes.
#[derive(Clone, Drop)]
pub struct Image<'b> {
    bytes: &'b [u8],
    starts: Starts,
}

impl<'b> Model for Image<'b> {
    ghost use Rattle.std.specs.Prelude.{◌≡◌, ℕ, List};
    ghost use Rattle.edd_instructions.specs.Validity.{IsValid};
    ghost use Rattle.edd_loader.specs.Starts.{starts_in};

    ghost Value = { List ℕ };

    ghost view = { λ image. image.bytes.now };

    ghost invariant = { λ image. IsValid image.bytes.now
        × (image.starts ≡ starts_in image.bytes.now) };
}

/// The image in these bytes, if they are valid. It takes memory only for marks, while it looks at
/// one unit.
///
/// A fault other than `Memory` stands for the first rule that is broken, in the order of their
/// numbers, over the whole image.
pub fn load<'b>(alloc: Global, bytes: &'b [u8]) -> Result<Image<'b>, LoadFault>
    ensures sound { IfOk result (λ image. image ≡ bytes.now) }
    ensures accepted { OnOk result (IsValid bytes.now) }
    ensures refused { IfErr result (λ fault. IfSome (rule_of fault) (BreaksFirst bytes.now)) }
{
    if let Some((rule, _)) = first_broken(alloc, bytes)? {
        return Err(fault_of(rule));
    }
    Ok(Image {
        bytes,
        starts: starts_in(bytes),
    })
}

/// The fault for which `load` refuses the bytes, if it does, and the first spot where they break its
/// rule. That is never `Memory`.
pub fn fault_in(alloc: Global, bytes: &[u8]) -> Result<Option<(LoadFault, Spot)>, AllocError>
    ensures fault { IfOk result (λ found. MatchOption found (IsValid bytes.now)
        (λ first. IfSome (rule_of first.0) (BreaksFirst bytes.now))) }
    ensures known { IfOk result (λ found. IfSome found
        (λ first. IsTrue (is_some (rule_of first.0)))) }
    ensures spot { IfOk result (λ found. IfSome found (λ first. IsSpotOf bytes.now first.1)) }
{
    match first_broken(alloc, bytes)? {
        Some((rule, spot)) => Ok(Some((fault_of(rule), spot))),
        None => Ok(None),
    }
}

/// The image in bytes that `load` has accepted, and that have not changed since: it reads the header
/// alone, and takes no memory.
pub fn reopen<'b>(bytes: &'b [u8]) -> Image<'b>
    requires { IsValid bytes.now }
    ensures { result ≡ bytes.now }
{
    Image {
        bytes,
        starts: starts_in(bytes),
    }
}

impl<'b> Image<'b> {
    /// The bytes, as they were lent.
    pub fn bytes(&self) -> &'b [u8]
        ensures sound { result.now ≡ self.now }
        ensures valid { IsValid self.now }
    {
        self.bytes
    }

    /// Where the sections start.
    pub fn starts(&self) -> Starts
        ensures { result ≡ starts_in self.now }
    {
        self.starts
    }

    /// The identification and the numbers of variables, commands, menus, collections, methods,
    /// arrays and strings.
    pub fn counts(&self) -> Counts
        ensures { result ≡ counts_in self.now }
    {
        counts(self.bytes)
    }

    /// The type and the size of a variable, if there is such a variable.
    pub fn variable(&self, number: VarNo) -> Option<VarKind>
        ensures exists { is_some result ≡ variable_exists (counts_in self.now) number }
        ensures row { IfSome result (λ kind. slice_get (contents_in self.now).variables number.0
            ≡ Some (fields_of_variable kind)) }
        ensures sound { option_map type_of_kind result
            ≡ slice_get (environment_of (contents_in self.now)).types number.0 }
    {
        variable_at(self.bytes, number)
    }

    /// The variable of the element of this number, if the array has such an element.
    pub fn element(&self, array: ArrNo, number: i64) -> Option<VarNo>
        ensures exists { IfSome result (λ variable. IsTrue
            (variable_exists (counts_in self.now) variable)) }
        ensures sound { result ≡ element_variable (contents_in self.now).elements array number }
    {
        element_at(self.bytes, self.starts, array, number)
    }

    /// The name of an item, if there is such an item.
    pub fn name(&self, item: ItemNo) -> Option<&'b str>
        ensures exists { is_some result ≡ item_exists (counts_in self.now) item }
        ensures sound { option_map (λ name. name.now) result ≡ name_numbered (contents_in self.now)
            item }
    {
        let counts = self.counts();
        if !counts.has_item(item) {
            return None;
        }
        let place = place_of_item(counts, item);
        Some(as_text(name_at(self.bytes, self.starts, place)))
    }

    /// The first item with this name, in the order of kinds and numbers, if there is one.
    pub fn find(&self, name: &str) -> Option<ItemNo>
        ensures exists { IfSome result (λ item. IsTrue (item_exists (counts_in self.now) item)) }
        ensures sound { IfSome result (λ item. name_numbered (contents_in self.now) item
            ≡ Some name.now) }
        ensures first { IfSome result (IsFirstNamed (contents_in self.now) name.now) }
        ensures complete { IfNone result ((item : ItemNo)
            → name_numbered (contents_in self.now) item ≢ Some name.now) }
    {
        find(self.bytes, self.starts, name.as_bytes())
    }

    /// The text of a string for the language `code`, if there is such a string: of its variants the
    /// first of that code, else the first in English, else the first one, and of a key its name.
    pub fn text(&self, string: StrNo, code: &str) -> Option<Text<'b>>
        ensures exists { is_some result ≡ string_exists (counts_in self.now) string }
        ensures sound { option_map seen result ≡ option_map (λ words. given words code.now)
            (string_numbered (contents_in self.now) string) }
    {
        if !self.counts().has_string(string) {
            return None;
        }
        let bytes = string_at(self.bytes, self.starts, string.0 as usize);
        Some(text_of(bytes, code.as_bytes()))
    }
}
