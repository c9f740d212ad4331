//! The names of an image and their rows.

ghost use Rattle.std.specs.Prelude.{◌≡◌, ◌++◌, ◌∷◌, [], map, OnOk, IfOk, length};
ghost use Rattle.std.specs.List.{flat_map};
ghost use Rattle.edd_syntax.specs.ItemView.{numbered_item};
ghost use Rattle.edd_assembly.specs.Assembly.{name_row_at, name_rows, names_of_kind, names_of_kinds, names_of};

use crate::lengths::narrow_length;
use edd_image::NameRow;
use edd_syntax::item::Item;
use edd_syntax::numbers::{KINDS, Kind};
use edd_syntax::reference::Target;
use std::alloc::{AllocError, Global};

/// The rows and the bytes of names.
#[derive(Drop)]
pub struct NameSection {
    pub rows: Vec<NameRow>,
    pub bytes: Vec<u8>,
}

impl NameSection {
    fn new(alloc: Global) -> NameSection
        ensures rows { result.rows.items ≡ [] }
        ensures bytes { result.bytes.items ≡ [] }
    {
        NameSection {
            rows: Vec::new(alloc),
            bytes: Vec::new(alloc),
        }
    }

    fn push(&mut self, name: &str) -> Result<(), AllocError>
        ensures rows { OnOk result (self.new.rows.items ≡ self.old.rows.items
            ++ name_row_at (length self.old.bytes.items) name.now ∷ []) }
        ensures bytes { OnOk result (self.new.bytes.items ≡ self.old.bytes.items ++ name.now) }
    {
        let start = narrow_length(self.bytes.len())?;
        let Ok(length) = u16::try_from(name.len()) else {
            return Err(AllocError);
        };
        self.bytes.extend_from_slice(name.as_bytes())?;
        self.rows.push(NameRow { start, length })?;
        Ok(())
    }

    fn push_if(&mut self, item: &Item<Target>, kind: Kind) -> Result<(), AllocError>
        ensures rows { OnOk result (self.new.rows.items
            ≡ self.old.rows.items ++ name_rows (length self.old.bytes.items)
            (names_of_kind kind (numbered_item item.now ∷ []))) }
        ensures bytes { OnOk result (self.new.bytes.items
            ≡ self.old.bytes.items ++ flat_map (λ n. n)
            (names_of_kind kind (numbered_item item.now ∷ []))) }
    {
        if item.kind() == kind {
            self.push(item.name())?;
        }
        Ok(())
    }

    fn push_kind(&mut self, items: &[Item<Target>], kind: Kind) -> Result<(), AllocError>
        ensures rows { OnOk result (self.new.rows.items
            ≡ self.old.rows.items ++ name_rows (length self.old.bytes.items)
            (names_of_kind kind (map numbered_item items.now))) }
        ensures bytes { OnOk result (self.new.bytes.items
            ≡ self.old.bytes.items ++ flat_map (λ n. n)
            (names_of_kind kind (map numbered_item items.now))) }
    {
        for item in items {
            self.push_if(item, kind)?;
        }
        Ok(())
    }
}

fn push_kinds(
    section: &mut NameSection,
    items: &[Item<Target>],
    kinds: &[Kind],
) -> Result<(), AllocError>
    ensures rows { OnOk result (section.new.rows.items
        ≡ section.old.rows.items ++ name_rows (length section.old.bytes.items)
        (names_of_kinds (map numbered_item items.now) kinds.now)) }
    ensures bytes { OnOk result (section.new.bytes.items
        ≡ section.old.bytes.items
        ++ flat_map (λ n. n) (names_of_kinds (map numbered_item items.now) kinds.now)) }
{
    for kind in kinds {
        section.push_kind(items, *kind)?;
    }
    Ok(())
}

/// The names of items, by kind and number.
pub fn name_section(alloc: Global, items: &[Item<Target>]) -> Result<NameSection, AllocError>
    ensures rows { IfOk result
        (λ s. s.rows.items ≡ name_rows 0 (names_of (map numbered_item items.now))) }
    ensures bytes { IfOk result
        (λ s. s.bytes.items ≡ flat_map (λ n. n) (names_of (map numbered_item items.now))) }
{
    let mut section = NameSection::new(alloc);
    push_kinds(&mut section, items, &KINDS)?;
    Ok(section)
}
