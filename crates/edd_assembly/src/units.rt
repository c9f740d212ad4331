//! The code of an image and the rows of its attributes.

ghost use Rattle.std.specs.Prelude.{◌≡◌, ◌++◌, ◌∷◌, [], map, OnOk, IfOk, length};
ghost use Rattle.std.specs.List.{flat_map};
ghost use Rattle.edd_assembly.specs.Assembly.{attribute_row_at, attribute_rows};
ghost use Rattle.edd_assembly.specs.Views.{lowered_of};

use crate::lengths::narrow_length;
use edd_image::AttributeRow;
use edd_syntax::numbers::AttrRef;
use std::alloc::{AllocError, Global};

/// An attribute and its code. For the body of a method `sub` is its number of slots.
#[derive(Drop)]
pub struct Lowered {
    pub row: AttrRef,
    pub code: Vec<u8>,
}

/// The rows and the code of attributes.
#[derive(Drop)]
pub struct CodeSection {
    pub rows: Vec<AttributeRow>,
    pub bytes: Vec<u8>,
}

impl CodeSection {
    fn new(alloc: Global) -> CodeSection
        ensures rows { result.rows.items ≡ [] }
        ensures bytes { result.bytes.items ≡ [] }
    {
        CodeSection {
            rows: Vec::new(alloc),
            bytes: Vec::new(alloc),
        }
    }

    fn push(&mut self, unit: &Lowered) -> Result<(), AllocError>
        ensures rows { OnOk result (self.new.rows.items
            ≡ self.old.rows.items ++ attribute_row_at (length self.old.bytes.items)
            (lowered_of unit.now) ∷ []) }
        ensures bytes { OnOk result (self.new.bytes.items ≡ self.old.bytes.items
            ++ (lowered_of unit.now).code) }
    {
        let start = narrow_length(self.bytes.len())?;
        let length = narrow_length(unit.code.len())?;
        self.bytes.extend_from_slice(&unit.code)?;
        self.rows.push(AttributeRow {
            item: unit.row.item,
            attr: unit.row.attr,
            sub: unit.row.sub,
            start,
            length,
        })?;
        Ok(())
    }
}

/// The code of attributes, one after the other.
pub fn code_section(alloc: Global, units: &[Lowered]) -> Result<CodeSection, AllocError>
    ensures rows { IfOk result (λ s. s.rows.items ≡ attribute_rows 0 (map lowered_of units.now)) }
    ensures bytes { IfOk result
        (λ s. s.bytes.items ≡ flat_map (λ l. l.code) (map lowered_of units.now)) }
{
    let mut section = CodeSection::new(alloc);
    for unit in units {
        section.push(unit)?;
    }
    Ok(section)
}
