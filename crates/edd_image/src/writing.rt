//! The bytes of an image from its parts.

ghost use Rattle.std.specs.Prelude.{◌≡◌, ◌≤◌, ◌<◌, ◌++◌, ◌↔◌, OnOk, IfOk, IsOk, vec_len};
ghost use Rattle.std.specs.List.{AllByRecursion, flat_map};
ghost use Rattle.edd_image.specs.declared.writing.WriteFault.TheVariants.{Memory};
ghost use Rattle.edd_image.specs.Layout.{sections_of, magic, lengths, layout_length, identification, counts, extension, header, layout, variable_row, name_row, attribute_key, attribute_row, element_row, string_row, u16, u32, CountsFit, AreSections, NameFits, AttributeFits, ElementFits, StringFits};

use crate::numbers::type_code;
use crate::parts::{AttributeRow, Counts, NameRow, Parts, StringRow, VarKind};
use crate::versions::Version;
use edd_syntax::numbers::Element;
use std::alloc::{AllocError, Global};

/// Why an image could not be written.
#[derive(Clone, Copy, Debug, PartialEq, Eq)]
pub enum WriteFault {
    /// 41: more than 16,777,216 bytes of code.
    CodeTooLong,
    /// 50: out of memory.
    Memory,
}

impl From<AllocError> for WriteFault {
    ghost from_gives = { λ _ e. e ≡ Memory };

    fn from(_error: AllocError) -> WriteFault {
        WriteFault::Memory
    }
}

/// The most bytes of code.
pub const CODE_LIMIT: usize = 16_777_216;

fn put_u16(out: &mut Vec<u8>, number: u16) -> Result<(), AllocError>
    ensures { OnOk result (out.new.items ≡ out.old.items ++ u16 number) }
{
    out.extend_from_slice(&number.to_be_bytes())
}

fn put_u32(out: &mut Vec<u8>, number: u32) -> Result<(), AllocError>
    ensures { OnOk result (out.new.items ≡ out.old.items ++ u32 number) }
{
    out.extend_from_slice(&number.to_be_bytes())
}

fn put_variable(out: &mut Vec<u8>, kind: VarKind) -> Result<(), AllocError>
    ensures { OnOk result (out.new.items ≡ out.old.items ++ variable_row kind) }
{
    out.push(type_code(kind.var_type))?;
    out.push(kind.size)?;
    put_u16(out, 0)
}

fn put_name(out: &mut Vec<u8>, row: NameRow) -> Result<(), AllocError>
    ensures bytes { OnOk result (out.new.items ≡ out.old.items ++ name_row row) }
    ensures fits { NameFits row }
{
    put_u32(out, row.start)?;
    put_u16(out, row.length)?;
    put_u16(out, 0)
}

fn put_attribute_key(out: &mut Vec<u8>, row: AttributeRow) -> Result<(), AllocError>
    ensures { OnOk result (out.new.items ≡ out.old.items ++ attribute_key row) }
{
    out.push(row.item.kind().number())?;
    out.push(row.attr.number())?;
    put_u16(out, row.item.index())?;
    put_u16(out, row.sub)?;
    put_u16(out, 0)
}

fn put_attribute(out: &mut Vec<u8>, row: AttributeRow) -> Result<(), AllocError>
    ensures bytes { OnOk result (out.new.items ≡ out.old.items ++ attribute_row row) }
    ensures fits { AttributeFits row }
{
    put_attribute_key(out, row)?;
    put_u32(out, row.start)?;
    put_u32(out, row.length)
}

fn put_element(out: &mut Vec<u8>, row: Element) -> Result<(), AllocError>
    ensures bytes { OnOk result (out.new.items ≡ out.old.items ++ element_row row) }
    ensures fits { ElementFits row }
{
    put_u16(out, row.array.0)?;
    put_u16(out, row.var.0)?;
    put_u32(out, row.number)
}

fn put_string(out: &mut Vec<u8>, row: StringRow) -> Result<(), AllocError>
    ensures bytes { OnOk result (out.new.items ≡ out.old.items ++ string_row row) }
    ensures fits { StringFits row }
{
    put_u32(out, row.start)?;
    put_u32(out, row.length)
}

#[tactic(auto, unfolding(crate::specs::Layout::identification))]
fn put_identification(out: &mut Vec<u8>, numbers: Counts) -> Result<(), AllocError>
    ensures { OnOk result (out.new.items ≡ out.old.items ++ identification numbers) }
{
    put_u32(out, numbers.manufacturer)?;
    put_u32(out, numbers.device_type)?;
    put_u32(out, numbers.device_revision)?;
    put_u32(out, numbers.dd_revision)
}

#[tactic(auto, unfolding(crate::specs::Layout::counts))]
fn put_counts(out: &mut Vec<u8>, numbers: Counts) -> Result<(), AllocError>
    ensures bytes { OnOk result (out.new.items ≡ out.old.items ++ counts numbers) }
    ensures fit { CountsFit numbers }
{
    put_u16(out, numbers.variables)?;
    put_u16(out, numbers.commands)?;
    put_u16(out, numbers.menus)?;
    put_u16(out, numbers.collections)?;
    put_u16(out, numbers.methods)?;
    put_u16(out, numbers.strings)
}

#[tactic(auto, unfolding(crate::specs::Layout::magic))]
fn put_magic(out: &mut Vec<u8>, version: Version) -> Result<(), AllocError>
    ensures { OnOk result (out.new.items ≡ out.old.items ++ magic version) }
{
    out.extend_from_slice(b"EDI1")?;
    put_u16(out, version.number())?;
    put_u16(out, 0)
}

#[tactic(auto, unfolding(crate::specs::Layout::extension))]
fn put_extension(
    out: &mut Vec<u8>,
    version: Version,
    arrays: u16,
    elements: u32,
) -> Result<(), AllocError>
    ensures { OnOk result (out.new.items ≡ out.old.items ++ extension version arrays elements) }
{
    match version {
        Version::One => Ok(()),
        Version::Two => {
            put_u16(out, arrays)?;
            put_u16(out, 0)?;
            put_u32(out, elements)
        }
    }
}

#[tactic(auto, unfolding(crate::specs::Layout::lengths))]
fn put_lengths(out: &mut Vec<u8>, parts: &Parts) -> Result<(), AllocError>
    ensures { OnOk result (out.new.items ≡ out.old.items ++ lengths (sections_of parts.now)) }
{
    put_u32(out, parts.attributes.len() as u32)?;
    put_u32(out, parts.name_bytes.len() as u32)?;
    put_u32(out, parts.code.len() as u32)?;
    put_u32(out, parts.string_bytes.len() as u32)
}

fn layout_length(parts: &Parts) -> u32
    ensures { result ≡ layout_length (sections_of parts.now) }
{
    let rows = 4 * parts.variables.len() + 8 * parts.names.len() + 16 * parts.attributes.len();
    let bytes = parts.name_bytes.len() + parts.string_bytes.len();
    let elements = 8 * parts.elements.len();
    (parts.version.header_size()
        + rows
        + elements
        + parts.code.len()
        + 8 * parts.strings.len()
        + bytes) as u32
}

#[tactic(auto, unfolding(crate::specs::Layout::header))]
fn put_header(out: &mut Vec<u8>, parts: &Parts) -> Result<(), AllocError>
    ensures bytes { OnOk result (out.new.items ≡ out.old.items ++ header (sections_of parts.now)) }
    ensures fit { OnOk result (CountsFit parts.now.counts) }
{
    put_magic(out, parts.version)?;
    put_u32(out, layout_length(parts))?;
    put_identification(out, parts.counts)?;
    put_counts(out, parts.counts)?;
    put_lengths(out, parts)?;
    put_extension(
        out,
        parts.version,
        parts.counts.arrays,
        parts.elements.len() as u32,
    )
}

fn put_variables(out: &mut Vec<u8>, rows: &[VarKind]) -> Result<(), AllocError>
    ensures { OnOk result (out.new.items ≡ out.old.items ++ flat_map variable_row rows.now) }
{
    for row in rows {
        put_variable(out, *row)?;
    }
    Ok(())
}

fn put_names(out: &mut Vec<u8>, rows: &[NameRow]) -> Result<(), AllocError>
    ensures bytes { OnOk result (out.new.items ≡ out.old.items ++ flat_map name_row rows.now) }
    ensures fit { OnOk result (AllByRecursion NameFits rows.now) }
{
    for row in rows {
        put_name(out, *row)?;
    }
    Ok(())
}

fn put_attributes(out: &mut Vec<u8>, rows: &[AttributeRow]) -> Result<(), AllocError>
    ensures bytes { OnOk result (out.new.items ≡ out.old.items ++ flat_map attribute_row rows.now) }
    ensures fit { OnOk result (AllByRecursion AttributeFits rows.now) }
{
    for row in rows {
        put_attribute(out, *row)?;
    }
    Ok(())
}

fn put_elements(out: &mut Vec<u8>, rows: &[Element]) -> Result<(), AllocError>
    ensures bytes { OnOk result (out.new.items ≡ out.old.items ++ flat_map element_row rows.now) }
    ensures fit { OnOk result (AllByRecursion ElementFits rows.now) }
{
    for row in rows {
        put_element(out, *row)?;
    }
    Ok(())
}

fn put_strings(out: &mut Vec<u8>, rows: &[StringRow]) -> Result<(), AllocError>
    ensures bytes { OnOk result (out.new.items ≡ out.old.items ++ flat_map string_row rows.now) }
    ensures fit { OnOk result (AllByRecursion StringFits rows.now) }
{
    for row in rows {
        put_string(out, *row)?;
    }
    Ok(())
}

// The header and the rows before the code.
fn put_front(out: &mut Vec<u8>, parts: &Parts) -> Result<(), AllocError>
    ensures bytes { let s = sections_of parts.now in
        OnOk result (out.new.items ≡ out.old.items ++ (header s
        ++ (flat_map variable_row s.variables ++ (flat_map name_row s.names
        ++ (flat_map attribute_row s.attributes ++ flat_map element_row s.elements))))) }
    ensures counts_fit { OnOk result (CountsFit parts.now.counts) }
    ensures names_fit { OnOk result (AllByRecursion NameFits parts.now.names.items) }
    ensures attributes_fit { OnOk result (AllByRecursion AttributeFits
        parts.now.attributes.items) }
    ensures elements_fit { OnOk result (AllByRecursion ElementFits parts.now.elements.items) }
{
    put_header(out, parts)?;
    put_variables(out, &parts.variables)?;
    put_names(out, &parts.names)?;
    put_attributes(out, &parts.attributes)?;
    put_elements(out, &parts.elements)
}

#[tactic(auto, unfolding(crate::specs::Layout::layout))]
fn put_sections(out: &mut Vec<u8>, parts: &Parts) -> Result<(), AllocError>
    ensures bytes { OnOk result (out.new.items ≡ out.old.items ++ layout (sections_of parts.now)) }
    ensures fit { OnOk result (AreSections (sections_of parts.now)) }
{
    put_front(out, parts)?;
    out.extend_from_slice(&parts.code)?;
    put_strings(out, &parts.strings)?;
    out.extend_from_slice(&parts.name_bytes)?;
    out.extend_from_slice(&parts.string_bytes)
}

/// The bytes of an image.
pub fn write(alloc: Global, parts: &Parts) -> Result<Vec<u8>, WriteFault>
    ensures sound { IfOk result (λ bytes. bytes.items ≡ layout (sections_of parts.now)) }
    ensures accepted { OnOk result (AreSections (sections_of parts.now)) }
    ensures short { IsOk result → vec_len parts.now.code ≤ CODE_LIMIT }
    ensures refused { (result ≡ Err WriteFault.CodeTooLong)
        ↔ (CODE_LIMIT < vec_len parts.now.code) }
{
    if parts.code.len() > CODE_LIMIT {
        return Err(WriteFault::CodeTooLong);
    }
    let mut bytes = Vec::with_capacity(alloc, layout_length(parts) as usize)?;
    put_sections(&mut bytes, parts)?;
    Ok(bytes)
}
