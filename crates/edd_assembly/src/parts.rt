//! The parts of an image.

ghost use Rattle.std.specs.Prelude.{◌≡◌, [], ◌≤◌, ◌+◌, ◌*◌, ◌<◌, ◌^◌, map, length, IsTrue, IfOk, OnOk};
ghost use Rattle.std.specs.List.{list_all};
ghost use Rattle.edd_syntax.specs.declared.numbers.Kind.{Kind};
ghost use Rattle.edd_syntax.specs.Device.{environment};
ghost use Rattle.edd_syntax.specs.ItemView.{identification_of, numbered_items, numbered_item};
ghost use Rattle.edd_syntax.specs.Resolution.{count_of};
ghost use Rattle.edd_syntax.specs.Resolved.{description};
ghost use Rattle.edd_syntax.specs.WordsView.{string_of};
ghost use Rattle.edd_image.specs.declared.versions.Version.TheVariants.{One};
ghost use Rattle.edd_instructions.specs.Agreement as agreement;
ghost use Rattle.edd_instructions.specs.Agreement.{version_for};
ghost use Rattle.edd_image.specs.Layout.{sections_of};
ghost use Rattle.edd_image.specs.Versions.{header_size};
ghost use Rattle.edd_assembly.specs.Assembly as assembly;
ghost use Rattle.edd_assembly.specs.Assembly.{assembled};
ghost use Rattle.edd_assembly.specs.Views.{lowered_of};

use crate::counts::{count, variable_kinds};
use crate::lengths::narrow_length;
use crate::names::{NameSection, name_section};
use crate::strings::{StringSection, string_section};
use crate::units::{CodeSection, Lowered, code_section};
use edd_image::{Counts, Parts, VarKind, Version};
use edd_syntax::checked::Checked;
use edd_syntax::item::{Identification, Item};
use edd_syntax::numbers::{Element, Kind};
use edd_syntax::reference::Target;
use edd_syntax::words::Words;
use std::alloc::{AllocError, Global};

fn counts_of(identification: Identification, items: &[Item<Target>], strings: &[Words]) -> Counts
    requires few { (k : Kind) → count_of k (map numbered_item items.now) ≤ 4096 }
    requires few_strings { length strings.now ≤ 65535 }
    ensures { result ≡ agreement.counts_of (identification_of identification)
        (map numbered_item items.now) (length strings.now) }
{
    Counts {
        variables: count(items, Kind::Variable),
        commands: count(items, Kind::Command),
        menus: count(items, Kind::Menu),
        collections: count(items, Kind::Collection),
        methods: count(items, Kind::Method),
        arrays: count(items, Kind::Array),
        strings: strings.len() as u16,
        manufacturer: identification.manufacturer,
        device_type: identification.device_type,
        device_revision: identification.device_revision,
        dd_revision: identification.dd_revision,
    }
}

// The numbers of rows and of bytes fit an image, whose length four bytes say. More is refused as a
// growth that is too large.
fn check_length(
    version: Version,
    variables: usize,
    names: usize,
    attributes: usize,
    elements: usize,
    code: usize,
    strings: usize,
    bytes: usize,
) -> Result<(), AllocError>
    ensures { OnOk result (header_size version + 4 * variables + 8 * names + 16 * attributes
        + 8 * elements + code + 8 * strings + bytes < 2 ^ 32) }
{
    let variables = u64::from(narrow_length(variables)?);
    let names = u64::from(narrow_length(names)?);
    let attributes = u64::from(narrow_length(attributes)?);
    let elements = u64::from(narrow_length(elements)?);
    let code = u64::from(narrow_length(code)?);
    let strings = u64::from(narrow_length(strings)?);
    let bytes = u64::from(narrow_length(bytes)?);
    let total = version.header_size() as u64
        + 4 * variables
        + 8 * names
        + 16 * attributes
        + 8 * elements
        + code
        + 8 * strings
        + bytes;
    if total > u64::from(u32::MAX) {
        return Err(AllocError);
    }
    Ok(())
}

// The version of the layout that an image of the description needs.
fn version_of(checked: &Checked) -> Version
    ensures { result ≡ version_for (description (identification_of checked.now.identification)
        (numbered_items checked.now.items.value.items)) }
{
    if checked.version() == 2 {
        Version::Two
    } else {
        Version::One
    }
}

// The parts of these sections.
fn parts_of(
    version: Version,
    counts: Counts,
    variables: Vec<VarKind>,
    names: NameSection,
    elements: Vec<Element>,
    code: CodeSection,
    strings: StringSection,
) -> Result<Parts, AllocError>
    requires variables_counted { counts.variables ≡ length variables.items }
    requires names_counted { counts.variables + counts.commands + counts.menus + counts.collections
        + counts.methods + counts.arrays ≡ length names.rows.items }
    requires no_arrays { version ≡ One → counts.arrays ≡ 0 }
    requires no_elements { version ≡ One → elements.items ≡ [] }
    requires strings_counted { counts.strings ≡ length strings.rows.items }
    ensures { IfOk result (λ parts. sections_of parts
        ≡ assembly.sections version counts variables.items names.rows.items code.rows.items
        elements.items code.bytes.items strings.rows.items names.bytes.items strings.bytes.items) }
{
    let name_bytes = narrow_length(names.bytes.len())?;
    let string_bytes = narrow_length(strings.bytes.len())?;
    check_length(
        version,
        variables.len(),
        names.rows.len(),
        code.rows.len(),
        elements.len(),
        code.bytes.len(),
        strings.rows.len(),
        name_bytes as usize + string_bytes as usize,
    )?;
    Ok(Parts {
        version,
        counts,
        variables,
        names: names.rows,
        attributes: code.rows,
        elements,
        code: code.bytes,
        strings: strings.rows,
        name_bytes: names.bytes,
        string_bytes: strings.bytes,
    })
}

#[tactic(auto, using(crate::proofs::RowCounts::row_counts), unfolding(crate::specs::Assembly::assembled))]
fn assemble_items(
    alloc: Global,
    version: Version,
    identification: Identification,
    items: &[Item<Target>],
    elements: Vec<Element>,
    units: &[Lowered],
    strings: &[Words],
) -> Result<Parts, AllocError>
    requires version { version ≡ version_for (description (identification_of identification)
        (map numbered_item items.now)) }
    requires elements { elements.items ≡ (environment
        (description (identification_of identification) (map numbered_item items.now))).elements }
    requires few { (k : Kind) → count_of k (map numbered_item items.now) ≤ 4096 }
    requires small { IsTrue (list_all assembly.is_small_variable (map numbered_item items.now)) }
    requires few_strings { length strings.now ≤ 65535 }
    ensures { IfOk result (λ parts. sections_of parts
        ≡ assembled (description (identification_of identification) (map numbered_item items.now))
        (map lowered_of units.now) (map string_of strings.now)) }
{
    let counts = counts_of(identification, items, strings);
    let variables = variable_kinds(alloc, items)?;
    let names = name_section(alloc, items)?;
    let code = code_section(alloc, units)?;
    let strings = string_section(alloc, strings)?;
    parts_of(version, counts, variables, names, elements, code, strings)
}

/// The parts of an image: the description's counts, types, names and elements, the code of its
/// attributes in this order, and its strings by number.
pub fn assemble(
    alloc: Global,
    checked: &Checked,
    units: &[Lowered],
    strings: &[Words],
) -> Result<Parts, AllocError>
    requires { length strings.now ≤ 65535 }
    ensures { IfOk result (λ parts. sections_of parts
        ≡ assembled (description (identification_of checked.now.identification)
        (numbered_items checked.now.items.value.items))
        (map lowered_of units.now) (map string_of strings.now)) }
{
    let elements = checked.elements(alloc)?;
    assemble_items(
        alloc,
        version_of(checked),
        checked.identification,
        &checked.items,
        elements,
        units,
        strings,
    )
}
