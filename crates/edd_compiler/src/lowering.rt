//! The code of the attributes and methods of a description, and the table of their strings.

ghost use Rattle.std.specs.Prelude.{◌≡◌, ◌↔◌, ◌⊎◌, ◌<◌, ◌++◌, IfErr, IfOk, OnOk, [], false, length, map, slice_get, Some};
ghost use Rattle.std.specs.List.{All, Contains};
ghost use Rattle.edd_syntax.specs.declared.numbers.Attr.TheVariants as attr;
ghost use Rattle.edd_syntax.specs.declared.numbers.ItemNo.TheVariants as items;
ghost use Rattle.edd_syntax.specs.declared.numbers.Kind.TheVariants as kind;
ghost use Rattle.edd_syntax.specs.ItemView.{numbered_attribute};
ghost use Rattle.edd_syntax.specs.Numbers.{same_attr};
ghost use Rattle.edd_syntax.specs.Rows.{HasItsAttributes, attributes_of_items};
ghost use Rattle.edd_syntax.specs.Strings.{different};
ghost use Rattle.edd_syntax.specs.Words.{Words};
ghost use Rattle.edd_assembly.specs.LoweredUnits.{plain_row};
ghost use Rattle.edd_assembly.specs.Views.{lowered_of};
ghost use Rattle.edd_assembly.specs.RowContents.{strings_of_row};
ghost use Rattle.edd_code.specs.Tables.{Grows};
ghost use Rattle.edd_code.specs.Units.{description_of};
ghost use Rattle.edd_compiler.specs.Faults.{IsOfLowering};
ghost use Rattle.edd_compiler.specs.Lowering.{AddsRow, HasLowered, HasTooMany, IsCodeOf, IsPlain};

use crate::fault::Fault;
use edd_assembly::Lowered;
use edd_strings::Table;
use edd_syntax::checked::Checked;
use edd_syntax::item::Attribute;
use edd_syntax::numbers::{Attr, AttrRef, ItemNo, MethNo};
use edd_syntax::reference::Target;
use edd_syntax::rows::Listed;
use std::alloc::Global;

/// The code of rows, in their order, and the strings that it names.
#[derive(Drop)]
pub struct Lowering {
    pub units: Vec<Lowered>,
    pub table: Table,
}

// Whether the unit of a row is that of a method's body.
fn is_body(row: AttrRef) -> bool
    ensures { result ≡ same_attr row.attr attr.Definition }
{
    row.attr == Attr::Definition
}

// The unit of an attribute.
fn lower_attribute(
    alloc: Global,
    checked: &Checked,
    listed: &Listed,
    table: &mut Table,
) -> Result<Lowered, Fault>
    requires no_body { same_attr listed.now.row.attr attr.Definition ≡ false }
    requires attributes { HasItsAttributes (description_of checked.now).items listed.now }
    ensures row { IfOk result (λ l. plain_row (lowered_of l) ≡ listed.now.row) }
    ensures code { IfOk result (λ l. IsCodeOf (description_of checked.now) table.new
        (lowered_of l)) }
    ensures grows { OnOk result (Grows table.old table.new) }
    ensures strings { OnOk result
        ((w : Words) → Contains table.new w
        ↔ (Contains table.old w ⊎ Contains
        (strings_of_row (description_of checked.now) listed.now.row) w)) }
    ensures refused { IfErr result
        (IsOfLowering (65535 < length
        (different (table.old ++ strings_of_row (description_of checked.now) listed.now.row)))) }
{
    let row = listed.row;
    let code = edd_attrs::lower_found(alloc, checked, row, Some(listed.attributes), table)?;
    Ok(Lowered { row, code })
}

// The unit of a method.
fn lower_method(
    alloc: Global,
    checked: &Checked,
    method: MethNo,
    attributes: &[Attribute<Target>],
    table: &mut Table,
) -> Result<Lowered, Fault>
    requires attributes { slice_get
        (attributes_of_items kind.Method (description_of checked.now).items) method.0
        ≡ Some (map numbered_attribute attributes.now) }
    ensures row { IfOk result (λ l. plain_row (lowered_of l)
        ≡ record { item = items.Method method; attr = attr.Definition; sub = 0 }) }
    ensures code { IfOk result (λ l. IsCodeOf (description_of checked.now) table.new
        (lowered_of l)) }
    ensures grows { OnOk result (Grows table.old table.new) }
    ensures strings { OnOk result ((w : Words) → Contains table.new w
        ↔ (Contains table.old w ⊎ Contains
        (strings_of_row (description_of checked.now)
        (record { item = items.Method method; attr = attr.Definition; sub = 0 })) w)) }
    ensures refused { IfErr result (IsOfLowering (65535 < length (different
        (table.old ++ strings_of_row (description_of checked.now)
        (record { item = items.Method method; attr = attr.Definition; sub = 0 }))))) }
{
    let made = edd_methods::lower_found(alloc, checked, method, Some(attributes), table)?;
    let row = AttrRef {
        item: ItemNo::Method(method),
        attr: Attr::Definition,
        sub: made.slots,
    };
    Ok(Lowered {
        row,
        code: made.code,
    })
}

// The unit of a row.
fn lower_row(
    alloc: Global,
    checked: &Checked,
    listed: &Listed,
    table: &mut Table,
) -> Result<Lowered, Fault>
    requires plain { IsPlain listed.now.row }
    requires attributes { HasItsAttributes (description_of checked.now).items listed.now }
    ensures row { IfOk result (λ l. plain_row (lowered_of l) ≡ listed.now.row) }
    ensures code { IfOk result (λ l. IsCodeOf (description_of checked.now) table.new
        (lowered_of l)) }
    ensures grows { OnOk result (Grows table.old table.new) }
    ensures strings { OnOk result
        ((w : Words) → Contains table.new w
        ↔ (Contains table.old w ⊎ Contains
        (strings_of_row (description_of checked.now) listed.now.row) w)) }
    ensures refused { IfErr result
        (IsOfLowering (65535 < length
        (different (table.old ++ strings_of_row (description_of checked.now) listed.now.row)))) }
{
    if !is_body(listed.row) {
        return lower_attribute(alloc, checked, listed, table);
    }
    let ItemNo::Method(method) = listed.row.item else {
        unreachable!()
    };
    lower_method(alloc, checked, method, listed.attributes, table)
}

impl Lowering {
    fn new(alloc: Global) -> Lowering
        ensures units { result.units.items ≡ [] }
        ensures table { result.table ≡ [] }
    {
        Lowering {
            units: Vec::new(alloc),
            table: Table::new(alloc),
        }
    }

    fn add(&mut self, alloc: Global, checked: &Checked, listed: &Listed) -> Result<(), Fault>
        requires plain { IsPlain listed.now.row }
        requires attributes { HasItsAttributes (description_of checked.now).items listed.now }
        ensures adds { OnOk result
            (AddsRow (description_of checked.now) listed.now.row self.old.table
            (map lowered_of self.old.units.items)
            self.new.table (map lowered_of self.new.units.items)) }
        ensures refused { IfErr result
            (IsOfLowering (65535 < length
            (different (self.old.table ++ strings_of_row (description_of checked.now)
            listed.now.row)))) }
    {
        let unit = lower_row(alloc, checked, listed, &mut self.table)?;
        self.units.push(unit)?;
        Ok(())
    }
}

/// The code of these rows of a description.
pub fn lower_rows(alloc: Global, checked: &Checked, rows: &[Listed]) -> Result<Lowering, Fault>
    requires plain { All IsPlain (map (λ r. r.row) rows.now) }
    requires attributes { All (HasItsAttributes (description_of checked.now).items) rows.now }
    ensures sound { IfOk result (λ l. HasLowered (description_of checked.now)
        (map (λ r. r.row) rows.now) l.table (map lowered_of l.units.items)) }
    ensures refused { IfErr result (IsOfLowering (HasTooMany (description_of checked.now))) }
{
    let mut lowering = Lowering::new(alloc);
    for row in rows {
        lowering.add(alloc, checked, row)?;
    }
    Ok(lowering)
}
