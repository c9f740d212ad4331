//! The code of an attribute of a checked description.

ghost use Rattle.std.specs.Prelude.{◌≡◌, ◌↔◌, ◌⊎◌, ◌≤◌, ◌<◌, ◌++◌, List, IfOk, IsErrOf, OnErr, OnOk, length, map, option_map};
ghost use Rattle.std.specs.List.{Contains};
ghost use Rattle.edd_syntax.specs.ItemView.{numbered_attribute};
ghost use Rattle.edd_syntax.specs.Rows.{attributes_of_row};
ghost use Rattle.edd_syntax.specs.Strings.{different};
ghost use Rattle.edd_syntax.specs.Words.{Words};
ghost use Rattle.edd_instructions.specs.Agreement.{IsAttributeCode};
ghost use Rattle.edd_code.specs.Tables.{Grows};
ghost use Rattle.edd_attrs.specs.Sizes.{strings_at, length_limit};
ghost use Rattle.edd_attrs.specs.Trees as trees;
ghost use Rattle.edd_code.specs.Units.{description_of};

use crate::items::tree_found;
use crate::lowering::lower_tree;
use edd_code::{LowerFault, attributes_at};
use edd_strings::Table;
use edd_syntax::checked::Checked;
use edd_syntax::item::Attribute;
use edd_syntax::numbers::AttrRef;
use edd_syntax::reference::Target;
use std::alloc::Global;

/// The code of an attribute, with its strings by their numbers in the table, which gets those that
/// it doesn't hold yet. After a refusal the table is as before. A row that isn't written gives
/// nothing; so does a DEFINITION, whose code is a method's.
pub fn lower_attribute(
    alloc: Global,
    checked: &Checked,
    row: AttrRef,
    table: &mut Table,
) -> Result<Vec<u8>, LowerFault>
    ensures sound { IfOk result (λ code. (more : List Words)
        → IsAttributeCode (description_of checked.now) (table.new ++ more) row code.items) }
    ensures begins { OnOk result (Grows table.old table.new) }
    ensures strings { OnOk result
        ((w : Words) → Contains table.new w
        ↔ (Contains table.old w ⊎ Contains (strings_at (description_of checked.now) row) w)) }
    ensures refused { IsErrOf result LowerFault.TooMany
        → 65535 < length (different (table.old ++ strings_at (description_of checked.now) row)) }
    ensures kept { OnErr result (table.new ≡ table.old) }
    ensures size { IfOk result (λ code. length code.items
        ≤ length_limit (trees.tree_at (description_of checked.now) row)) }
{
    let attributes = attributes_at(&checked.items, row.item.kind(), row.item.index());
    lower_found(alloc, checked, row, attributes, table)
}

/// The same where the attributes of its item are at hand.
pub fn lower_found(
    alloc: Global,
    checked: &Checked,
    row: AttrRef,
    attributes: Option<&[Attribute<Target>]>,
    table: &mut Table,
) -> Result<Vec<u8>, LowerFault>
    requires { option_map (λ a. map numbered_attribute a.now) attributes
        ≡ attributes_of_row (description_of checked.now).items row }
    ensures sound { IfOk result (λ code. (more : List Words)
        → IsAttributeCode (description_of checked.now) (table.new ++ more) row code.items) }
    ensures begins { OnOk result (Grows table.old table.new) }
    ensures strings { OnOk result
        ((w : Words) → Contains table.new w
        ↔ (Contains table.old w ⊎ Contains (strings_at (description_of checked.now) row) w)) }
    ensures refused { IsErrOf result LowerFault.TooMany
        → 65535 < length (different (table.old ++ strings_at (description_of checked.now) row)) }
    ensures kept { OnErr result (table.new ≡ table.old) }
    ensures size { IfOk result (λ code. length code.items
        ≤ length_limit (trees.tree_at (description_of checked.now) row)) }
{
    let tree = tree_found(attributes, row);
    let held = table.words().len() as u16;
    let result = lower_tree(alloc, table, tree);
    if result.is_err() {
        table.cut(held);
    }
    result
}
