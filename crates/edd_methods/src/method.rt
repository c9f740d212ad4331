//! The code of a method of a checked description.

ghost use Rattle.std.specs.Prelude.{◌≡◌, ◌↔◌, ◌⊎◌, ◌+◌, ◌*◌, ◌<◌, ◌≤◌, ◌++◌, List, IfOk, IsErrOf, IsTrue, OnErr, OnOk, length, map, option_map, slice_get};
ghost use Rattle.std.specs.List.{Contains, list_all};
ghost use Rattle.std.specs.Option.{option_to_list};
ghost use Rattle.edd_syntax.specs.declared.numbers.Kind.TheVariants as kinds;
ghost use Rattle.edd_syntax.specs.Execution as source;
ghost use Rattle.edd_syntax.specs.ItemView.{numbered_attribute};
ghost use Rattle.edd_syntax.specs.Rows.{attributes_of_items};
ghost use Rattle.edd_syntax.specs.Size.{body_nodes};
ghost use Rattle.edd_syntax.specs.Statement.{body_from};
ghost use Rattle.edd_syntax.specs.Strings.{different, strings_of_texts};
ghost use Rattle.edd_syntax.specs.SubsetRules.{bodies_in};
ghost use Rattle.edd_syntax.specs.TreeView.{numbered_part};
ghost use Rattle.edd_syntax.specs.WellFormed.{is_text};
ghost use Rattle.edd_syntax.specs.Words.{Words};
ghost use Rattle.edd_instructions.specs.MethodAgreement.{IsMethodCode};
ghost use Rattle.edd_code.specs.Tables.{Grows, Overflows};
ghost use Rattle.edd_code.specs.Units.{description_of};
ghost use Rattle.edd_methods.specs.LoweredMethods.{LowersBody, found_body, strings_of_method};
ghost use Rattle.edd_methods.specs.Writing.{body_texts};

use crate::slots::slots_in;
use crate::statements::{Leads, write_body};
use edd_code::{LowerFault, attributes_at, put};
use edd_instructions::{Emitter, Instruction};
use edd_strings::Table;
use edd_syntax::checked::Checked;
use edd_syntax::item::Attribute;
use edd_syntax::numbers::{Kind, MethNo};
use edd_syntax::reference::Target;
use edd_syntax::stmt::Part;
use std::alloc::Global;

/// How many bytes most methods take at most.
const USUAL_LENGTH: usize = 256;

/// The unit of a method, and how many slots its locals take.
#[derive(Drop)]
pub struct MethodCode {
    pub code: Vec<u8>,
    pub slots: u16,
}

// The body in an attribute that is a DEFINITION.
fn body_in(attribute: &Attribute<Target>) -> Option<&[Part<Target>]>
    ensures { option_to_list (option_map (λ body. body_from (map numbered_part body.now)) result)
        ≡ bodies_in (numbered_attribute attribute.now) }
{
    match attribute {
        Attribute::Definition(_, body) => Some(body),
        _ => None,
    }
}

// The body of a method with these attributes.
fn body_among(attributes: &[Attribute<Target>]) -> &[Part<Target>]
    ensures { body_from (map numbered_part result.now)
        ≡ source.body_in (map numbered_attribute attributes.now) }
{
    for attribute in attributes {
        if let Some(body) = body_in(attribute) {
            return body;
        }
    }
    &[]
}

// The unit of a body.
fn lower_body(
    alloc: Global,
    table: &mut Table,
    body: &[Part<Target>],
) -> Result<Vec<u8>, LowerFault>
    requires texts { IsTrue (list_all is_text
        (body_texts (body_from (map numbered_part body.now)))) }
    ensures sound { IfOk result
        (λ code. LowersBody table.old (body_from (map numbered_part body.now)) table.new
        code.items) }
    ensures grows { Grows table.old table.new }
    ensures refused { IsErrOf result LowerFault.TooMany
        → Overflows table.old (strings_of_texts
        (body_texts (body_from (map numbered_part body.now)))) }
{
    let mut code = Emitter::with_capacity(alloc, USUAL_LENGTH)?;
    // No `break` of a checked description leads outside its loop, so these places are met nowhere.
    write_body(alloc, &mut code, table, Leads { out: 0, back: 0 }, body)?;
    put(&mut code, Instruction::End)?;
    Ok(code.finish())
}

// The body of the method that was found, if it is there.
fn body_found(attributes: Option<&[Attribute<Target>]>) -> &[Part<Target>]
    ensures { body_from (map numbered_part result.now)
        ≡ found_body (option_map (λ a. map numbered_attribute a.now) attributes.entry) }
{
    match attributes {
        Some(attributes) => body_among(attributes),
        None => &[],
    }
}

/// The code of a method, with its strings by their numbers in the table, which gets those that it
/// doesn't hold yet. After a refusal the table is as before.
pub fn lower_method(
    alloc: Global,
    checked: &Checked,
    method: MethNo,
    table: &mut Table,
) -> Result<MethodCode, LowerFault>
    ensures sound { IfOk result (λ made. (more : List Words) → length (table.new ++ more) ≤ 65535
        → IsMethodCode (description_of checked.now) (table.new ++ more) method made.slots
        made.code.items) }
    ensures begins { OnOk result (Grows table.old table.new) }
    ensures strings { OnOk result
        ((w : Words) → Contains table.new w
        ↔ (Contains table.old w ⊎ Contains (strings_of_method (description_of checked.now) method)
        w)) }
    ensures refused { IsErrOf result LowerFault.TooMany
        → 65535 < length (different (table.old ++ strings_of_method (description_of checked.now)
        method)) }
    ensures kept { OnErr result (table.new ≡ table.old) }
    ensures size { IfOk result (λ made. length made.code.items
        ≤ 32 * (1 + body_nodes (source.body_of (description_of checked.now) method))) }
{
    let attributes = attributes_at(&checked.items, Kind::Method, method.0);
    lower_found(alloc, checked, method, attributes, table)
}

/// The same where the method's attributes are at hand.
pub fn lower_found(
    alloc: Global,
    checked: &Checked,
    method: MethNo,
    attributes: Option<&[Attribute<Target>]>,
    table: &mut Table,
) -> Result<MethodCode, LowerFault>
    requires { option_map (λ a. map numbered_attribute a.now) attributes
        ≡ slice_get (attributes_of_items kinds.Method (description_of checked.now).items) method.0 }
    ensures sound { IfOk result (λ made. (more : List Words) → length (table.new ++ more) ≤ 65535
        → IsMethodCode (description_of checked.now) (table.new ++ more) method made.slots
        made.code.items) }
    ensures begins { OnOk result (Grows table.old table.new) }
    ensures strings { OnOk result
        ((w : Words) → Contains table.new w
        ↔ (Contains table.old w ⊎ Contains (strings_of_method (description_of checked.now) method)
        w)) }
    ensures refused { IsErrOf result LowerFault.TooMany
        → 65535 < length (different (table.old ++ strings_of_method (description_of checked.now)
        method)) }
    ensures kept { OnErr result (table.new ≡ table.old) }
    ensures size { IfOk result (λ made. length made.code.items
        ≤ 32 * (1 + body_nodes (source.body_of (description_of checked.now) method))) }
{
    let body = body_found(attributes);
    let held = table.words().len() as u16;
    let slots = slots_in(body);
    match lower_body(alloc, table, body) {
        Ok(code) => Ok(MethodCode { code, slots }),
        Err(fault) => {
            table.cut(held);
            Err(fault)
        }
    }
}
