//! The elements of attributes, each of which gives one record.

ghost use Rattle.std.specs.Prelude.{◌≡◌, ◌<◌, [], Bool, IsErrOf, IsTrue, List, OnOk, Option, pos, true};
ghost use Rattle.edd_syntax.specs.declared.numbers.StrNo.{StrNo};
ghost use Rattle.edd_syntax.specs.declared.reference.Target.{Target};
ghost use Rattle.edd_syntax.specs.declared.types.Handling.{Handling};
ghost use Rattle.edd_syntax.specs.Attributes as source;
ghost use Rattle.edd_syntax.specs.Expression as expression;
ghost use Rattle.edd_syntax.specs.Item as item;
ghost use Rattle.edd_syntax.specs.ItemView.{enumerator_of, response_code_of, numbered_array_element, numbered_data_item, numbered_entry, numbered_member};
ghost use Rattle.edd_syntax.specs.Targets as targets;
ghost use Rattle.edd_syntax.specs.Text as texts;
ghost use Rattle.edd_syntax.specs.TreeView.{numbered_expr};
ghost use Rattle.edd_syntax.specs.WellFormed.{is_text};
ghost use Rattle.edd_syntax.specs.Words.{Words};
ghost use Rattle.edd_syntax.specs.WordsView.{text_bytes, text_of};
ghost use Rattle.edd_instructions.specs.Agreement as agreement;
ghost use Rattle.edd_code.specs.Blocks.{Block};
ghost use Rattle.edd_code.specs.Tables.{Grows, Overflows};
ghost use Rattle.edd_code.specs.Written.{WritesBlock};
ghost use Rattle.edd_attrs.specs.Records.{class_record, handling_record, kept_array_element, kept_data, kept_entry, kept_enumerator, kept_member, kept_response, strings_of_record, text_record, validity_record};
ghost use Rattle.edd_attrs.specs.TreeBlocks.{Giving, IsValueBlock};
ghost use Rattle.edd_attrs.specs.Writing.{WritesRecord};

use edd_code::{LowerFault, add_name, add_optional, add_text, put, write_expression};
use edd_instructions::{Emitter, Instruction};
use edd_strings::Table;
use edd_syntax::expr::Expr;
use edd_syntax::item::{
    ArrayElement, DataItem, DataQualifiers, Enumerator, Member, MenuEntry, MenuQualifiers,
    ResponseCode,
};
use edd_syntax::numbers::{ItemNo, StrNo, VarNo};
use edd_syntax::reference::Target;
use edd_syntax::text::{CompactString, Text};
use edd_syntax::types::{Handling, ResponseClass};
use std::alloc::{AllocError, Global};

/// What gives one record.
pub trait Element {
    /// What the element stands for.
    ghost Meant: { Type 0 };

    ghost view: { Self → Meant };

    ghost strings: { Meant → List Words };

    /// The blocks that give its record, with strings by number.
    ghost is_block: { (StrNo → Option Words) → Meant → Block → Type 0 };

    ghost is_kept: { Meant → Bool };

    /// Writes the code that gives its record.
    fn write(&self, alloc: Global, code: &mut Emitter, table: &mut Table) -> Result<(), LowerFault>
        requires { IsTrue (is_kept (view self.now)) }
        ensures sound { OnOk result (WritesBlock table.old code.old (strings (view self.now))
            (λ numbered b. is_block numbered (view self.now) b)
            table.new code.new) }
        ensures grows { Grows table.old table.new }
        ensures refused { IsErrOf result LowerFault.TooMany
            → Overflows table.old (strings (view self.now)) };
}

// ---- numbers

/// Writes the code that gives a number.
#[tactic(auto, using(crate::proofs::Written::number_written))]
pub fn write_number(code: &mut Emitter, number: u32) -> Result<(), AllocError>
    ensures { OnOk result
        ((table : List Words) → WritesRecord table code.old (source.Number (pos number)) table
        code.new) }
{
    put(code, Instruction::Push(number))?;
    put(code, Instruction::Number)
}

fn handling_number(handling: Handling) -> u32
    ensures { result ≡ source.handling_number handling }
{
    match handling {
        Handling::Read => 1,
        Handling::Write => 2,
        Handling::ReadWrite => 3,
    }
}

impl Element for Handling {
    ghost Meant = { Handling };

    ghost view = { λ h. h };

    ghost strings = { λ v. strings_of_record (handling_record v) };

    ghost is_block = { λ numbered. Giving numbered handling_record };

    ghost is_kept = { λ h. true };

    #[tactic(auto, using(edd_code::proofs::Growing::no_growth))]
    fn write(
        &self,
        _alloc: Global,
        code: &mut Emitter,
        _table: &mut Table,
    ) -> Result<(), LowerFault> {
        write_number(code, handling_number(*self))?;
        Ok(())
    }
}

impl Element for bool {
    ghost Meant = { Bool };

    ghost view = { λ b. b };

    ghost strings = { λ v. strings_of_record (validity_record v) };

    ghost is_block = { λ numbered. Giving numbered validity_record };

    ghost is_kept = { λ b. true };

    #[tactic(auto, using(edd_code::proofs::Growing::no_growth))]
    fn write(
        &self,
        _alloc: Global,
        code: &mut Emitter,
        _table: &mut Table,
    ) -> Result<(), LowerFault> {
        write_number(code, u32::from(*self))?;
        Ok(())
    }
}

// ---- expressions

impl Element for Expr<Target> {
    ghost Meant = { expression.Expr Target };

    ghost view = { numbered_expr };

    ghost strings = { λ e. [] };

    ghost is_block = { λ numbered. IsValueBlock };

    ghost is_kept = { λ e. true };

    #[tactic(auto, using(crate::proofs::Written::value_steps))]
    fn write(
        &self,
        _alloc: Global,
        code: &mut Emitter,
        _table: &mut Table,
    ) -> Result<(), LowerFault> {
        write_expression(code, self)?;
        put(code, Instruction::Number)?;
        Ok(())
    }
}

// ---- texts

impl Element for Text {
    ghost Meant = { texts.Text };

    ghost view = { text_of };

    ghost strings = { λ v. strings_of_record (text_record v) };

    ghost is_block = { λ numbered. Giving numbered text_record };

    ghost is_kept = { is_text };

    #[tactic(auto, using(crate::proofs::Written::text_steps))]
    fn write(
        &self,
        alloc: Global,
        code: &mut Emitter,
        table: &mut Table,
    ) -> Result<(), LowerFault> {
        let number = add_text(alloc, table, self)?;
        put(code, Instruction::Text(number))?;
        Ok(())
    }
}

// A class word.
impl Element for CompactString {
    ghost Meant = { texts.Name };

    ghost view = { text_bytes };

    ghost strings = { λ v. strings_of_record (class_record v) };

    ghost is_block = { λ numbered. Giving numbered class_record };

    ghost is_kept = { λ n. true };

    #[tactic(auto, using(crate::proofs::Written::text_steps))]
    fn write(
        &self,
        alloc: Global,
        code: &mut Emitter,
        table: &mut Table,
    ) -> Result<(), LowerFault> {
        let number = add_name(alloc, table, self.as_str())?;
        put(code, Instruction::Text(number))?;
        Ok(())
    }
}

// ---- menus

// The qualifiers as the bits of a number.
fn menu_bits(q: MenuQualifiers) -> u16
    ensures { result ≡ source.menu_bits q }
{
    u16::from(q.display_value)
        + 2 * u16::from(q.read_only)
        + 4 * u16::from(q.hidden)
        + 8 * u16::from(q.review)
}

// The item that a reference names; in a checked description it is one.
fn item_of(target: Target) -> ItemNo
    ensures { result ≡ targets.item_of target }
{
    match target {
        Target::Item(item) => item,
        Target::Local(_) | Target::Function(_) => ItemNo::Variable(VarNo(0)),
    }
}

#[tactic(auto, using(crate::proofs::Written::item_written))]
fn write_item(code: &mut Emitter, to: Target, qualifiers: MenuQualifiers) -> Result<(), AllocError>
    ensures { OnOk result
        ((table : List Words) → WritesRecord table code.old
        (source.Entry (targets.item_of to) qualifiers) table code.new) }
{
    let (item, quals) = (item_of(to), menu_bits(qualifiers));
    put(code, Instruction::Item { item, quals })
}

impl Element for MenuEntry<Target> {
    ghost Meant = { item.MenuEntry Target };

    ghost view = { numbered_entry };

    ghost strings = { λ v. strings_of_record (source.entry v) };

    ghost is_block = { λ numbered. Giving numbered source.entry };

    ghost is_kept = { kept_entry };

    #[tactic(auto, using(edd_code::proofs::Growing::no_growth))]
    fn write(
        &self,
        alloc: Global,
        code: &mut Emitter,
        table: &mut Table,
    ) -> Result<(), LowerFault> {
        match self {
            MenuEntry::Text(text) => text.write(alloc, code, table),
            MenuEntry::Reference { to, qualifiers } => Ok(write_item(code, *to, *qualifiers)?),
        }
    }
}

// ---- data items

fn data_bits(q: DataQualifiers) -> u8
    ensures { result ≡ source.data_bits q }
{
    u8::from(q.info) + 2 * u8::from(q.index)
}

// The variable that a reference names; in a checked description it is one.
fn variable_of(target: Target) -> VarNo
    ensures { result ≡ targets.variable_of target }
{
    match target {
        Target::Item(ItemNo::Variable(variable)) => variable,
        _ => VarNo(0),
    }
}

// A mask of 0 is none.
fn mask_number(mask: Option<u32>) -> u32
    ensures { result ≡ agreement.mask_number mask }
{
    match mask {
        None => 0,
        Some(mask) => mask,
    }
}

#[tactic(auto, using(crate::proofs::Written::variable_written))]
fn write_variable(
    code: &mut Emitter,
    variable: Target,
    mask: Option<u32>,
    qualifiers: DataQualifiers,
) -> Result<(), AllocError>
    ensures { OnOk result
        ((table : List Words) → WritesRecord table code.old
        (source.DataVar (targets.variable_of variable) mask qualifiers) table code.new) }
{
    put(
        code,
        Instruction::DataVar {
            var: variable_of(variable),
            mask: mask_number(mask),
            quals: data_bits(qualifiers),
        },
    )
}

#[tactic(auto, using(crate::proofs::Written::constant_written))]
fn write_constant(code: &mut Emitter, value: u32) -> Result<(), AllocError>
    requires { value < 256 }
    ensures { OnOk result
        ((table : List Words) → WritesRecord table code.old (source.DataConst value) table
        code.new) }
{
    put(code, Instruction::DataConst(value as u8))
}

impl Element for DataItem<Target> {
    ghost Meant = { item.DataItem Target };

    ghost view = { numbered_data_item };

    ghost strings = { λ v. strings_of_record (source.data_item v) };

    ghost is_block = { λ numbered. Giving numbered source.data_item };

    ghost is_kept = { kept_data };

    #[tactic(auto, using(edd_code::proofs::Growing::no_growth))]
    fn write(
        &self,
        _alloc: Global,
        code: &mut Emitter,
        _table: &mut Table,
    ) -> Result<(), LowerFault> {
        match self {
            DataItem::Constant { value, .. } => Ok(write_constant(code, *value)?),
            DataItem::Variable {
                variable,
                mask,
                qualifiers,
                ..
            } => Ok(write_variable(code, *variable, *mask, *qualifiers)?),
        }
    }
}

// ---- enumerators, response codes, members and elements of arrays

fn enumerated(e: &Enumerator, text: StrNo, help: Option<StrNo>) -> Instruction
    ensures { result ≡ Instruction.Enumerator (enumerator_of e.now).value text help }
{
    Instruction::Enumerator {
        value: e.value,
        text,
        help,
    }
}

impl Element for Enumerator {
    ghost Meant = { item.Enumerator };

    ghost view = { enumerator_of };

    ghost strings = { λ v. strings_of_record (source.enumerator v) };

    ghost is_block = { λ numbered. Giving numbered source.enumerator };

    ghost is_kept = { kept_enumerator };

    fn write(
        &self,
        alloc: Global,
        code: &mut Emitter,
        table: &mut Table,
    ) -> Result<(), LowerFault> {
        let text = add_text(alloc, table, &self.text)?;
        let help = add_optional(alloc, table, &self.help)?;
        put(code, enumerated(self, text, help))?;
        Ok(())
    }
}

fn class_number(class: ResponseClass) -> u8
    ensures { result ≡ agreement.class_number class }
{
    match class {
        ResponseClass::Success => 0,
        ResponseClass::MiscWarning => 1,
        ResponseClass::DataEntryWarning => 2,
        ResponseClass::DataEntryError => 3,
        ResponseClass::ModeError => 4,
        ResponseClass::ProcessError => 5,
        ResponseClass::MiscError => 6,
    }
}

impl Element for ResponseCode {
    ghost Meant = { item.ResponseCode };

    ghost view = { response_code_of };

    ghost strings = { λ v. strings_of_record (source.response v) };

    ghost is_block = { λ numbered. Giving numbered source.response };

    ghost is_kept = { kept_response };

    #[tactic(auto, using(crate::proofs::Written::response_written))]
    fn write(
        &self,
        alloc: Global,
        code: &mut Emitter,
        table: &mut Table,
    ) -> Result<(), LowerFault> {
        let text = add_text(alloc, table, &self.text)?;
        put(
            code,
            Instruction::Response {
                number: self.number,
                class: class_number(self.class),
                text,
            },
        )?;
        Ok(())
    }
}

impl Element for Member<Target> {
    ghost Meant = { item.Member Target };

    ghost view = { numbered_member };

    ghost strings = { λ v. strings_of_record (source.member v) };

    ghost is_block = { λ numbered. Giving numbered source.member };

    ghost is_kept = { kept_member };

    fn write(
        &self,
        alloc: Global,
        code: &mut Emitter,
        table: &mut Table,
    ) -> Result<(), LowerFault> {
        let name = add_name(alloc, table, self.name.as_str())?;
        let label = add_optional(alloc, table, &self.label)?;
        let help = add_optional(alloc, table, &self.help)?;
        put(
            code,
            Instruction::Member {
                name,
                item: item_of(self.item),
                label,
                help,
            },
        )?;
        Ok(())
    }
}

impl Element for ArrayElement<Target> {
    ghost Meant = { item.ArrayElement Target };

    ghost view = { numbered_array_element };

    ghost strings = { λ v. strings_of_record (source.element v) };

    ghost is_block = { λ numbered. Giving numbered source.element };

    ghost is_kept = { kept_array_element };

    fn write(
        &self,
        alloc: Global,
        code: &mut Emitter,
        table: &mut Table,
    ) -> Result<(), LowerFault> {
        let label = add_optional(alloc, table, &self.label)?;
        let help = add_optional(alloc, table, &self.help)?;
        put(
            code,
            Instruction::Element {
                number: self.number,
                var: variable_of(self.variable),
                label,
                help,
            },
        )?;
        Ok(())
    }
}
