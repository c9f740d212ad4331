//! The records of an attribute.

ghost use Rattle.std.specs.Prelude.{◌≡◌, ◌++◌, ◌∷◌, [], OnOk, string_bytes};
ghost use Rattle.edd_image.specs.Contents.{contents_in};
ghost use Rattle.edd_instructions.specs.declared.records.Record.TheVariants as records;
ghost use Rattle.edd_display.specs.Words.{class_word, name_of, optional_shown};
ghost use Rattle.edd_display.specs.Records.{mask_shown, record_shown, records_shown};

use crate::page::Page;
use crate::words::{class_word, push_data_qualifiers, push_menu_qualifiers};
use edd_instructions::Record;
use edd_syntax::numbers::{ItemNo, StrNo, VarNo};
use std::alloc::AllocError;

#[tactic(auto, unfolding(crate::specs::Records::record_shown))]
fn push_entry(
    page: &Page<'_, '_>,
    line: &mut String,
    item: ItemNo,
    bits: u16,
) -> Result<(), AllocError>
    ensures { OnOk result (string_bytes line.new ≡ string_bytes line.old
        ++ record_shown (contents_in page.now.image.now) page.now.language.now
        (records.Entry item bits)) }
{
    line.push_str(page.name(item))?;
    push_menu_qualifiers(line, bits)
}

fn push_mask(line: &mut String, mask: u32) -> Result<(), AllocError>
    ensures { OnOk result (string_bytes line.new ≡ string_bytes line.old ++ mask_shown mask) }
{
    if mask == 0 {
        return Ok(());
    }
    write!(line, "<{mask}>")
}

#[tactic(auto, unfolding(crate::specs::Records::record_shown))]
fn push_data(
    page: &Page<'_, '_>,
    line: &mut String,
    variable: VarNo,
    mask: u32,
    bits: u8,
) -> Result<(), AllocError>
    ensures { OnOk result (string_bytes line.new ≡ string_bytes line.old
        ++ record_shown (contents_in page.now.image.now) page.now.language.now
        (records.DataVar variable mask bits)) }
{
    line.push_str(page.name(ItemNo::Variable(variable)))?;
    push_mask(line, mask)?;
    push_data_qualifiers(line, u16::from(bits))
}

#[tactic(auto, unfolding(crate::specs::Records::record_shown))]
fn push_enumerator(
    page: &Page<'_, '_>,
    line: &mut String,
    value: i64,
    text: StrNo,
    help: Option<StrNo>,
) -> Result<(), AllocError>
    ensures { OnOk result (string_bytes line.new ≡ string_bytes line.old
        ++ record_shown (contents_in page.now.image.now) page.now.language.now
        (records.Enumerator value text help)) }
{
    write!(line, "{{{value} ")?;
    page.push_text(line, text)?;
    page.push_optional(line, help)?;
    line.push('}')?;
    Ok(())
}

#[tactic(auto, unfolding(crate::specs::Records::record_shown))]
fn push_response(
    page: &Page<'_, '_>,
    line: &mut String,
    number: u32,
    class: u8,
    text: StrNo,
) -> Result<(), AllocError>
    ensures { OnOk result (string_bytes line.new ≡ string_bytes line.old
        ++ record_shown (contents_in page.now.image.now) page.now.language.now
        (records.Response number class text)) }
{
    let word = class_word(class);
    write!(line, "{{{number} {word} ")?;
    page.push_text(line, text)?;
    line.push('}')?;
    Ok(())
}

// The name of an item, the label and the help where they are there, and the closing brace.
fn push_named(
    page: &Page<'_, '_>,
    line: &mut String,
    item: ItemNo,
    label: Option<StrNo>,
    help: Option<StrNo>,
) -> Result<(), AllocError>
    ensures { OnOk result (string_bytes line.new ≡ string_bytes line.old
        ++ (name_of (contents_in page.now.image.now) item
        ++ optional_shown (contents_in page.now.image.now) page.now.language.now label
        ++ optional_shown (contents_in page.now.image.now) page.now.language.now help ++ 125 ∷ [])) }
{
    line.push_str(page.name(item))?;
    page.push_optional(line, label)?;
    page.push_optional(line, help)?;
    line.push('}')?;
    Ok(())
}

#[tactic(auto, unfolding(crate::specs::Records::record_shown))]
fn push_member(
    page: &Page<'_, '_>,
    line: &mut String,
    name: StrNo,
    item: ItemNo,
    label: Option<StrNo>,
    help: Option<StrNo>,
) -> Result<(), AllocError>
    ensures { OnOk result (string_bytes line.new ≡ string_bytes line.old
        ++ record_shown (contents_in page.now.image.now) page.now.language.now
        (records.Member name item label help)) }
{
    line.push('{')?;
    page.push_member(line, name)?;
    line.push(' ')?;
    push_named(page, line, item, label, help)
}

#[tactic(auto, unfolding(crate::specs::Records::record_shown))]
fn push_element(
    page: &Page<'_, '_>,
    line: &mut String,
    number: u32,
    variable: VarNo,
    label: Option<StrNo>,
    help: Option<StrNo>,
) -> Result<(), AllocError>
    ensures { OnOk result (string_bytes line.new ≡ string_bytes line.old
        ++ record_shown (contents_in page.now.image.now) page.now.language.now
        (records.Element number variable label help)) }
{
    write!(line, "{{{number} ")?;
    push_named(page, line, ItemNo::Variable(variable), label, help)
}

#[tactic(auto, unfolding(crate::specs::Records::record_shown))]
fn push_record(page: &Page<'_, '_>, line: &mut String, given: Record) -> Result<(), AllocError>
    ensures { OnOk result (string_bytes line.new ≡ string_bytes line.old
        ++ record_shown (contents_in page.now.image.now) page.now.language.now given) }
{
    match given {
        Record::Words(string) => page.push_text(line, string),
        Record::Number(number) => write!(line, "{number}"),
        Record::Entry { item, quals } => push_entry(page, line, item, quals),
        Record::DataConst(number) => write!(line, "{number}"),
        Record::DataVar { var, mask, quals } => push_data(page, line, var, mask, quals),
        Record::Enumerator { value, text, help } => push_enumerator(page, line, value, text, help),
        Record::Response {
            number,
            class,
            text,
        } => push_response(page, line, number, class, text),
        Record::Member {
            name,
            item,
            label,
            help,
        } => push_member(page, line, name, item, label, help),
        Record::Element {
            number,
            var,
            label,
            help,
        } => push_element(page, line, number, var, label, help),
    }
}

/// Appends the records to a line, each after a blank.
pub fn push_records(
    page: &Page<'_, '_>,
    line: &mut String,
    records: &[Record],
) -> Result<(), AllocError>
    ensures { OnOk result (string_bytes line.new ≡ string_bytes line.old
        ++ records_shown (contents_in page.now.image.now) page.now.language.now records.now) }
{
    for record in records {
        line.push(' ')?;
        push_record(page, line, *record)?;
    }
    Ok(())
}
