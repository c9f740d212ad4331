//! The lines of the items of an image.

ghost use Rattle.std.specs.Prelude.{◌≡◌, ◌++◌, ◌↔◌, [], IfErr, IfOk, IsTrue, OnOk, false, if◌then◌else◌, option_map, string_bytes};
ghost use Rattle.std.specs.Io.KnownBytes.{Appends};
ghost use Rattle.std.specs.List.{flat_map};
ghost use Rattle.edd_syntax.specs.DeviceValues.{AreDeviceValues};
ghost use Rattle.edd_syntax.specs.Numbers as numbers;
ghost use Rattle.edd_image.specs.Contents.{contents_in};
ghost use Rattle.edd_image.specs.Existing.{item_exists};
ghost use Rattle.edd_instructions.specs.Agreement.{count_in};
ghost use Rattle.edd_loader.specs.Lookups.{type_of_kind};
ghost use Rattle.edd_machine.specs.Types.{types_in};
ghost use Rattle.edd_display.specs.Shown as shown;
ghost use Rattle.edd_display.specs.Shown.{Prints, after_name, attribute_entries, attributes, blames_values, entries_of, has_transaction, head_line, identification_line, item_entries, kind_entries, kinds, positions_of, transaction_entries, type_shown};
ghost use Rattle.edd_display.specs.Written.{AreWritten};

use crate::fault::ShowFault;
use crate::lines::{print, print_text};
use crate::page::Page;
use crate::rows::{is_absent, print_default, print_found, print_row, read};
use crate::words::type_word;
use crate::written::{is_written, written_of};
use edd_image::{Counts, VarKind};
use edd_loader::Image;
use edd_machine::Values;
use edd_syntax::numbers::{ATTRIBUTES, Attr, AttrRef, ItemNo, KINDS, Kind};
use std::alloc::{AllocError, Global};
use std::io::Write;

fn row_at(item: ItemNo, attr: Attr, sub: u16) -> AttrRef
    ensures { result ≡ shown.row_at item attr sub }
{
    AttrRef { item, attr, sub }
}

// Whether there is a transaction at this position. If so, its three lines are printed.
#[tactic(auto, using(crate::proofs::Printing::prints_nothing))]
fn print_transaction<W: Write>(
    alloc: Global,
    page: &Page<'_, '_>,
    values: &Values,
    item: ItemNo,
    sub: u16,
    line: &mut String,
    out: &mut W,
) -> Result<bool, ShowFault>
    requires { AreDeviceValues (types_in page.now.image.now) values.now.numbers.items }
    ensures exists { IfOk result (λ exists. exists
        ≡ has_transaction (contents_in page.now.image.now) item sub) }
    ensures sound { IfOk result (λ exists. Prints page.now.image.now values.now.numbers.items
        page.now.language.now (if exists then transaction_entries item sub else [])
        (W.contents out.old) (W.contents out.new)) }
    ensures refused { IfErr result (λ fault. blames_values fault ≡ false) }
{
    let at = row_at(item, Attr::Transaction, sub);
    let transaction = read(alloc, page, at, values)?;
    if is_absent(&transaction) {
        return Ok(false);
    }
    print_found(page, at, &transaction, line, out)?;
    let request_at = row_at(item, Attr::Request, sub);
    print_row(alloc, page, values, request_at, line, out)?;
    let reply_at = row_at(item, Attr::Reply, sub);
    print_row(alloc, page, values, reply_at, line, out)?;
    Ok(true)
}

// The lines of the transactions, up to the first position that has none.
fn print_transactions<W: Write>(
    alloc: Global,
    page: &Page<'_, '_>,
    values: &Values,
    item: ItemNo,
    line: &mut String,
    out: &mut W,
) -> Result<(), ShowFault>
    requires good { AreDeviceValues (types_in page.now.image.now) values.now.numbers.items }
    ensures sound { OnOk result (Prints page.now.image.now values.now.numbers.items
        page.now.language.now (flat_map (transaction_entries item)
        (positions_of (contents_in page.now.image.now) item))
        (W.contents out.old) (W.contents out.new)) }
    ensures refused { IfErr result (λ fault. blames_values fault ≡ false) }
{
    for sub in 0..65_536u32 {
        let exists = print_transaction(alloc, page, values, item, sub as u16, line, out)?;
        if !exists {
            return Ok(());
        }
    }
    Ok(())
}

// The lines of an attribute. Those of transactions are together, at the place of TRANSACTION.
#[tactic(auto, using(crate::proofs::Printing::prints_nothing, crate::proofs::Defaults::prints_default), unfolding(crate::specs::Shown::attribute_entries),)]
fn print_attribute<W: Write>(
    alloc: Global,
    page: &Page<'_, '_>,
    values: &Values,
    written: u32,
    item: ItemNo,
    attr: Attr,
    line: &mut String,
    out: &mut W,
) -> Result<(), ShowFault>
    requires good { AreDeviceValues (types_in page.now.image.now) values.now.numbers.items }
    requires exists { IsTrue (item_exists (contents_in page.now.image.now).counts item) }
    requires rows { AreWritten (contents_in page.now.image.now) item written }
    ensures sound { OnOk result (Prints page.now.image.now values.now.numbers.items
        page.now.language.now (attribute_entries (contents_in page.now.image.now) item attr)
        (W.contents out.old) (W.contents out.new)) }
    ensures refused { IfErr result (λ fault. blames_values fault ≡ false) }
{
    if !attr.may_belong_to(item.kind()) {
        return Ok(());
    }
    if matches!(attr, Attr::Transaction) {
        return print_transactions(alloc, page, values, item, line, out);
    }
    if attr.is_of_transaction() || matches!(attr, Attr::Definition) {
        return Ok(());
    }
    if !is_written(written, attr) {
        return print_default(attr, out);
    }
    print_row(alloc, page, values, row_at(item, attr, 0), line, out)
}

// The attributes of an item, by their numbers.
#[tactic(auto, using(crate::proofs::Printing::prints_nothing, crate::proofs::Printing::prints_items),)]
fn print_attributes<W: Write>(
    alloc: Global,
    page: &Page<'_, '_>,
    values: &Values,
    written: u32,
    item: ItemNo,
    line: &mut String,
    out: &mut W,
) -> Result<(), ShowFault>
    requires good { AreDeviceValues (types_in page.now.image.now) values.now.numbers.items }
    requires exists { IsTrue (item_exists (contents_in page.now.image.now).counts item) }
    requires rows { AreWritten (contents_in page.now.image.now) item written }
    ensures sound { OnOk result (Prints page.now.image.now values.now.numbers.items
        page.now.language.now (flat_map (attribute_entries (contents_in page.now.image.now) item)
        attributes) (W.contents out.old) (W.contents out.new)) }
    ensures refused { IfErr result (λ fault. blames_values fault ≡ false) }
{
    for attr in ATTRIBUTES {
        print_attribute(alloc, page, values, written, item, attr, line, out)?;
    }
    Ok(())
}

// The type and the size of an item that is a variable.
fn type_of_item(page: &Page<'_, '_>, item: ItemNo) -> Option<VarKind>
    ensures { type_shown (option_map type_of_kind result)
        ≡ after_name (contents_in page.now.image.now) item }
{
    match item {
        ItemNo::Variable(number) => page.image.variable(number),
        _ => None,
    }
}

// The type and the size of a variable, each after a blank.
fn push_type(line: &mut String, of: Option<VarKind>) -> Result<(), AllocError>
    ensures { OnOk result (string_bytes line.new
        ≡ string_bytes line.old ++ type_shown (option_map type_of_kind of)) }
{
    let Some(of) = of else {
        return Ok(());
    };
    let word = type_word(of.var_type);
    write!(line, " {word} {}", of.size)
}

// The first line of an item: a variable has its type and its size after its name.
#[tactic(auto, unfolding(crate::specs::Shown::head_line))]
fn print_head<W: Write>(
    page: &Page<'_, '_>,
    item: ItemNo,
    line: &mut String,
    out: &mut W,
) -> Result<(), ShowFault>
    ensures sound { OnOk result (Appends (W.contents out.old) (W.contents out.new)
        (head_line (contents_in page.now.image.now) item)) }
    ensures refused { IfErr result (λ fault. blames_values fault ≡ false) }
{
    line.clear();
    line.push_str(item.kind().word())?;
    line.push(' ')?;
    line.push_str(page.name(item))?;
    push_type(line, type_of_item(page, item))?;
    line.push('\n')?;
    print_text(out, line)
}

// `are_good` says whether the values are those of a device of this description. Each item has an
// attribute that is read, so with other values none gets past its first line.
#[tactic(auto, using(crate::proofs::Printing::prints_after_head), unfolding(crate::specs::Shown::item_entries),)]
fn print_item<W: Write>(
    alloc: Global,
    page: &Page<'_, '_>,
    values: &Values,
    are_good: bool,
    written: u32,
    item: ItemNo,
    line: &mut String,
    out: &mut W,
) -> Result<(), ShowFault>
    requires good { IsTrue are_good ↔ AreDeviceValues (types_in page.now.image.now)
        values.now.numbers.items }
    requires exists { IsTrue (item_exists (contents_in page.now.image.now).counts item) }
    requires rows { AreWritten (contents_in page.now.image.now) item written }
    ensures sound { OnOk result (Prints page.now.image.now values.now.numbers.items
        page.now.language.now (item_entries (contents_in page.now.image.now) item)
        (W.contents out.old) (W.contents out.new)) }
    ensures refused { IfErr result (λ fault. IsTrue (blames_values fault)
        → ¬ AreDeviceValues (types_in page.now.image.now) values.now.numbers.items) }
{
    print_head(page, item, line, out)?;
    if !are_good {
        return Err(ShowFault::WrongValues);
    }
    print_attributes(alloc, page, values, written, item, line, out)?;
    Ok(())
}

fn count_of(counts: &Counts, kind: Kind) -> u16
    ensures { result ≡ count_in counts.now kind }
{
    match kind {
        Kind::Variable => counts.variables,
        Kind::Command => counts.commands,
        Kind::Menu => counts.menus,
        Kind::Collection => counts.collections,
        Kind::Method => counts.methods,
        Kind::Array => counts.arrays,
    }
}

#[tactic(auto, using(crate::proofs::Printing::prints_nothing, crate::proofs::Printing::prints_numbers), unfolding(crate::specs::Shown::kind_entries),)]
fn print_kind<W: Write>(
    alloc: Global,
    page: &Page<'_, '_>,
    values: &Values,
    are_good: bool,
    kind: Kind,
    line: &mut String,
    out: &mut W,
) -> Result<(), ShowFault>
    requires good { IsTrue are_good ↔ AreDeviceValues (types_in page.now.image.now)
        values.now.numbers.items }
    ensures sound { OnOk result (Prints page.now.image.now values.now.numbers.items
        page.now.language.now (kind_entries (contents_in page.now.image.now) kind)
        (W.contents out.old) (W.contents out.new)) }
    ensures refused { IfErr result (λ fault. IsTrue (blames_values fault)
        → ¬ AreDeviceValues (types_in page.now.image.now) values.now.numbers.items) }
{
    let count = count_of(&page.counts(), kind);
    let all = written_of(alloc, page.image, kind, count)?;
    for number in 0..count {
        let item = kind.item(number);
        let written = all[number as usize];
        print_item(alloc, page, values, are_good, written, item, line, out)?;
    }
    Ok(())
}

#[tactic(auto, using(crate::proofs::Printing::prints_nothing, crate::proofs::Printing::prints_items),)]
fn print_kinds<W: Write>(
    alloc: Global,
    page: &Page<'_, '_>,
    values: &Values,
    line: &mut String,
    out: &mut W,
) -> Result<(), ShowFault>
    ensures sound { OnOk result (Prints page.now.image.now values.now.numbers.items
        page.now.language.now (flat_map (kind_entries (contents_in page.now.image.now)) kinds)
        (W.contents out.old) (W.contents out.new)) }
    ensures refused { IfErr result (λ fault. IsTrue (blames_values fault)
        → ¬ AreDeviceValues (types_in page.now.image.now) values.now.numbers.items) }
{
    let are_good = values.are_of(page.image);
    for kind in KINDS {
        print_kind(alloc, page, values, are_good, kind, line, out)?;
    }
    Ok(())
}

// The line of the identification.
#[tactic(auto, unfolding(crate::specs::Shown::identification_line))]
fn print_identification<W: Write>(
    alloc: Global,
    counts: &Counts,
    out: &mut W,
) -> Result<(), ShowFault>
    ensures sound { OnOk result (Appends (W.contents out.old) (W.contents out.new)
        (identification_line counts.now)) }
    ensures refused { IfErr result (λ fault. blames_values fault ≡ false) }
{
    let (maker, device) = (counts.manufacturer, counts.device_type);
    let (revision, dd) = (counts.device_revision, counts.dd_revision);
    print(
        alloc,
        out,
        format_args!("identification {maker} {device} {revision} {dd}"),
    )
}

/// Prints the identification, and each item by kind and number, with its attributes by theirs. The
/// transactions of a command end at the first position without TRANSACTION.
///
/// The fault is `WrongValues` only where the values are not those of a device of this description.
#[tactic(auto, using(crate::proofs::Printing::prints_after_identification), unfolding(crate::specs::Shown::entries_of),)]
pub fn show<W: Write>(
    alloc: Global,
    image: &Image<'_>,
    values: &Values,
    language: &str,
    out: &mut W,
) -> Result<(), ShowFault>
    ensures sound { OnOk result (Prints image.now values.now.numbers.items language.now
        (entries_of (contents_in image.now)) (W.contents out.old) (W.contents out.new)) }
    ensures refused { IfErr result (λ fault. IsTrue (blames_values fault)
        → ¬ AreDeviceValues (types_in image.now) values.now.numbers.items) }
{
    let page = Page { image, language };
    print_identification(alloc, &page.counts(), out)?;
    let mut line = String::new(alloc);
    print_kinds(alloc, &page, values, &mut line, out)?;
    Ok(())
}
