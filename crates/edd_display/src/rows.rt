//! The line of an attribute.

ghost use Rattle.std.specs.Prelude.{◌≡◌, ◌++◌, ◌∷◌, [], IfErr, IfOk, OnOk, false, string_bytes};
ghost use Rattle.std.specs.Io.KnownBytes.{Appends};
ghost use Rattle.edd_syntax.specs.DeviceValues.{AreDeviceValues};
ghost use Rattle.edd_image.specs.Contents.{contents_in};
ghost use Rattle.edd_instructions.specs.Reading.{IsReading};
ghost use Rattle.edd_machine.specs.Types.{types_in};
ghost use Rattle.edd_display.specs.Found.{reading_found};
ghost use Rattle.edd_display.specs.Shown.{Prints, Row, blames_values, is_absent, is_nothing, reading_line, reading_shown, row_word};
ghost use Rattle.edd_display.specs.Written.{default_line};

use crate::fault::ShowFault;
use crate::lines::print_text;
use crate::page::Page;
use crate::records::push_records;
use crate::words::trap_word;
use edd_instructions::Record;
use edd_machine::{ReadFault, Values, attribute_of_device};
use edd_syntax::answer::Trap;
use edd_syntax::numbers::{Attr, AttrRef};
use std::alloc::{AllocError, Global};
use std::io::Write;

/// What a read of an attribute results in.
#[derive(Drop)]
pub enum Found {
    Nothing,
    Records(Vec<Record>),
    Trap(Trap),
}

/// Reads an attribute.
pub fn read(
    alloc: Global,
    page: &Page<'_, '_>,
    row: AttrRef,
    values: &Values,
) -> Result<Found, ShowFault>
    requires { AreDeviceValues (types_in page.now.image.now) values.now.numbers.items }
    ensures sound { IfOk result (λ found. IsReading page.now.image.now row values.now.numbers.items
        (reading_found found)) }
    ensures refused { IfErr result (λ fault. blames_values fault ≡ false) }
{
    match attribute_of_device(alloc, page.image, row, values) {
        Ok(records) => Ok(Found::Records(records)),
        Err(ReadFault::NoItem) => Ok(Found::Nothing),
        Err(ReadFault::DivZero) => Ok(Found::Trap(Trap::DivZero)),
        Err(ReadFault::DivOverflow) => Ok(Found::Trap(Trap::DivOverflow)),
        Err(ReadFault::BadShift) => Ok(Found::Trap(Trap::BadShift)),
        Err(ReadFault::NoElement) => Ok(Found::Trap(Trap::NoElement)),
        Err(ReadFault::WrongValues) => unreachable!(),
        Err(ReadFault::Memory) => Err(ShowFault::Memory),
    }
}

/// Whether there is nothing to read.
pub fn is_absent(found: &Found) -> bool
    ensures { result ≡ is_absent (reading_found found.now) }
{
    matches!(found, Found::Nothing)
}

// Whether there is nothing to say.
fn is_nothing(found: &Found) -> bool
    ensures { result ≡ is_nothing (reading_found found.now) }
{
    match found {
        Found::Nothing => true,
        Found::Records(records) => records.is_empty(),
        Found::Trap(_) => false,
    }
}

// The word of an attribute, in a transaction with the position between brackets.
#[tactic(auto, unfolding(crate::specs::Shown::row_word))]
fn push_word(line: &mut String, row: AttrRef) -> Result<(), AllocError>
    ensures { OnOk result (string_bytes line.new ≡ string_bytes line.old ++ row_word row) }
{
    line.push_str(row.attr.word())?;
    if row.attr.is_of_transaction() {
        return write!(line, "[{}]", row.sub);
    }
    Ok(())
}

// What is read: the records, or the word of the trap.
#[tactic(auto, unfolding(crate::specs::Shown::reading_shown))]
fn push_found(page: &Page<'_, '_>, line: &mut String, found: &Found) -> Result<(), AllocError>
    ensures { OnOk result (string_bytes line.new ≡ string_bytes line.old
        ++ reading_shown (contents_in page.now.image.now) page.now.language.now
        (reading_found found.now)) }
{
    match found {
        Found::Nothing => Ok(()),
        Found::Records(records) => push_records(page, line, records),
        Found::Trap(why) => {
            let word = trap_word(*why);
            write!(line, " fault {word}")
        }
    }
}

/// Prints the line of what was read. An attribute outside of transactions with nothing to say has
/// none.
#[tactic(auto, unfolding(crate::specs::Shown::reading_line))]
pub fn print_found<W: Write>(
    page: &Page<'_, '_>,
    row: AttrRef,
    found: &Found,
    line: &mut String,
    out: &mut W,
) -> Result<(), ShowFault>
    ensures sound { OnOk result (Appends (W.contents out.old) (W.contents out.new)
        (reading_line (contents_in page.now.image.now) page.now.language.now row
        (reading_found found.now))) }
    ensures refused { IfErr result (λ fault. blames_values fault ≡ false) }
{
    if is_nothing(found) && !row.attr.is_of_transaction() {
        return Ok(());
    }
    line.clear();
    push_word(line, row)?;
    push_found(page, line, found)?;
    line.push('\n')?;
    print_text(out, line)
}

/// Prints the line of an attribute that has no row and is outside of transactions.
pub fn print_default<W: Write>(attr: Attr, out: &mut W) -> Result<(), ShowFault>
    ensures sound { OnOk result (Appends (W.contents out.old) (W.contents out.new)
        (default_line attr)) }
    ensures refused { IfErr result (λ fault. blames_values fault ≡ false) }
{
    match attr {
        Attr::Handling => print_text(out, "HANDLING 3\n"),
        Attr::Validity => print_text(out, "VALIDITY 1\n"),
        _ => Ok(()),
    }
}

/// Reads an attribute, and prints its line.
#[tactic(auto, using(crate::proofs::Printing::prints_row))]
pub fn print_row<W: Write>(
    alloc: Global,
    page: &Page<'_, '_>,
    values: &Values,
    row: AttrRef,
    line: &mut String,
    out: &mut W,
) -> Result<(), ShowFault>
    requires { AreDeviceValues (types_in page.now.image.now) values.now.numbers.items }
    ensures sound { OnOk result (Prints page.now.image.now values.now.numbers.items
        page.now.language.now (Row row ∷ []) (W.contents out.old) (W.contents out.new)) }
    ensures refused { IfErr result (λ fault. blames_values fault ≡ false) }
{
    let found = read(alloc, page, row, values)?;
    print_found(page, row, &found, line, out)?;
    Ok(())
}
