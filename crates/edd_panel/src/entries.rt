//! The entries of a screen.

ghost use Rattle.std.specs.Prelude.{◌≡◌, ◌++◌, List, IfOk, OnOk, filter_map, option_map};
ghost use Rattle.edd_syntax.specs.declared.numbers.Attr.TheVariants as attr;
ghost use Rattle.edd_syntax.specs.declared.numbers.ItemNo.TheVariants as items;
ghost use Rattle.edd_syntax.specs.DeviceValues.{AreDeviceValues};
ghost use Rattle.edd_image.specs.Fields.{counts_in};
ghost use Rattle.edd_machine.specs.Types.{types_in};
ghost use Rattle.edd_panel.specs.Edits.{reads_of};
ghost use Rattle.edd_panel.specs.Found.{reading_of};
ghost use Rattle.edd_panel.specs.Happens.{is_read_only};
ghost use Rattle.edd_panel.specs.Screens.{AreTopLines, IsScreen, IsShownAt, ShowsAlone, ShowsEntry, ShowsLine, ShowsLines, ShowsList, ShowsMenu, ShowsPlace, ShowsRead, all_items, entry, is_left_out, is_valid, line_of, lines_by, menu_lines, numbered, numbered_from, nth_entry, of_item, plain};

use crate::edits::first_number;
use crate::found::{Found, read};
use crate::place::Place;
use crate::tops::top_menus;
use edd_instructions::Record;
use edd_loader::Image;
use edd_machine::Values;
use edd_syntax::answer::Trap;
use edd_syntax::numbers::{Attr, AttrRef, ItemNo, MenuNo, MethNo, StrNo, VarNo};
use std::alloc::{AllocError, Global};

/// The bits of an entry of a menu that say that it can't be changed there, and that it is not
/// shown.
const READ_ONLY: u16 = 2;

const HIDDEN: u16 = 4;

/// An item on a screen.
#[derive(Clone, Copy)]
pub struct Entry {
    pub item: ItemNo,
    /// The label and the help that a collection has for it.
    pub label: Option<StrNo>,
    pub help: Option<StrNo>,
    pub qualifiers: u16,
    /// The trap of its VALIDITY.
    pub trap: Option<Trap>,
}

/// A line of a screen: a text, or an item, which has a number.
#[derive(Clone, Copy)]
pub enum Listed {
    Text(StrNo),
    Entry(Entry),
}

/// The lines of a screen, or the trap that is in their place.
#[derive(Drop)]
pub struct Listing {
    pub lines: Vec<Listed>,
    pub trap: Option<Trap>,
}

impl Entry {
    /// An item that is named without a label or qualifiers.
    pub fn plain(item: ItemNo) -> Entry
        ensures { result ≡ plain item }
    {
        Entry {
            item,
            label: None,
            help: None,
            qualifiers: 0,
            trap: None,
        }
    }

    pub fn is_read_only(&self) -> bool
        ensures { result ≡ is_read_only self.now.qualifiers }
    {
        self.qualifiers & READ_ONLY != 0
    }

    // Whether it is hidden, or nothing for a technician.
    fn is_left_out(&self) -> bool
        ensures { result ≡ is_left_out self.now }
    {
        self.qualifiers & HIDDEN != 0 || matches!(self.item, ItemNo::Command(_) | ItemNo::Array(_))
    }
}

impl Listing {
    /// The entry of a number, counted from 1, if there is one.
    pub fn numbered(&self, number: i64) -> Option<Entry>
        ensures { result ≡ numbered self.now.lines.items number }
    {
        if number < 1 {
            return None;
        }
        nth_entry(&self.lines, (number - 1) as u64)
    }
}

// The entry of a number, counted from 0.
fn nth_entry(lines: &[Listed], number: u64) -> Option<Entry>
    ensures { result ≡ nth_entry lines.now number }
{
    let mut left = number;
    for line in lines {
        if let Listed::Entry(entry) = line {
            if left == 0 {
                return Some(*entry);
            }
            left -= 1;
        }
    }
    None
}

// Whether an item may be opened by what was read of its VALIDITY.
fn is_valid(validity: &Found) -> bool
    ensures { result ≡ is_valid (reading_of validity.now) }
{
    match validity {
        Found::Nothing => true,
        Found::Records(records) => match first_number(records) {
            Some(number) => number != 0,
            None => true,
        },
        Found::Trap(_) => false,
    }
}

/// Reads an attribute of an item under values of a device.
pub fn read_item(
    alloc: Global,
    image: &Image<'_>,
    values: &Values,
    item: ItemNo,
    attr: Attr,
) -> Result<Found, AllocError>
    requires { AreDeviceValues (types_in image.now) values.now.numbers.items }
    ensures { IfOk result (λ found. reads_of image.now values.now.numbers.items
        (of_item item attr) (reading_of found)) }
{
    read(alloc, image, AttrRef { item, attr, sub: 0 }, values)
}

// Adds what is shown of an entry by what was read of its VALIDITY.
fn add_by(validity: &Found, entry: Entry, lines: &mut Vec<Listed>) -> Result<(), AllocError>
    ensures { OnOk result (lines.new.items
        ≡ lines.old.items ++ lines_by (reading_of validity.now) entry) }
{
    if let Found::Trap(trap) = validity {
        lines.push(Listed::Entry(Entry {
            trap: Some(*trap),
            ..entry
        }))?;
    } else if is_valid(validity) {
        lines.push(Listed::Entry(entry))?;
    }
    Ok(())
}

// Adds what is shown of an entry: nothing where it is hidden, not there or nothing for a technician.
fn add_entry(
    alloc: Global,
    image: &Image<'_>,
    values: &Values,
    entry: Entry,
    lines: &mut Vec<Listed>,
) -> Result<(), AllocError>
    requires { AreDeviceValues (types_in image.now) values.now.numbers.items }
    ensures { OnOk result ((here : List Listed) × ShowsEntry (counts_in image.now)
        (reads_of image.now values.now.numbers.items) entry here
        × (lines.new.items ≡ lines.old.items ++ here)) }
{
    if entry.is_left_out() {
        return Ok(());
    }
    let validity = read_item(alloc, image, values, entry.item, Attr::Validity)?;
    add_by(&validity, entry, lines)
}

// Adds what is shown of a line.
fn add_line(
    alloc: Global,
    image: &Image<'_>,
    values: &Values,
    line: Listed,
    lines: &mut Vec<Listed>,
) -> Result<(), AllocError>
    requires { AreDeviceValues (types_in image.now) values.now.numbers.items }
    ensures { OnOk result ((here : List Listed) × ShowsLine (counts_in image.now)
        (reads_of image.now values.now.numbers.items) line here
        × (lines.new.items ≡ lines.old.items ++ here)) }
{
    match line {
        Listed::Text(_) => {
            lines.push(line)?;
            Ok(())
        }
        Listed::Entry(entry) => add_entry(alloc, image, values, entry, lines),
    }
}

// What is shown of lines.
fn shown_of(
    alloc: Global,
    image: &Image<'_>,
    values: &Values,
    written: &[Listed],
) -> Result<Vec<Listed>, AllocError>
    requires { AreDeviceValues (types_in image.now) values.now.numbers.items }
    ensures { IfOk result (λ shown. ShowsLines (counts_in image.now)
        (reads_of image.now values.now.numbers.items) written.now shown.items) }
{
    let mut shown = Vec::new(alloc);
    for line in written {
        add_line(alloc, image, values, *line, &mut shown)?;
    }
    Ok(shown)
}

// The line that a record of ITEMS or MEMBERS is.
fn line_of(written: Record) -> Option<Listed>
    ensures { result ≡ line_of written }
{
    match written {
        Record::Words(text) => Some(Listed::Text(text)),
        Record::Entry { item, quals } => Some(Listed::Entry(Entry {
            qualifiers: quals,
            ..Entry::plain(item)
        })),
        Record::Member {
            item,
            label,
            help,
            ..
        } => Some(Listed::Entry(Entry {
            label,
            help,
            ..Entry::plain(item)
        })),
        _ => None,
    }
}

// The lines that records are.
fn written_in(alloc: Global, records: &[Record]) -> Result<Vec<Listed>, AllocError>
    ensures { IfOk result (λ lines. lines.items ≡ filter_map line_of records.now) }
{
    let mut lines = Vec::new(alloc);
    for written in records {
        if let Some(line) = line_of(*written) {
            lines.push(line)?;
        }
    }
    Ok(lines)
}

// What is shown of a list that was read.
fn list_found(
    alloc: Global,
    image: &Image<'_>,
    values: &Values,
    found: &Found,
) -> Result<Listing, AllocError>
    requires { AreDeviceValues (types_in image.now) values.now.numbers.items }
    ensures { IfOk result (λ listing. ShowsRead (counts_in image.now)
        (reads_of image.now values.now.numbers.items) (reading_of found.now) listing.lines.items
        listing.trap) }
{
    match found {
        Found::Nothing => Ok(Listing {
            lines: Vec::new(alloc),
            trap: None,
        }),
        Found::Records(records) => {
            let written = written_in(alloc, records)?;
            let lines = shown_of(alloc, image, values, &written)?;
            Ok(Listing { lines, trap: None })
        }
        Found::Trap(trap) => Ok(Listing {
            lines: Vec::new(alloc),
            trap: Some(*trap),
        }),
    }
}

// The lines that an attribute gives.
fn list_attribute(
    alloc: Global,
    image: &Image<'_>,
    values: &Values,
    item: ItemNo,
    attr: Attr,
) -> Result<Listing, AllocError>
    requires { AreDeviceValues (types_in image.now) values.now.numbers.items }
    ensures { IfOk result (λ listing. ShowsList (counts_in image.now)
        (reads_of image.now values.now.numbers.items) (of_item item attr) listing.lines.items
        listing.trap) }
{
    let found = read_item(alloc, image, values, item, attr)?;
    list_found(alloc, image, values, &found)
}

// Adds all variables.
fn add_variables(count: u16, lines: &mut Vec<Listed>) -> Result<(), AllocError>
    ensures { OnOk result (lines.new.items ≡ lines.old.items
        ++ numbered_from (λ n. items.Variable (record { 0 = n })) 0 count) }
{
    for number in 0..count {
        lines.push(Listed::Entry(Entry::plain(ItemNo::Variable(VarNo(number)))))?;
    }
    Ok(())
}

// Adds all methods.
fn add_methods(count: u16, lines: &mut Vec<Listed>) -> Result<(), AllocError>
    ensures { OnOk result (lines.new.items ≡ lines.old.items
        ++ numbered_from (λ n. items.Method (record { 0 = n })) 0 count) }
{
    for number in 0..count {
        lines.push(Listed::Entry(Entry::plain(ItemNo::Method(MethNo(number)))))?;
    }
    Ok(())
}

// Entries of these menus.
fn menu_lines(alloc: Global, menus: &[MenuNo]) -> Result<Vec<Listed>, AllocError>
    ensures { IfOk result (λ lines. lines.items ≡ menu_lines menus.now) }
{
    let mut lines = Vec::new(alloc);
    for menu in menus {
        lines.push(Listed::Entry(Entry::plain(ItemNo::Menu(*menu))))?;
    }
    Ok(lines)
}

// The lines that may be at the top: its menus, or all items where there is no menu.
fn top_lines(alloc: Global, image: &Image<'_>, values: &Values) -> Result<Vec<Listed>, AllocError>
    requires { AreDeviceValues (types_in image.now) values.now.numbers.items }
    ensures { IfOk result (λ lines. AreTopLines (counts_in image.now)
        (reads_of image.now values.now.numbers.items) lines.items) }
{
    let counts = image.counts();
    if counts.menus == 0 {
        let mut lines = Vec::new(alloc);
        add_variables(counts.variables, &mut lines)?;
        add_methods(counts.methods, &mut lines)?;
        return Ok(lines);
    }
    let tops = top_menus(alloc, image, values)?;
    menu_lines(alloc, &tops)
}

// A menu in place of the top, if it may be opened.
fn shown_menu(
    alloc: Global,
    image: &Image<'_>,
    values: &Values,
    menu: MenuNo,
) -> Result<Place, AllocError>
    requires { AreDeviceValues (types_in image.now) values.now.numbers.items }
    ensures { IfOk result (ShowsMenu (counts_in image.now)
        (reads_of image.now values.now.numbers.items) menu) }
{
    let validity = read_item(alloc, image, values, ItemNo::Menu(menu), Attr::Validity)?;
    if is_valid(&validity) {
        Ok(Place::Menu(menu))
    } else {
        Ok(Place::Top)
    }
}

// The menu that is shown in place of the top: one that is alone there.
fn shown_alone(
    alloc: Global,
    image: &Image<'_>,
    values: &Values,
    tops: &[MenuNo],
) -> Result<Place, AllocError>
    requires { AreDeviceValues (types_in image.now) values.now.numbers.items }
    ensures { IfOk result (ShowsAlone (counts_in image.now)
        (reads_of image.now values.now.numbers.items) tops.now) }
{
    match tops {
        [only] => shown_menu(alloc, image, values, *only),
        _ => Ok(Place::Top),
    }
}

/// The place that is shown for another: in place of the top, where it would be one menu alone, that
/// menu.
pub fn shown_place(
    alloc: Global,
    image: &Image<'_>,
    values: &Values,
    place: Place,
) -> Result<Place, AllocError>
    requires { AreDeviceValues (types_in image.now) values.now.numbers.items }
    ensures { IfOk result (IsShownAt (counts_in image.now)
        (reads_of image.now values.now.numbers.items) place) }
{
    match place {
        Place::Top => {
            let tops = top_menus(alloc, image, values)?;
            shown_alone(alloc, image, values, &tops)
        }
        Place::Menu(_) | Place::Collection(_) => Ok(place),
    }
}

// The lines of a place itself.
fn list_place(
    alloc: Global,
    image: &Image<'_>,
    values: &Values,
    place: Place,
) -> Result<Listing, AllocError>
    requires { AreDeviceValues (types_in image.now) values.now.numbers.items }
    ensures { IfOk result (λ listing. ShowsPlace (counts_in image.now)
        (reads_of image.now values.now.numbers.items) place listing.lines.items listing.trap) }
{
    match place {
        Place::Top => {
            let written = top_lines(alloc, image, values)?;
            let lines = shown_of(alloc, image, values, &written)?;
            Ok(Listing { lines, trap: None })
        }
        Place::Menu(menu) => list_attribute(alloc, image, values, ItemNo::Menu(menu), Attr::Items),
        Place::Collection(collection) => list_attribute(
            alloc,
            image,
            values,
            ItemNo::Collection(collection),
            Attr::Members,
        ),
    }
}

/// The lines of the screen of a place.
pub fn list_entries(
    alloc: Global,
    image: &Image<'_>,
    values: &Values,
    place: Place,
) -> Result<Listing, AllocError>
    requires { AreDeviceValues (types_in image.now) values.now.numbers.items }
    ensures { IfOk result (λ listing. IsScreen (counts_in image.now)
        (reads_of image.now values.now.numbers.items) place listing.lines.items listing.trap) }
{
    let shown = shown_place(alloc, image, values, place)?;
    list_place(alloc, image, values, shown)
}
