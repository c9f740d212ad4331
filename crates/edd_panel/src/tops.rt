//! The menus that no other menu names.

ghost use Rattle.std.specs.Prelude.{◌≡◌, ◌++◌, length, IfOk, OnOk};
ghost use Rattle.edd_syntax.specs.declared.numbers.Attr.TheVariants as attr;
ghost use Rattle.edd_syntax.specs.declared.numbers.ItemNo.TheVariants as items;
ghost use Rattle.edd_syntax.specs.DeviceValues.{AreDeviceValues};
ghost use Rattle.edd_image.specs.Fields.{counts_in};
ghost use Rattle.edd_instructions.specs.Reading.{Reading};
ghost use Rattle.edd_machine.specs.Types.{types_in};
ghost use Rattle.edd_panel.specs.Edits.{reads_of};
ghost use Rattle.edd_panel.specs.Found.{reading_of};
ghost use Rattle.edd_panel.specs.Screens.{AreTops, all_marked, mark_entries, mark_entry, of_item, records_of, tops_of, unmarked};

use crate::entries::read_item;
use crate::found::Found;
use edd_instructions::Record;
use edd_loader::Image;
use edd_machine::Values;
use edd_syntax::numbers::{Attr, ItemNo, MenuNo};
use std::alloc::{AllocError, Global};

// Marks the menu that an entry of a menu names, but that menu itself.
fn mark_entry(of: MenuNo, entry: Record, named: &mut [bool])
    ensures { named.new ≡ mark_entry of.0 entry named.old }
{
    if let Record::Entry {
        item: ItemNo::Menu(menu),
        ..
    } = entry
    {
        if menu.0 != of.0 && usize::from(menu.0) < named.len() {
            named[usize::from(menu.0)] = true;
        }
    }
}

// Marks the menus that are among the entries of a menu, but that menu itself.
fn mark_entries(of: MenuNo, entries: &[Record], named: &mut [bool])
    ensures { named.new ≡ mark_entries of.0 entries.now named.old }
{
    for entry in entries {
        mark_entry(of, *entry, named);
    }
}

// Marks the menus that a menu names by what was read of its ITEMS.
fn mark_found(found: &Found, menu: MenuNo, named: &mut Vec<bool>)
    ensures { named.new.items
        ≡ mark_entries menu.0 (records_of (reading_of found.now)) named.old.items }
{
    match found {
        Found::Records(records) => mark_entries(menu, records, named.as_mut_slice()),
        Found::Nothing | Found::Trap(_) => {}
    }
}

// Marks the menus that a menu names under the values.
fn mark_named(
    alloc: Global,
    image: &Image<'_>,
    values: &Values,
    menu: MenuNo,
    named: &mut Vec<bool>,
) -> Result<(), AllocError>
    requires { AreDeviceValues (types_in image.now) values.now.numbers.items }
    ensures { OnOk result ((r : Reading) × reads_of image.now values.now.numbers.items
        (of_item (items.Menu menu) attr.Items) r
        × (named.new.items ≡ mark_entries menu.0 (records_of r) named.old.items)) }
{
    let found = read_item(alloc, image, values, ItemNo::Menu(menu), Attr::Items)?;
    mark_found(&found, menu, named);
    Ok(())
}

fn all_marked(named: &[bool]) -> bool
    ensures { result ≡ all_marked named.now }
{
    for mark in named {
        if !*mark {
            return false;
        }
    }
    true
}

// Adds a menu, where it has no mark, or where all are taken.
fn add_unmarked(
    all: bool,
    number: u16,
    mark: bool,
    menus: &mut Vec<MenuNo>,
) -> Result<(), AllocError>
    ensures { OnOk result (menus.new.items ≡ menus.old.items ++ unmarked all number mark) }
{
    if all || !mark {
        menus.push(MenuNo(number))?;
    }
    Ok(())
}

// The menus without a mark, or all where each has one.
fn unmarked(alloc: Global, count: u16, named: &[bool]) -> Result<Vec<MenuNo>, AllocError>
    requires { length named.now ≡ count }
    ensures { IfOk result (λ menus. menus.items ≡ tops_of named.now) }
{
    let all = all_marked(named);
    let mut menus = Vec::new(alloc);
    for number in 0..count {
        add_unmarked(all, number, named[usize::from(number)], &mut menus)?;
    }
    Ok(menus)
}

/// The menus that no other menu names under the values, or all where each is named by one.
pub fn top_menus(
    alloc: Global,
    image: &Image<'_>,
    values: &Values,
) -> Result<Vec<MenuNo>, AllocError>
    requires { AreDeviceValues (types_in image.now) values.now.numbers.items }
    ensures { IfOk result (λ menus. AreTops (counts_in image.now)
        (reads_of image.now values.now.numbers.items) menus.items) }
{
    let count = image.counts().menus;
    let mut named = vec![in alloc; false; usize::from(count)]?;
    for number in 0..count {
        mark_named(alloc, image, values, MenuNo(number), &mut named)?;
    }
    unmarked(alloc, count, &named)
}
