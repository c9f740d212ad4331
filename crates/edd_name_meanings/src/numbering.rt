//! The numbers of items by their names.

ghost use Rattle.std.specs.Prelude.{◌≡◌, ◌+◌, ◌<◌, [], false, None, IfOk, OnOk, map, nat_lt, if◌then◌else◌};
ghost use Rattle.std.specs.Option.{option_or};
ghost use Rattle.std.specs.List.{list_any};
ghost use Rattle.edd_syntax.specs.declared.numbers.Kind.{Kind};
ghost use Rattle.edd_syntax.specs.Item.{kind_of_item};
ghost use Rattle.edd_syntax.specs.ItemView.{item_of};
ghost use Rattle.edd_syntax.specs.NameRules.{item_limit};
ghost use Rattle.edd_syntax.specs.Numbers.{item_number, same_kind};
ghost use Rattle.edd_syntax.specs.Resolution.{count_of, kinds, look_up, numbered_names};
ghost use Rattle.edd_syntax.specs.Text.{Name};
ghost use Rattle.edd_syntax.specs.TreeView.{path_of};
ghost use Rattle.edd_name_meanings.specs.Numbering.{at, if_named, count_in};

use edd_syntax::item::Item;
use edd_syntax::numbers::{ItemNo, Kind};
use edd_syntax::reference::Path;
use indexmap::IndexMap;
use std::alloc::{AllocError, Global};

/// How many items of each kind there were.
#[derive(Clone, Copy)]
pub struct Counts {
    pub variables: u16,
    pub commands: u16,
    pub menus: u16,
    pub collections: u16,
    pub methods: u16,
    pub arrays: u16,
}

impl Counts {
    fn none() -> Counts
        ensures { (k : Kind) → count_in result k ≡ 0 }
    {
        Counts {
            variables: 0,
            commands: 0,
            menus: 0,
            collections: 0,
            methods: 0,
            arrays: 0,
        }
    }

    // How many items of a kind there were.
    fn of(&self, kind: Kind) -> u16
        ensures { result ≡ count_in self.now kind }
    {
        match kind {
            Kind::Variable => self.variables,
            Kind::Command => self.commands,
            Kind::Menu => self.menus,
            Kind::Collection => self.collections,
            Kind::Method => self.methods,
            Kind::Array => self.arrays,
        }
    }

    // One more item of a kind.
    fn count(&mut self, kind: Kind)
        requires { count_in self.old kind < 65535 }
        ensures { (k : Kind) → count_in self.new k ≡ count_in self.old k
            + (if same_kind kind k then 1 else 0) }
    {
        match kind {
            Kind::Variable => self.variables += 1,
            Kind::Command => self.commands += 1,
            Kind::Menu => self.menus += 1,
            Kind::Collection => self.collections += 1,
            Kind::Method => self.methods += 1,
            Kind::Array => self.arrays += 1,
        }
    }
}

/// Puts a value at a name, unless one is there already.
pub fn put_first<'a, V: Copy>(
    map: &mut IndexMap<&'a str, V>,
    name: &'a str,
    value: V,
) -> Result<(), AllocError>
    ensures { OnOk result ((q : Name)
        → at q map.new ≡ option_or (at q map.old) (if_named name.now q value)) }
{
    match map.insert(name, value)? {
        None => Ok(()),
        Some(first) => {
            map.insert(name, first)?;
            Ok(())
        }
    }
}

// The number of one more item, and the counts after it.
fn number_item<'a>(
    item: &'a Item<Path>,
    numbers: &mut IndexMap<&'a str, ItemNo>,
    counts: &mut Counts,
) -> Result<(), AllocError>
    requires { count_in counts.old (kind_of_item (item_of path_of item.now).sort) < 65535 }
    ensures sound { OnOk result ((q : Name) → at q numbers.new
        ≡ option_or (at q numbers.old) (if_named (item_of path_of item.now).name q
        (item_number (kind_of_item (item_of path_of item.now).sort)
        (count_in counts.old (kind_of_item (item_of path_of item.now).sort))))) }
    ensures counted { OnOk result ((k : Kind) → count_in counts.new k
        ≡ count_in counts.old k + (if same_kind (kind_of_item (item_of path_of item.now).sort) k
        then 1 else 0)) }
{
    let kind = item.kind();
    put_first(numbers, item.name(), kind.item(counts.of(kind)))?;
    counts.count(kind);
    Ok(())
}

fn number_all<'a>(
    items: &'a [Item<Path>],
    numbers: &mut IndexMap<&'a str, ItemNo>,
) -> Result<(), AllocError>
    requires few { list_any (λ k. nat_lt item_limit (count_of k (map (item_of path_of) items.now)))
        kinds ≡ false }
    requires none { (q : Name) → at q numbers.old ≡ None }
    ensures { OnOk result ((q : Name)
        → at q numbers.new ≡ look_up q (numbered_names [] (map (item_of path_of) items.now))) }
{
    let mut counts = Counts::none();
    for item in items {
        number_item(item, numbers, &mut counts)?;
    }
    Ok(())
}

/// The numbers of the items by their names. Of items of one name the first counts.
pub fn number_items<'a>(
    items: &'a [Item<Path>],
    alloc: Global,
) -> Result<IndexMap<&'a str, ItemNo>, AllocError>
    requires few { list_any (λ k. nat_lt item_limit (count_of k (map (item_of path_of) items.now)))
        kinds ≡ false }
    ensures { IfOk result (λ m. (q : Name)
        → at q m ≡ look_up q (numbered_names [] (map (item_of path_of) items.now))) }
{
    let mut numbers = IndexMap::new(alloc);
    number_all(items, &mut numbers)?;
    Ok(numbers)
}
