//! Looking names up.

ghost use Rattle.std.specs.Prelude.{◌≡◌, false, IfOk, nat_lt, option_map};
ghost use Rattle.std.specs.List.{list_any};
ghost use Rattle.edd_syntax.specs.declared.numbers.ItemNo.TheVariants as item_no;
ghost use Rattle.edd_syntax.specs.ItemView.{named_items, member_of};
ghost use Rattle.edd_syntax.specs.NameRules.{item_limit};
ghost use Rattle.edd_syntax.specs.Resolution.{count_of, item_named, kinds, member_at};
ghost use Rattle.edd_syntax.specs.TreeView.{path_of};
ghost use Rattle.edd_name_meanings.specs.Directory.{description_of};

use crate::directory::Names;
use crate::members::collections;
use crate::numbering::number_items;
use edd_syntax::item::{Identification, Item, Member};
use edd_syntax::numbers::{CollNo, ItemNo, Kind};
use edd_syntax::reference::Path;
use std::alloc::{AllocError, Global};

impl<'a> Names<'a> {
    /// The names of a unit with these items.
    pub fn new(
        alloc: Global,
        identification: Identification,
        items: &'a [Item<Path>],
    ) -> Result<Names<'a>, AllocError>
        requires few { list_any (λ k. nat_lt item_limit (count_of k (named_items items.now))) kinds
            ≡ false }
        ensures identification { IfOk result (λ n. n.identification ≡ identification) }
        ensures items { IfOk result (λ n. n.items.now ≡ items.now) }
    {
        let numbers = number_items(items, alloc)?;
        let collections = collections(items, alloc)?;
        Ok(Names {
            identification,
            items,
            numbers,
            collections,
            alloc,
        })
    }

    /// The item of a name.
    pub fn item(&self, name: &str) -> Option<ItemNo>
        ensures { result ≡ item_named (description_of self.now) name.now }
    {
        self.numbers.get(name).copied()
    }

    /// The member of a collection, and the kind after OF.
    pub fn member(&self, collection: CollNo, name: &str) -> Option<(&'a Member<Path>, Kind)>
        ensures { option_map (λ m. (member_of path_of m.0.now, m.1)) result
            ≡ member_at (description_of self.now) (item_no.Collection collection) name.now }
    {
        let found = self.collections.get(usize::from(collection.0))?;
        found.member(name)
    }
}
