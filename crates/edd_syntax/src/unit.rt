//! A description as the parser makes it.

ghost use Rattle.std.specs.Prelude.{◌≡◌, ◌++◌, ◌∷◌, [], IsTrue, OnErr, OnOk};
ghost use Rattle.edd_syntax.specs.WellFormed.{are_items, is_item, is_path, is_plain};
ghost use Rattle.edd_syntax.specs.TreeView.{path_of};
ghost use Rattle.edd_syntax.specs.ItemView.{item_of, named_items};

use crate::item::{Identification, Item};
use crate::reference::Path;
use std::alloc::{AllocError, Global};

/// A description, whose references are names. Each attribute is one of its item's kind, a single
/// value has one value in each branch, trees have a height of at most 100, names and numbers are
/// tokens, and each backslash of a text begins an escape.
#[derive(Drop)]
pub struct Unit {
    pub identification: Identification,
    pub items: Vec<Item<Path>>,
    pub ghost kept: { IsTrue (are_items (named_items items.items)) },
}

impl Unit {
    /// A unit without items.
    pub fn new(alloc: Global, identification: Identification) -> Unit
        ensures identification { result.identification ≡ identification }
        ensures items { named_items result.items.items ≡ [] }
    {
        Unit {
            identification,
            items: Vec::new(alloc),
        }
    }

    /// One more item, whose tree keeps what a unit's trees keep.
    pub fn push(&mut self, item: Item<Path>) -> Result<(), AllocError>
        requires { IsTrue (is_item is_path is_plain (item_of path_of item)) }
        ensures identification { self.new.identification ≡ self.old.identification }
        ensures sound { OnOk result
            (named_items self.new.items.items
            ≡ named_items self.old.items.items ++ item_of path_of item ∷ []) }
        ensures kept { OnErr result (named_items self.new.items.items
            ≡ named_items self.old.items.items) }
    {
        self.items.push(item)?;
        Ok(())
    }
}
