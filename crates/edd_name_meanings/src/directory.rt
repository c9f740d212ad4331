//! The names of a unit: its items, and the members of its collections.

ghost use Rattle.std.specs.Prelude.{◌≡◌, ℕ, [], filter, option_and_then, slice_get};
ghost use Rattle.edd_syntax.specs.declared.numbers.Kind.TheVariants as kind;
ghost use Rattle.edd_syntax.specs.Item.{kind_of_item};
ghost use Rattle.edd_syntax.specs.ItemView.{named_items};
ghost use Rattle.edd_syntax.specs.Numbers.{same_kind};
ghost use Rattle.edd_syntax.specs.Resolution.{look_up, member_in, numbered_names};
ghost use Rattle.edd_syntax.specs.Text.{Name};
ghost use Rattle.edd_name_meanings.specs.Members.{found_in};
ghost use Rattle.edd_name_meanings.specs.Numbering.{at};

use crate::members::Collection;
use edd_syntax::item::{Identification, Item};
use edd_syntax::numbers::ItemNo;
use edd_syntax::reference::Path;
use indexmap::IndexMap;
use std::alloc::Global;

/// The items of a unit and the members of its collections by their names.
#[derive(Drop)]
pub struct Names<'a> {
    pub identification: Identification,
    pub items: &'a [Item<Path>],
    pub numbers: IndexMap<&'a str, ItemNo>,
    pub collections: Vec<Collection<'a>>,
    pub alloc: Global,
    pub ghost numbered: { (q : Name)
        → at q numbers ≡ look_up q (numbered_names [] (named_items items.now)) },
    pub ghost collected: { (n : ℕ) (q : Name)
        → option_and_then (λ c. found_in c q) (slice_get collections.items n)
        ≡ option_and_then (λ i. member_in i q) (slice_get (filter
        (λ i. same_kind (kind_of_item i.sort) kind.Collection) (named_items items.now)) n) },
}
