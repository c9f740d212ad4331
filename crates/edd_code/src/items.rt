//! The kind of an item and its attributes.

ghost use Rattle.std.specs.Prelude.{◌≡◌, if◌then◌else◌, map, option_map, slice_get, None, Some};
ghost use Rattle.edd_syntax.specs.Item.{kind_of_item};
ghost use Rattle.edd_syntax.specs.ItemView.{numbered_attribute, numbered_item};
ghost use Rattle.edd_syntax.specs.Numbers.{same_kind};
ghost use Rattle.edd_syntax.specs.Rows.{attributes_of_items};

use edd_syntax::item::{Attribute, Item};
use edd_syntax::numbers::Kind;
use edd_syntax::reference::Target;

// The attributes of an item of this kind.
fn attributes_of_kind<'a>(item: &'a Item<Target>, kind: Kind) -> Option<&'a [Attribute<Target>]>
    ensures { option_map (λ a. map numbered_attribute a.now) result
        ≡ (if same_kind (kind_of_item (numbered_item item.now).sort) kind
        then Some (numbered_item item.now).attributes else None) }
{
    if item.kind() == kind {
        Some(item.attributes())
    } else {
        None
    }
}

/// The attributes of an item by its number among those of its kind, of which it is found after the
/// others before it.
pub fn attributes_at<'a>(
    items: &'a [Item<Target>],
    kind: Kind,
    index: u16,
) -> Option<&'a [Attribute<Target>]>
    ensures { option_map (λ a. map numbered_attribute a.now) result
        ≡ slice_get (attributes_of_items kind (map numbered_item items.now)) index }
{
    let mut left = index;
    for item in items {
        if let Some(attributes) = attributes_of_kind(item, kind) {
            if left == 0 {
                return Some(attributes);
            }
            left -= 1;
        }
    }
    None
}
