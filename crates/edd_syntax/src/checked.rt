//! A description that keeps to the profile.

ghost use Rattle.std.specs.Prelude.{◌≡◌, [], IfOk};
ghost use Rattle.edd_syntax.specs.ItemView.{identification_of, numbered_items};
ghost use Rattle.edd_syntax.specs.Resolved.{IsChecked, description};
ghost use Rattle.edd_syntax.specs.SubsetRules.{subset_breaches};

use crate::item::{Identification, Item};
use crate::reference::Target;
use crate::resolved::Resolved;
use std::alloc::AllocError;
use std::rc::Rc;

/// A resolved description in which no rule of the profile is broken.
#[derive(Drop)]
pub struct Checked {
    pub identification: Identification,
    pub items: Rc<Vec<Item<Target>>>,
    pub ghost checked: { ∥ IsChecked
        (description (identification_of identification) (numbered_items items.value.items)) ∥₁ },
}

impl Checked {
    /// The same description, which breaks no rule of the profile, and with which it shares its
    /// trees.
    pub fn new(resolved: &Resolved) -> Result<Checked, AllocError>
        requires no_breach { subset_breaches
            (description (identification_of resolved.now.identification)
            (numbered_items resolved.now.items.value.items)) ≡ [] }
        ensures identification { IfOk result (λ c. c.identification ≡ resolved.now.identification) }
        ensures items { IfOk result (λ c. c.items.value ≡ resolved.now.items.value) }
    {
        Ok(Checked {
            identification: resolved.identification,
            items: resolved.items.clone()?,
        })
    }
}
