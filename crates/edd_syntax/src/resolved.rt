//! A description with the meaning of its names.

ghost use Rattle.std.specs.Prelude.{◌≡◌, IfOk};
ghost use Rattle.edd_syntax.specs.ItemView.{identification_of, numbered_items};
ghost use Rattle.edd_syntax.specs.Resolved.{IsResolved, description};

use crate::item::{Identification, Item};
use crate::reference::Target;
use std::alloc::{AllocError, Global};
use std::rc::Rc;

/// A description whose references are targets. It comes from a unit whose names all mean something,
/// and in which no rule on counts, names and attributes is broken.
#[derive(Drop)]
pub struct Resolved {
    pub identification: Identification,
    pub items: Rc<Vec<Item<Target>>>,
    pub ghost resolved: { ∥ IsResolved
        (description (identification_of identification) (numbered_items items.value.items)) ∥₁ },
}

impl Resolved {
    /// A resolved description of these items.
    pub fn new(
        alloc: Global,
        identification: Identification,
        items: Vec<Item<Target>>,
    ) -> Result<Resolved, AllocError>
        requires { IsResolved (description (identification_of identification)
            (numbered_items items.items)) }
        ensures identification { IfOk result (λ r. r.identification ≡ identification) }
        ensures items { IfOk result (λ r. r.items.value.items ≡ items.items) }
    {
        Ok(Resolved {
            identification,
            items: Rc::new(alloc, items)?,
        })
    }
}
