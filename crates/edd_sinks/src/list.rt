//! Lists that grow.

use std::alloc::{AllocError, Global};

/// A list that grows. An item for which memory is refused is left out, and there is no list in the
/// end.
#[derive(Drop)]
pub struct ListSink<T> {
    /// The items so far.
    pub items: Vec<T>,
    is_refused: bool,
}

impl<T: Drop> ListSink<T> {
    pub fn new(alloc: Global) -> ListSink<T> {
        ListSink {
            items: Vec::new(alloc),
            is_refused: false,
        }
    }

    pub fn push(&mut self, item: T) {
        if self.items.push(item).is_err() {
            self.refuse();
        }
    }

    /// Notes that memory for an item, or for a part of one, was refused.
    pub fn refuse(&mut self) {
        self.is_refused = true;
    }

    /// Whether there was memory for all items.
    pub fn check(&self) -> Result<(), AllocError> {
        if self.is_refused {
            Err(AllocError)
        } else {
            Ok(())
        }
    }

    /// The whole list.
    pub fn finish(self) -> Result<Vec<T>, AllocError> {
        self.check()?;
        Ok(self.items)
    }
}

impl<T: Copy + Drop> ListSink<T> {
    /// Adds all of these items or none.
    pub fn extend_from_slice(&mut self, items: &[T]) {
        if self.items.extend_from_slice(items).is_err() {
            self.refuse();
        }
    }
}
