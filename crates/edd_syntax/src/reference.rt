//! What names refer to.

use crate::numbers::{ItemNo, TokenNo};
use crate::operators::Builtin;
use crate::text::CompactString;

/// `name`, or `c.m` for a member of a collection, and so on.
#[derive(Drop)]
pub struct Path {
    /// Where its first name is; the others are after it, each behind a dot.
    pub at: TokenNo,
    pub base: CompactString,
    pub members: Vec<CompactString>,
}

/// A slot of the method, an item, or a builtin function.
#[derive(Clone, Copy, PartialEq, Eq, Debug)]
pub enum Target {
    Local(u8),
    Item(ItemNo),
    Function(Builtin),
}
