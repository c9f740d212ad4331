//! A draft of a description's text, taken only where it is a layout of that text. Proved is that the
//! result has the same tokens, and the same bytes but for blanks, so that no comment is lost, and
//! that a text is refused for its lexical fault alone, or where memory runs out. The draft may be any
//! bytes.
#![tactic(auto)]

mod comments;
mod gaps;
mod kept;
mod layout;
mod same;

pub use layout::laid_out;
