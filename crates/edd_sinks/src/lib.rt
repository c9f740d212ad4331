//! Texts and lists that grow, and say at their end alone whether memory was refused: so what adds to
//! them answers nothing.
#![tactic(auto)]

mod list;
mod text;

pub use list::ListSink;
pub use text::TextSink;
