//! Texts in several languages: the variants of a text of the source, the table of a description's
//! strings, and the text for a language.
#![tactic(auto)]

mod choice;
mod codes;
mod escapes;
mod fault;
mod parts;
mod source;
mod table;

pub use choice::choose;
pub use fault::StringFault;
pub use source::{key, split};
pub use table::Table;
