//! What must differ: names of a scope, words of attributes, and numbers of elements.
//!
//! Proved is that each one that is there already is told at its own token, and no other.
#![tactic(auto)]

mod elements;
mod seen;

pub use elements::tell_elements;
pub use seen::{Seen, add, note_name, note_word};
