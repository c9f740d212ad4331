//! The tokens of a description, taken one after the other: signs, words, names, numbers and texts.
#![tactic(auto)]

mod belongs;
pub mod cursor;
pub mod fault;
pub mod left_out;
pub mod operators;
pub mod qualifiers;
pub mod texts;
mod token_text;
pub mod words;
