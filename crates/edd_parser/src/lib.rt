//! The tree that the tokens of a description spell.
#![tactic(auto)]

mod attributes;
mod items;
mod parser;
mod rows;
mod types;

pub use edd_token_reader::fault;
pub use parser::parse;
