//! The statements and bodies of methods that the tokens of a description spell.
#![tactic(auto)]

mod declarators;
mod statement_trees;
pub mod statements;
