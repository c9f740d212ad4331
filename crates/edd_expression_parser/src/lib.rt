//! The expressions and conditionals that the tokens of a description spell.
#![tactic(auto)]

pub mod cond;
pub mod expr;
pub mod trees;
mod values;
