//! Expressions, conditionals and what is under them, with the meaning of each name in its place.
#![tactic(auto)]

pub mod conditionals;
pub mod exprs;
pub mod texts;
mod values;
