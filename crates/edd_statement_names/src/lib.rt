//! Statements and bodies of methods with the meaning of each name in its place.
#![tactic(auto)]

mod declarators;
pub mod statements;
