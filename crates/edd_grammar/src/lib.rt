//! The grammar read from left to right: which tree tokens spell, and that there is one at most.
#![tactic(auto)]

pub mod laws;
