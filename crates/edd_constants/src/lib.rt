//! What is known of constant expressions: their numbers, and that they trap.
#![tactic(auto)]

mod constants;

pub use constants::{Known, evaluate, is_literal};
