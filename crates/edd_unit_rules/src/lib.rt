//! The rules on a unit of code: that it is a chain of instructions, that its jumps lead to some of
//! them, that each finds its operands, and that what it names exists.
#![tactic(auto)]

mod marks;
mod survey;
mod walk;
mod whole_unit;

pub use whole_unit::broken_in_unit;
