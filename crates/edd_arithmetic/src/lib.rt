//! The operators on numbers, at the width of an attribute or of a method.
#![tactic(auto)]

mod arithmetic;

pub use arithmetic::{
    apply, compare, complement, holds, logical_not, negate, operate, trap_of, wrapped,
    wrapped_constant,
};
