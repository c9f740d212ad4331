//! The compiler: the bytes of an image from a text, and the theorem on them.
#![tactic(auto)]

mod compiling;
mod fault;
mod lowering;
mod source;

pub use compiling::{compile, image_from};
pub use fault::Fault;
pub use source::{checked_from, checked_of, tokens_of, unit_from, unit_of};
