//! The tokens of a device description, or its first lexical fault.
#![tactic(auto)]

mod bytes;
pub mod fault;
mod gaps;
mod keywords;
pub mod laws;
mod lexer;
mod lines;
mod numbers;
mod strings;
mod symbols;
pub mod token;

pub use lexer::lex;
pub use lines::line_of;
