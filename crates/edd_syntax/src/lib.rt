//! The source of a device description: its trees, and what they mean.
#![tactic(auto)]

pub mod answer;
mod arguments;
pub mod checked;
mod compact_string;
pub mod cond;
mod elements;
pub mod expr;
pub mod item;
pub mod laws;
pub mod limits;
pub mod numbers;
pub mod operators;
pub mod reference;
pub mod resolved;
pub mod rows;
pub mod stmt;
pub mod symbols;
mod tables;
pub mod text;
pub mod types;
pub mod unit;
mod version;
pub mod words;
pub mod wrap;
