//! A description with the meaning of each name in its place.
#![tactic(auto)]

mod attributes;
mod braces;
mod resolving;
mod texts;
mod unit_items;

pub use resolving::{resolve, tell_names};
