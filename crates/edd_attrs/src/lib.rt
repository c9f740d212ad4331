//! The code of attributes.
#![tactic(auto)]

mod attribute;
mod conditions;
mod elements;
mod items;
mod laws;
mod lists;
mod lowering;
mod trees;

pub use attribute::{lower_attribute, lower_found};
pub use laws::strings_are_the_descriptions;
