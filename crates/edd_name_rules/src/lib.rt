//! What the items of a description must keep before their names are looked up: there are not too
//! many of anything, no name and no attribute is there twice, and no attribute is missing.
#![tactic(auto)]

mod attributes;
mod conditionals;
mod counts;
mod duplicates;
mod excess;
mod nodes;
mod repeats;
mod rules;
mod sizes;
mod slots;
mod values;

pub use rules::tell_rules;
