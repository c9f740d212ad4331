//! The parts of an image, from a checked description, the code of its attributes and its strings,
//! and how many strings and how much code a description comes to.
#![tactic(auto)]

mod bounds;
mod counts;
mod laws;
mod lengths;
mod names;
mod parts;
mod strings;
mod units;

pub use bounds::{
    code_is_short, different_strings_count, nodes_of_rows, nodes_stay, strings_stand_in_rows,
};
pub use laws::{
    method_code_is_body_code, methods_agree, sections_agree, sections_are_read, sections_are_sound,
};
pub use parts::assemble;
pub use units::Lowered;
