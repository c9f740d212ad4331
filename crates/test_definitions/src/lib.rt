//! Worked examples of the definitions, each a law that is a closed equation: bytes, texts, runs of
//! methods with their answers and abort methods, arrays, and the fields of an image. The values are
//! worked out by hand.
#![tactic(auto)]

mod aborts;
mod answers;
mod arrays;
mod collections;
mod instructions;
mod layouts;
mod numbers;
mod operators;
mod statements;
mod texts;
mod values;

pub use aborts::{aborted_methods, listed_methods};
pub use answers::{answered_requests, answers_set_in_order};
pub use arrays::{
    array_sources, elements_by_number, elements_in_attributes, elements_of_one_number,
};
pub use collections::members_of_members;
pub use instructions::{basic_bytes, jump_bytes, operator_bytes, record_bytes, request_bytes};
pub use layouts::second_version;
pub use numbers::{attribute_numbers, record_numbers, type_and_kind_numbers};
pub use operators::{assigned_values, increments, stored_values, wrapped_values};
pub use statements::{locals_jumped_over, switches};
pub use texts::{escapes, texts_for_languages};
pub use values::{comparisons, unary_values, values_of_64_bits};
