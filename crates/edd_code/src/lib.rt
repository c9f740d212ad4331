//! What the lowerings of attributes and methods share: code in blocks, the code of expressions, the
//! strings that code names, and where items are.
#![tactic(auto)]

mod arguments;
mod emit;
mod expression;
mod expression_laws;
mod fault;
mod items;
mod laws;
mod method_laws;
mod requests;
mod storing;
mod strings;
mod texts;
mod value;

pub use emit::{close, open, put};
pub use expression::write_expression;
pub use expression_laws::{
    expressions_are_short, expressions_are_spelled, expressions_flow, expressions_mean_their_values,
};
pub use fault::LowerFault;
pub use items::attributes_at;
pub use laws::{
    attributes_are_a_case, blocks_are_followed, blocks_are_valid, blocks_come_to_their_outcomes,
    sizes_are_lengths,
};
pub use method_laws::{
    aborts_are_one_instruction, attributes_have_the_same_blocks, checked_calls_fit,
    method_expressions_are_short, method_expressions_are_spelled, method_expressions_flow,
    method_expressions_mean_their_values,
};
pub use storing::write_store;
pub use strings::{add_name, add_optional, add_text};
pub use value::write_value;
