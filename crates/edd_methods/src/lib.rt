//! The code of methods, and its laws.
#![tactic(auto)]

mod labels;
mod laws;
mod loops;
mod method;
mod pieces;
mod slots;
mod statements;

pub use laws::{
    bodies_are_followed, bodies_are_short, bodies_are_spelled, bodies_do_what_they_say,
    calls_of_methods_fit, checked_code_is_the_methods, checked_code_is_valid,
    checked_expressions_are_spelled, checked_methods_are_short, checked_methods_have_their_code,
    code_does_what_it_performs, code_sizes_are_lengths, declarators_have_slots,
    expressions_are_listed, expressions_of_methods_are_low, flowing_code_is_valid,
    followed_units_agree, loops_are_turns, methods_agree, methods_have_their_slots,
    statements_do_what_they_say, units_follow_their_code, valid_answers_can_be_taken,
    valid_code_is_the_methods,
};
pub use method::{MethodCode, lower_found, lower_method};
