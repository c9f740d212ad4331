//! The machine: values of a device, the steps of a unit, and what is read of an attribute.
#![tactic(auto)]

mod abort_methods;
mod code_unit;
mod fault;
mod laws;
mod machine;
mod operands;
mod outcome;
mod ranges;
mod reading;
mod rows;
mod sets;
mod values;

pub use abort_methods::AbortMethods;
pub use code_unit::{CodeUnit, code_of};
pub use fault::{ReadFault, SetFault, ValuesFault};
pub use laws::{
    answers_stay_in_the_unit, asking_has_room, bodies_open_as_their_rows, values_may_be_set,
};
pub use machine::Machine;
pub use operands::Operands;
pub use ranges::stored;
pub use reading::{attribute, attribute_of_device};
pub use rows::find_body;
pub use sets::set_fault;
pub use values::{Values, are_values};
