//! A communicator over an image: menus, edits of variables and methods that ask, as a machine over
//! commands.
#![tactic(auto)]

mod choices;
mod command;
mod deciding;
mod edits;
mod entries;
mod fault;
mod found;
mod laws;
mod panel;
mod place;
mod replies;
mod rules;
mod starting;
mod tops;

pub use choices::text_of_choices;
pub use command::{Command, Happened};
pub use deciding::value_of;
pub use edits::{bits_of, first_number, handling_fault, is_enumerator};
pub use entries::{Entry, Listed, Listing, list_entries, shown_place};
pub use fault::EditFault;
pub use found::{Found, read};
pub use laws::{edits_are_decided, sittings_are_explained};
pub use panel::Panel;
pub use place::{Field, Level, Place};
pub use rules::{EditRules, of_variable, rules_of};
pub use starting::start_values;
