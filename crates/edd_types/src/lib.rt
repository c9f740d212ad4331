//! The check of a description against the profile.
#![tactic(auto)]

mod attributes;
mod breaks;
mod calls;
mod checking;
mod conditionals;
mod expressions;
mod labels;
mod options;
mod rules;
mod sought;
mod statements;
mod types;
mod values;

pub use checking::check;
pub use rules::tell_profile;
pub use sought::Calls;
