//! A rule that a description breaks, at its token, and the list of those that were told.
#![tactic(auto)]

mod breach;
mod fault;
mod telling;

pub use breach::{Breach, Rule};
pub use fault::RuleFault;
pub use telling::{tell, tell_clash};
