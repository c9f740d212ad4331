//! What is found in a text: the image that it has, or why it has none and the rules that it breaks,
//! each at its place.
//!
//! Proved is that a text is accepted with its image, or refused for a fault of its own, in the words
//! that the compiler prints; and that of a text that breaks a rule the breaches are listed, but for
//! what only follows from another one, each with its words, its line and its place.
#![tactic(auto)]

mod breaches;
mod found;
mod judging;
mod verdict;

pub use edd_breach_places::Span;
pub use edd_breaches::RuleFault;
pub use edd_compiler::Fault;
pub use found::Found;
pub use judging::judge;
pub use verdict::{Accepted, Refused, Verdict};
