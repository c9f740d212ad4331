//! Where in a text a broken rule is shown: at which token.
#![tactic(auto)]

mod places;
mod span;

pub use places::place_of;
pub use span::Span;
