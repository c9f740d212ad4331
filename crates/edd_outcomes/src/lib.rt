//! Whether a maker's test passes, what it printed beside what it expects, and how many tests pass.
#![tactic(auto)]

mod comparing;
mod forbidden;
mod refusals;
mod score;

pub use comparing::{Difference, compare};
pub use refusals::refusal_in;
pub use score::{Compared, Counts, Outcome, Score, count};
