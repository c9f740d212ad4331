//! A maker's tests: a file of tests as cases, what a run prints, and the file with what was seen.
#![tactic(auto)]

mod cases;
mod fault;
mod lines;
mod names;
mod printed;
mod renewing;
mod settings;

pub use cases::{Case, Tests, read_tests};
pub use fault::{Misread, TestFault};
pub use lines::{Line, Says, without_end};
pub use names::beside;
pub use printed::{Printed, Seen};
pub use renewing::{Piece, push_as_it_is, push_case, renewed};
pub use settings::{Description, Form, Kind};
