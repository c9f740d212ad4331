//! Sessions: runs of a method that are advanced, asked and answered. Hosts answer them.
#![tactic(auto)]

mod answers;
mod depths;
mod driving;
mod fault;
mod host;
mod laws;
mod playing;
mod runs;
mod session;
mod steps;
mod suspension;
mod turn;

pub use driving::drive;
pub use fault::{AnswerFault, PlayFault, StartFault, fault_of_set};
pub use host::{Host, Reply};
pub use laws::{methods_may_be_suspended, sessions_may_be_cut, sets_may_be_made_first};
pub use playing::{Ending, Transcript, play};
pub use runs::is_run;
pub use session::Session;
pub use steps::{execute, go_on};
pub use suspension::Suspended;
pub use turn::{Drive, Turn, turn_of};
