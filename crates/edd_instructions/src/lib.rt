//! The instructions of an image: their bytes, the units that they make, valid images, and what is
//! read and run of them.
#![tactic(auto)]

mod decoding;
mod emitter;
mod encoding;
mod instruction;
mod laws;
mod records;
mod requests;
mod rules;
mod unit;
pub mod worked;

pub use decoding::decode;
pub use emitter::{Emitter, Hole};
pub use encoding::{Encoding, encode, head};
pub use instruction::{Ask, Instruction, Jump};
pub use laws::{
    answers_keep_the_state, followed_runs_agree, openings_are_states, read_is_spelled,
    readings_are_unique, requests_are_met, runs_keep_the_state, runs_may_be_cut,
    sound_parts_are_valid, spelled_is_read, steps_are_counted, steps_keep_the_state,
    what_is_over_stays,
};
pub use records::{Emitted, Record, Status};
pub use requests::{Request, RequestArgument, RequestArguments, Wanted};
pub use rules::{Rule, UnitRule};
pub use unit::{Context, Sort, Way};
