//! What names mean, at a place where items of some kinds may be.
#![tactic(auto)]

pub mod directory;
mod follow;
mod lookups;
pub mod members;
pub mod numbering;
mod path_steps;
pub mod references;
mod telling;
