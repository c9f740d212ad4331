//! A device that is simulated by a description of its own: what it does with the requests of a
//! method of its instrument.
#![tactic(auto)]

mod copying;
mod device;
mod fault;
mod laws;
mod messages;
mod methods;
mod names;
mod playing;
mod starting;

pub use device::Device;
pub use fault::DeviceFault;
pub use laws::{replies_are_unique, sets_are_of_the_reply};
pub use playing::Trial;
