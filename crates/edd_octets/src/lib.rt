//! The octets of a command's messages: what a host sends, and what it takes from a reply.
#![tactic(auto)]

mod carriers;
mod decoding;
mod encoding;
mod fault;
mod fields;
mod laws;
mod masks;
mod messages;

pub use carriers::{readers, writers};
pub use decoding::{decode, number_of};
pub use encoding::encode;
pub use fault::OctetsFault;
pub use fields::{Field, Part, width_of};
pub use laws::{lengths_are_known, messages_arrive, octets_tell_bits, sets_can_be_made};
pub use masks::picked;
pub use messages::{Message, Side, message_fields};
