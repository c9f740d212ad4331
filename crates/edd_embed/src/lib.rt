//! The calls on images over plain structs, as a program in C has them: numbers, and lists that the
//! caller has room for.
#![tactic(auto)]

mod answers;
mod carriers;
mod image;
mod keeping;
mod laws;
mod lookups;
mod octets;
mod playing;
mod reading;
mod records;
mod requests;
mod running;
mod sessions;
pub mod statuses;
mod turns;

pub use answers::{Given, Setting, answers_of};
pub use carriers::{Carrier, ListFault, reader_at, writer_at};
pub use image::{ImageNumbers, load_numbers};
pub use laws::sessions_are_of_any_values;
pub use lookups::{PlainItem, PlainType, Words, element_of, find_item, name_of, text_for, type_of};
pub use octets::{MessageFault, PlainMessage, decode_into, encode_into, message_of, plain_message};
pub use playing::{PlainEnding, PlayRefusal, play_into};
pub use reading::{AttributeFault, read_into, ref_of};
pub use records::{PlainRecord, plain_of, write_records};
pub use requests::{PlainRequest, plain_request, write_requests};
pub use running::{advance_session, answer_session, start_session, turn_session};
pub use sessions::PlainSession;
pub use turns::{PlainTurn, SessionRefusal, plain_turn};
