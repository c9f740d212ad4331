//! What a user asks for, and what comes of it.

use crate::fault::EditFault;
use edd_port::StartFault;
use edd_syntax::answer::{Answer, Trap};
use edd_syntax::numbers::{MethNo, VarNo};

/// What a user asks for.
#[derive(Clone, Copy)]
pub enum Command {
    /// Acknowledges, or goes on.
    Enter,
    /// Leaves a variable or a menu.
    Back,
    /// The entry of a menu, the value of a variable, a choice or a code, as the place has it.
    Number(i64),
    /// Aborts the method that asks.
    Abort,
}

/// What came of a command.
#[derive(Drop)]
pub enum Happened {
    /// Nothing changed.
    Shown,
    /// The user is at another place.
    Moved,
    /// The variable was set to the number.
    Edited(VarNo, i64),
    /// The number was not taken, and nothing changed.
    Refused(EditFault),
    /// A method runs from its start.
    Started(MethNo),
    NotStarted(StartFault),
    /// The pending request got this answer.
    Answered(Answer),
    /// There is no such entry.
    NoEntry,
    /// Whether the entry is there can't be told: its VALIDITY traps.
    Trapped(Trap),
    /// The command means nothing at this place.
    Unknown,
}

/// What a command says to a request.
#[derive(Drop)]
pub enum Said {
    Answer(Answer),
    Refused(EditFault),
    /// It is no answer.
    Nothing,
}
