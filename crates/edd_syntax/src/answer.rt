//! What a host answers to the request of a method, and why a method traps.

use crate::numbers::VarNo;

/// The answer to a request.
#[derive(Drop)]
pub enum Answer {
    /// The method goes on with `code` as the request's value, after the variables were set in
    /// order.
    Go { code: i32, sets: Vec<(VarNo, i64)> },
    /// The run is aborted: its abort methods run first, and then it is over.
    Abort,
}

/// Why an expression has no value.
#[derive(Clone, Copy, PartialEq, Eq, Debug)]
pub enum Trap {
    /// A division by 0, or its remainder.
    DivZero,
    /// The least number divided by -1, or its remainder.
    DivOverflow,
    /// A shift by less than 0 or by the width or more.
    BadShift,
    /// An array that has no element of the number.
    NoElement,
}
