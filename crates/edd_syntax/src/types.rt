//! Words of the language that stand for one of a few things.

/// The type of a variable.
#[derive(Clone, Copy, PartialEq, Eq, Debug)]
pub enum VarType {
    Integer = 1,
    UnsignedInteger,
    Enumerated,
    BitEnumerated,
}

/// How a variable may be used.
#[derive(Clone, Copy, PartialEq, Eq, Debug)]
pub enum Handling {
    Read = 1,
    Write,
    ReadWrite,
}

/// What a command does.
#[derive(Clone, Copy, PartialEq, Eq, Debug)]
pub enum Operation {
    Read = 1,
    Write,
    Command,
}

/// The class of a response code.
#[derive(Clone, Copy, PartialEq, Eq, Debug)]
pub enum ResponseClass {
    Success,
    MiscWarning,
    DataEntryWarning,
    DataEntryError,
    ModeError,
    ProcessError,
    MiscError,
}
