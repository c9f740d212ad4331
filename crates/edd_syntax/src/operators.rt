//! The operators of expressions, and the builtin functions of methods.

/// An operator on two numbers that gives a number; in methods also before `=`.
#[derive(Clone, Copy, PartialEq, Eq, Debug)]
pub enum Operator {
    Add,
    Subtract,
    Multiply,
    Divide,
    Remainder,
    ShiftLeft,
    ShiftRight,
    And,
    Or,
    Xor,
}

/// A comparison of two numbers, which gives 0 or 1.
#[derive(Clone, Copy, PartialEq, Eq, Debug)]
pub enum Comparison {
    Equal,
    NotEqual,
    Less,
    LessOrEqual,
    Greater,
    GreaterOrEqual,
}

/// An operator before its operand: `+`, `-`, `!` and `~`.
#[derive(Clone, Copy, PartialEq, Eq, Debug)]
pub enum UnaryOperator {
    Plus,
    Minus,
    Not,
    Complement,
}

/// `++` and `--`, before or after a reference.
#[derive(Clone, Copy, PartialEq, Eq, Debug)]
pub enum IncrementOperator {
    PreIncrement,
    PostIncrement,
    PreDecrement,
    PostDecrement,
}

/// What a method asks of its host.
#[derive(Clone, Copy, PartialEq, Eq, Debug)]
pub enum RequestKind {
    PutMessage = 1,
    Acknowledge,
    Delay,
    GetDevVarValue,
    SelectFromList,
    SendCommand,
    SendCommandTrans,
    SaveValues,
}

/// The requests by their numbers.
pub const REQUESTS: [RequestKind; 8] = [
    RequestKind::PutMessage,
    RequestKind::Acknowledge,
    RequestKind::Delay,
    RequestKind::GetDevVarValue,
    RequestKind::SelectFromList,
    RequestKind::SendCommand,
    RequestKind::SendCommandTrans,
    RequestKind::SaveValues,
];

/// A function that methods may call.
#[derive(Clone, Copy, PartialEq, Eq, Debug)]
pub enum Builtin {
    /// It makes a request.
    Ask(RequestKind),
    IvarValue,
    LvarValue,
    Iassign,
    Lassign,
    Abort,
    ProcessAbort,
    AddAbortMethod,
}

/// All of them.
pub const BUILTINS: [Builtin; 15] = [
    Builtin::Ask(RequestKind::PutMessage),
    Builtin::Ask(RequestKind::Acknowledge),
    Builtin::Ask(RequestKind::Delay),
    Builtin::Ask(RequestKind::GetDevVarValue),
    Builtin::Ask(RequestKind::SelectFromList),
    Builtin::Ask(RequestKind::SendCommand),
    Builtin::Ask(RequestKind::SendCommandTrans),
    Builtin::Ask(RequestKind::SaveValues),
    Builtin::IvarValue,
    Builtin::LvarValue,
    Builtin::Iassign,
    Builtin::Lassign,
    Builtin::Abort,
    Builtin::ProcessAbort,
    Builtin::AddAbortMethod,
];

/// What a function takes in a place: a text, a number, or a plain reference to a device variable or
/// a METHOD.
#[derive(Clone, Copy, PartialEq, Eq, Debug)]
pub enum Parameter {
    Text,
    Number,
    DeviceVariable,
    Method,
}
