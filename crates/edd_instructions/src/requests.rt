//! The requests of methods: their kinds, their arguments, and what answers them.

ghost use Rattle.std.specs.Prelude.{◌≡◌, [], ◌∷◌};
ghost use Rattle.edd_instructions.specs.Requests.{arguments_asked, kind_asked, numbers_in, request_of, wanted_by};

use crate::instruction::Ask;
use arrayvec::ArrayVec;
use edd_syntax::numbers::{StrNo, VarNo};
use edd_syntax::operators::RequestKind;

/// One request of a method, its arguments in written order.
#[derive(Clone, Copy, PartialEq, Eq, Debug)]
pub enum Request {
    PutMessage(StrNo),
    Acknowledge(StrNo),
    Delay(i32, StrNo),
    GetDevVarValue(StrNo, VarNo),
    SelectFromList(StrNo, StrNo),
    SendCommand(i32),
    SendCommandTrans(i32, i32),
    SaveValues,
}

/// An argument of a request.
#[derive(Clone, Copy, PartialEq, Eq, Debug)]
pub enum RequestArgument {
    Text(StrNo),
    Number(i32),
    Variable(VarNo),
}

// What stands in the room of a list that holds fewer.
impl Default for RequestArgument {
    fn default() -> RequestArgument {
        RequestArgument::Number(0)
    }
}

/// The arguments of a request, in written order.
pub type RequestArguments = ArrayVec<RequestArgument, 2>;

fn one(argument: RequestArgument) -> RequestArguments
    ensures { result.items ≡ argument ∷ [] }
{
    let mut arguments = ArrayVec::new();
    arguments.push(argument);
    arguments
}

fn two(first: RequestArgument, second: RequestArgument) -> RequestArguments
    ensures { result.items ≡ first ∷ second ∷ [] }
{
    let mut arguments = one(first);
    arguments.push(second);
    arguments
}

impl Request {
    /// Which request it is.
    pub fn kind(self) -> RequestKind
        ensures { result ≡ kind_asked self }
    {
        match self {
            Request::PutMessage(_) => RequestKind::PutMessage,
            Request::Acknowledge(_) => RequestKind::Acknowledge,
            Request::Delay(_, _) => RequestKind::Delay,
            Request::GetDevVarValue(_, _) => RequestKind::GetDevVarValue,
            Request::SelectFromList(_, _) => RequestKind::SelectFromList,
            Request::SendCommand(_) => RequestKind::SendCommand,
            Request::SendCommandTrans(_, _) => RequestKind::SendCommandTrans,
            Request::SaveValues => RequestKind::SaveValues,
        }
    }

    /// Its arguments in written order.
    pub fn arguments(self) -> RequestArguments
        ensures { result.items ≡ arguments_asked self }
    {
        use RequestArgument::{Number, Text, Variable};
        match self {
            Request::PutMessage(text) | Request::Acknowledge(text) => one(Text(text)),
            Request::Delay(seconds, text) => two(Number(seconds), Text(text)),
            Request::GetDevVarValue(text, variable) => two(Text(text), Variable(variable)),
            Request::SelectFromList(text, choices) => two(Text(text), Text(choices)),
            Request::SendCommand(number) => one(Number(number)),
            Request::SendCommandTrans(number, transaction) => {
                two(Number(number), Number(transaction))
            }
            Request::SaveValues => ArrayVec::new(),
        }
    }
}

/// What a user answers to a request.
#[derive(Clone, Copy, PartialEq, Eq, Debug)]
pub enum Wanted {
    /// Nothing but that it was seen.
    Nothing,
    /// A value for a variable.
    Value(VarNo),
    /// One of the choices in a text.
    Choice(StrNo),
    /// The code of what was done.
    Code,
}

impl Request {
    /// Its numbers in written order, and 0 where there are fewer than two.
    pub fn numbers(self) -> (i32, i32)
        ensures { result ≡ numbers_in self }
    {
        match self {
            Request::Delay(number, _) | Request::SendCommand(number) => (number, 0),
            Request::SendCommandTrans(number, transaction) => (number, transaction),
            _ => (0, 0),
        }
    }

    /// What a user answers to it (this profile).
    pub fn wanted(self) -> Wanted
        ensures { result ≡ wanted_by self }
    {
        match self {
            Request::PutMessage(_) | Request::Acknowledge(_) | Request::Delay(_, _) => {
                Wanted::Nothing
            }
            Request::GetDevVarValue(_, variable) => Wanted::Value(variable),
            Request::SelectFromList(_, choices) => Wanted::Choice(choices),
            Request::SendCommand(_) | Request::SendCommandTrans(_, _) | Request::SaveValues => {
                Wanted::Code
            }
        }
    }
}

impl Ask {
    /// The request that it makes with these numbers, of which those that it doesn't take say
    /// nothing.
    pub fn request(self, first: i32, second: i32) -> Request
        ensures { result ≡ request_of self first second }
    {
        match self.kind {
            RequestKind::PutMessage => Request::PutMessage(StrNo(self.first)),
            RequestKind::Acknowledge => Request::Acknowledge(StrNo(self.first)),
            RequestKind::Delay => Request::Delay(first, StrNo(self.first)),
            RequestKind::GetDevVarValue => {
                Request::GetDevVarValue(StrNo(self.first), VarNo(self.second))
            }
            RequestKind::SelectFromList => {
                Request::SelectFromList(StrNo(self.first), StrNo(self.second))
            }
            RequestKind::SendCommand => Request::SendCommand(first),
            RequestKind::SendCommandTrans => Request::SendCommandTrans(first, second),
            RequestKind::SaveValues => Request::SaveValues,
        }
    }
}
