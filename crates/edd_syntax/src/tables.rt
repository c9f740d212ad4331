//! The tables of kinds, items and builtin functions, which are here and nowhere else.

ghost use Rattle.std.specs.Prelude.{◌≡◌};
ghost use Rattle.edd_syntax.specs.Numbers as numbers;
ghost use Rattle.edd_syntax.specs.Builtins as tables;
ghost use Rattle.edd_syntax.specs.Resolution.{builtins, by_name, look_up};

use crate::numbers::{ArrNo, CmdNo, CollNo, ItemNo, Kind, MenuNo, MethNo, VarNo, numbered};
use crate::operators::{BUILTINS, Builtin, Parameter, REQUESTS, RequestKind};

impl Kind {
    /// The number of the kind in an image, from 1 to 6 (this profile).
    pub fn number(self) -> u8
        ensures { result ≡ numbers.kind_number self }
    {
        self as u8
    }

    /// The word with which an item of the kind begins where an image is shown (this profile).
    pub fn word(self) -> &'static str
        ensures { result.now ≡ numbers.kind_name self }
    {
        match self {
            Kind::Variable => "variable",
            Kind::Command => "command",
            Kind::Menu => "menu",
            Kind::Collection => "collection",
            Kind::Method => "method",
            Kind::Array => "array",
        }
    }

    /// The item of the kind by its number among the items of that kind, which counts from 0 (this
    /// profile).
    pub fn item(self, index: u16) -> ItemNo
        ensures { result ≡ numbers.item_number self index }
    {
        match self {
            Kind::Variable => ItemNo::Variable(VarNo(index)),
            Kind::Command => ItemNo::Command(CmdNo(index)),
            Kind::Menu => ItemNo::Menu(MenuNo(index)),
            Kind::Collection => ItemNo::Collection(CollNo(index)),
            Kind::Method => ItemNo::Method(MethNo(index)),
            Kind::Array => ItemNo::Array(ArrNo(index)),
        }
    }
}

impl ItemNo {
    /// The item by the number of its kind and its own among the items of that kind, where there is
    /// such a kind (this profile).
    #[inline(always)]
    pub fn from_numbers(kind: u8, index: u16) -> Option<ItemNo>
        ensures { result ≡ numbers.item_from_numbers kind index }
    {
        match kind {
            1 => Some(ItemNo::Variable(VarNo(index))),
            2 => Some(ItemNo::Command(CmdNo(index))),
            3 => Some(ItemNo::Menu(MenuNo(index))),
            4 => Some(ItemNo::Collection(CollNo(index))),
            5 => Some(ItemNo::Method(MethNo(index))),
            6 => Some(ItemNo::Array(ArrNo(index))),
            _ => None,
        }
    }

    /// The kind of the item (this profile).
    pub fn kind(self) -> Kind
        ensures { result ≡ numbers.kind_of self }
    {
        match self {
            ItemNo::Variable(_) => Kind::Variable,
            ItemNo::Command(_) => Kind::Command,
            ItemNo::Menu(_) => Kind::Menu,
            ItemNo::Collection(_) => Kind::Collection,
            ItemNo::Method(_) => Kind::Method,
            ItemNo::Array(_) => Kind::Array,
        }
    }

    /// The number of the item among the items of its kind, which counts from 0 (this profile).
    pub fn index(self) -> u16
        ensures { result ≡ numbers.index_of self }
    {
        match self {
            ItemNo::Variable(number) => number.0,
            ItemNo::Command(number) => number.0,
            ItemNo::Menu(number) => number.0,
            ItemNo::Collection(number) => number.0,
            ItemNo::Method(number) => number.0,
            ItemNo::Array(number) => number.0,
        }
    }
}

// The first of these functions with a name.
fn first_named(functions: &[Builtin], name: &str) -> Option<Builtin>
    ensures { result ≡ look_up name.now (by_name functions.now) }
{
    for function in functions {
        if function.name() == name {
            return Some(*function);
        }
    }
    None
}

impl RequestKind {
    /// The number of the request in an image and in C, from 1 on (this profile).
    pub fn number(self) -> u8
        ensures { result ≡ tables.request_number self }
    {
        self as u8
    }

    /// The request of a number in an image, where there is one (this profile).
    pub fn from_number(number: u8) -> Option<RequestKind>
        ensures { result ≡ tables.request_from_number number }
    {
        numbered(&REQUESTS, number)
    }

    /// The name of the function that makes it, as EDDL has it (IEC 61804-3).
    pub fn name(self) -> &'static str
        ensures { result.now ≡ tables.request_name self }
    {
        match self {
            RequestKind::PutMessage => "PUT_MESSAGE",
            RequestKind::Acknowledge => "ACKNOWLEDGE",
            RequestKind::Delay => "DELAY",
            RequestKind::GetDevVarValue => "GET_DEV_VAR_VALUE",
            RequestKind::SelectFromList => "SELECT_FROM_LIST",
            RequestKind::SendCommand => "send_command",
            RequestKind::SendCommandTrans => "send_command_trans",
            RequestKind::SaveValues => "save_values",
        }
    }

    /// What it takes, place by place (this profile of EDDL).
    pub fn parameters(self) -> &'static [Parameter]
        ensures { result.now ≡ tables.request_parameters self }
    {
        use Parameter::{DeviceVariable, Number, Text};
        match self {
            RequestKind::PutMessage | RequestKind::Acknowledge => &[Text],
            RequestKind::Delay => &[Number, Text],
            RequestKind::GetDevVarValue => &[Text, DeviceVariable],
            RequestKind::SelectFromList => &[Text, Text],
            RequestKind::SendCommand => &[Number],
            RequestKind::SendCommandTrans => &[Number, Number],
            RequestKind::SaveValues => &[],
        }
    }

    /// How many numbers it takes, which are operands of its instruction (this profile).
    pub fn numbers_taken(self) -> u8
        ensures { result ≡ tables.numbers_taken self }
    {
        match self {
            RequestKind::SendCommandTrans => 2,
            RequestKind::Delay | RequestKind::SendCommand => 1,
            _ => 0,
        }
    }

    /// How many texts and variables it takes, which its instruction names (this profile).
    pub fn names_taken(self) -> u8
        ensures { result ≡ tables.names_taken self }
    {
        match self {
            RequestKind::GetDevVarValue | RequestKind::SelectFromList => 2,
            RequestKind::PutMessage | RequestKind::Acknowledge | RequestKind::Delay => 1,
            _ => 0,
        }
    }
}

impl Builtin {
    /// The name of the function, as EDDL has it (IEC 61804-3).
    pub fn name(self) -> &'static str
        ensures { result.now ≡ tables.builtin_name self }
    {
        match self {
            Builtin::Ask(kind) => kind.name(),
            Builtin::IvarValue => "ivar_value",
            Builtin::LvarValue => "lvar_value",
            Builtin::Iassign => "iassign",
            Builtin::Lassign => "lassign",
            Builtin::Abort => "abort",
            Builtin::ProcessAbort => "process_abort",
            Builtin::AddAbortMethod => "add_abort_method",
        }
    }

    /// The function of a name.
    pub fn named(name: &str) -> Option<Builtin>
        ensures { result ≡ look_up name.now builtins }
    {
        first_named(&BUILTINS, name)
    }

    /// What the function takes, place by place (this profile of EDDL).
    pub fn parameters(self) -> &'static [Parameter]
        ensures { result.now ≡ tables.parameters self }
    {
        use Parameter::{DeviceVariable, Method, Number};
        match self {
            Builtin::Ask(kind) => kind.parameters(),
            Builtin::IvarValue | Builtin::LvarValue => &[DeviceVariable],
            Builtin::Iassign | Builtin::Lassign => &[DeviceVariable, Number],
            Builtin::Abort | Builtin::ProcessAbort => &[],
            Builtin::AddAbortMethod => &[Method],
        }
    }
}
