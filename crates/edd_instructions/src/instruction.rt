//! The instructions of a unit.

use edd_syntax::numbers::{ArrNo, ItemNo, MethNo, StrNo, VarNo};
use edd_syntax::operators::{Comparison, Operator, RequestKind};

/// A request as an instruction names it: its texts and its variable by their numbers, in written
/// order, with 0 where there are fewer than two. Its numbers come from the operands.
#[derive(Clone, Copy, PartialEq, Eq, Debug)]
pub struct Ask {
    pub kind: RequestKind,
    pub first: u16,
    pub second: u16,
}

/// What leads to another place: always, where the topmost operand is 0 or isn't, or where it is a
/// label, which is then taken.
#[derive(Clone, Copy, PartialEq, Eq, Debug)]
pub enum Jump {
    Always,
    IfZero,
    IfNotZero,
    IfLabel(i64),
}

/// One instruction. A target is a place: a count of bytes from the start of the unit.
#[derive(Clone, Copy, PartialEq, Eq, Debug)]
pub enum Instruction {
    End,
    Push(u32),
    Variable(VarNo),
    Store(VarNo),
    GetLocal(u16),
    SetLocal(u16),
    Pop,
    Duplicate,
    ReadElement(ArrNo),
    Operate(Operator),
    Compare(Comparison),
    Negate,
    Not,
    Complement,
    Jump(u32),
    JumpIfZero(u32),
    JumpIfNotZero(u32),
    Case {
        label: i64,
        target: u32,
    },
    Text(StrNo),
    Number,
    Item {
        item: ItemNo,
        quals: u16,
    },
    DataConst(u8),
    DataVar {
        var: VarNo,
        mask: u32,
        quals: u8,
    },
    Enumerator {
        value: i64,
        text: StrNo,
        help: Option<StrNo>,
    },
    Response {
        number: u32,
        class: u8,
        text: StrNo,
    },
    Member {
        name: StrNo,
        item: ItemNo,
        label: Option<StrNo>,
        help: Option<StrNo>,
    },
    Element {
        number: u32,
        var: VarNo,
        label: Option<StrNo>,
        help: Option<StrNo>,
    },
    Ask(Ask),
    Abort,
    AddAbortMethod(MethNo),
}
