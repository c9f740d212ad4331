//! What the steps of a unit give: records of an attribute, the status of a method.

use crate::requests::Request;
use edd_syntax::answer::Trap;
use edd_syntax::numbers::{ItemNo, StrNo, VarNo};

/// One record of an attribute.
#[derive(Clone, Copy, PartialEq, Eq, Debug)]
pub enum Record {
    Words(StrNo),
    Number(i64),
    /// An entry of a menu. `quals` has the bits 1 DISPLAY_VALUE, 2 READ_ONLY, 4 HIDDEN and 8
    /// REVIEW.
    Entry {
        item: ItemNo,
        quals: u16,
    },
    DataConst(u8),
    /// A variable of a request or a reply. A mask of 0 is none; `quals` has the bits 1 INFO and 2
    /// INDEX.
    DataVar {
        var: VarNo,
        mask: u32,
        quals: u8,
    },
    Enumerator {
        value: i64,
        text: StrNo,
        help: Option<StrNo>,
    },
    /// A response code. `class` is 0 to 6, in the order of `ResponseClass`.
    Response {
        number: u32,
        class: u8,
        text: StrNo,
    },
    Member {
        name: StrNo,
        item: ItemNo,
        label: Option<StrNo>,
        help: Option<StrNo>,
    },
    /// An element of an array.
    Element {
        number: u32,
        var: VarNo,
        label: Option<StrNo>,
        help: Option<StrNo>,
    },
}

/// Whether a run goes on, waits for an answer or is over.
#[derive(Clone, Copy, PartialEq, Eq, Debug)]
pub enum Status {
    Running,
    Asking(Request),
    Ended,
    Aborted,
    Trapped(Trap),
}

/// What a step emits.
#[derive(Clone, Copy, PartialEq, Eq, Debug)]
pub enum Emitted {
    Nothing,
    Record(Record),
    Request(Request),
}
