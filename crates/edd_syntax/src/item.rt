//! Items and their attributes, over the type R of their references.

ghost use Rattle.std.specs.Prelude.{◌≡◌};
ghost use Rattle.edd_syntax.specs.Item.{kind_of_item};
ghost use Rattle.edd_syntax.specs.ItemView.{item_kind_of, sort_of, name_of, attributes_of};
ghost use Rattle.edd_syntax.specs.Places.{name_at, word_at};

use crate::cond::Cond;
use crate::expr::Expr;
use crate::numbers::{FormatOption, Kind, NumberOption, TextAttribute, TokenNo};
use crate::stmt::Part;
use crate::text::{CompactString, Text};
use crate::types::{Handling, Operation, ResponseClass, VarType};

/// `{ value, text, help }`
#[derive(Drop)]
pub struct Enumerator {
    /// Where its brace is.
    pub at: TokenNo,
    pub value: i64,
    pub text: Text,
    pub help: Option<Text>,
}

/// The qualifiers of a menu's entry.
#[derive(Clone, Copy, PartialEq, Eq, Debug)]
pub struct MenuQualifiers {
    pub display_value: bool,
    pub read_only: bool,
    pub hidden: bool,
    pub review: bool,
}

/// An entry of a menu: a text, or a reference with qualifiers.
#[derive(Drop)]
pub enum MenuEntry<R> {
    Text(Text),
    Reference { to: R, qualifiers: MenuQualifiers },
}

/// The qualifiers of a data item.
#[derive(Clone, Copy, PartialEq, Eq, Debug)]
pub struct DataQualifiers {
    pub info: bool,
    pub index: bool,
}

/// A data item of a request or a reply.
#[derive(Drop)]
pub enum DataItem<R> {
    Constant {
        at: TokenNo,
        value: u32,
    },
    Variable {
        at: TokenNo,
        variable: R,
        mask: Option<u32>,
        qualifiers: DataQualifiers,
    },
}

/// `number, class, text`
#[derive(Drop)]
pub struct ResponseCode {
    pub number: u32,
    pub class: ResponseClass,
    pub text: Text,
}

/// `name, item, label, help;`
#[derive(Drop)]
pub struct Member<R> {
    /// Where its name is.
    pub at: TokenNo,
    pub name: CompactString,
    pub item: R,
    pub label: Option<Text>,
    pub help: Option<Text>,
}

/// `number, variable, label, help;`
#[derive(Drop)]
pub struct ArrayElement<R> {
    /// Where its number is.
    pub at: TokenNo,
    pub number: u32,
    pub variable: R,
    pub label: Option<Text>,
    pub help: Option<Text>,
}

/// The word of a type, with the size in octets that is written.
#[derive(Drop)]
pub enum TypeWord {
    Known { kind: VarType, size: Option<u32> },
    Other(CompactString),
}

/// What is in the braces of a type. An option is where its word is.
#[derive(Drop)]
pub enum TypePart<R> {
    OneNumber {
        at: TokenNo,
        which: NumberOption,
        value: Cond<R, Expr<R>>,
    },
    OneFormat {
        at: TokenNo,
        which: FormatOption,
        format: Cond<R, Text>,
    },
    /// An element of the type's list of enumerators.
    Element(Cond<R, Enumerator>),
}

/// What is in the braces of a transaction, each where its word is.
#[derive(Drop)]
pub enum TransactionPart<R> {
    Request(TokenNo, Vec<Cond<R, DataItem<R>>>),
    Reply(TokenNo, Vec<Cond<R, DataItem<R>>>),
}

/// An attribute as it is written, where its word is.
#[derive(Drop)]
pub enum Attribute<R> {
    OneText(TokenNo, TextAttribute, Cond<R, Text>),
    Class(TokenNo, Vec<CompactString>),
    Handling(TokenNo, Cond<R, Handling>),
    Validity(TokenNo, Cond<R, bool>),
    TypeOf {
        at: TokenNo,
        word: TypeWord,
        parts: Vec<TypePart<R>>,
    },
    Number(TokenNo, u32),
    Operation(TokenNo, Operation),
    Transaction {
        at: TokenNo,
        number: Option<u32>,
        parts: Vec<TransactionPart<R>>,
    },
    ResponseCodes(TokenNo, Vec<ResponseCode>),
    Items(TokenNo, Vec<Cond<R, MenuEntry<R>>>),
    Members(TokenNo, Vec<Member<R>>),
    Definition(TokenNo, Vec<Part<R>>),
    Elements(TokenNo, Vec<ArrayElement<R>>),
}

impl<R> Attribute<R> {
    /// Where its word is.
    pub fn at(&self) -> TokenNo
        ensures { result ≡ word_at self.now }
    {
        match self {
            Attribute::OneText(at, _, _)
            | Attribute::Class(at, _)
            | Attribute::Handling(at, _)
            | Attribute::Validity(at, _)
            | Attribute::TypeOf { at, .. }
            | Attribute::Number(at, _)
            | Attribute::Operation(at, _)
            | Attribute::Transaction { at, .. }
            | Attribute::ResponseCodes(at, _)
            | Attribute::Items(at, _)
            | Attribute::Members(at, _)
            | Attribute::Definition(at, _)
            | Attribute::Elements(at, _) => *at,
        }
    }
}

/// What an item is; a collection has the kind of its members.
#[derive(Clone, Copy, PartialEq, Eq, Debug)]
pub enum ItemKind {
    Variable,
    Command,
    Menu,
    Collection(Kind),
    Method,
    /// An array of variables.
    Array,
}

impl ItemKind {
    /// The kind of the item, whatever its members are.
    pub fn kind(self) -> Kind
        ensures { result ≡ kind_of_item (item_kind_of self) }
    {
        match self {
            ItemKind::Variable => Kind::Variable,
            ItemKind::Command => Kind::Command,
            ItemKind::Menu => Kind::Menu,
            ItemKind::Collection(_) => Kind::Collection,
            ItemKind::Method => Kind::Method,
            ItemKind::Array => Kind::Array,
        }
    }
}

/// An item of a description.
#[derive(Drop)]
pub struct Item<R> {
    /// What it is.
    pub sort: ItemKind,
    /// Where its name is.
    pub at: TokenNo,
    /// The name under which others refer to it.
    pub name: CompactString,
    /// As they are written.
    pub attributes: Vec<Attribute<R>>,
}

impl<R> Item<R> {
    /// What kind of item it is.
    pub fn kind(&self) -> Kind
        ensures { result ≡ kind_of_item (sort_of self.now) }
    {
        self.sort.kind()
    }

    /// The name under which others refer to it.
    pub fn name(&self) -> &str
        ensures { result.now ≡ name_of self.now }
    {
        self.name.as_str()
    }

    /// Where its name is.
    pub fn at(&self) -> TokenNo
        ensures { result ≡ name_at self.now }
    {
        self.at
    }

    /// The attributes, as they are written.
    pub fn attributes(&self) -> &[Attribute<R>]
        ensures { result.now ≡ attributes_of self.now }
    {
        &self.attributes
    }
}

/// Manufacturer, device type, device revision and revision of the description.
#[derive(Clone, Copy, PartialEq, Eq, Debug)]
pub struct Identification {
    pub manufacturer: u32,
    pub device_type: u32,
    pub device_revision: u32,
    pub dd_revision: u32,
}
