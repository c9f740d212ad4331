//! The reserved words and the signs of the language.

ghost use Rattle.std.specs.Prelude.{◌≡◌, ◌<◌, length, bytes_eq, if◌then◌else◌, Some, None};
ghost use Rattle.edd_syntax.specs.Keywords as words;
ghost use Rattle.edd_syntax.specs.Token.{all_keywords, keyword_of, spelling};

use crate::operators::{Comparison, Operator};

/// A word that is never a name.
#[derive(Clone, Copy, PartialEq, Eq, Debug)]
pub enum Keyword {
    Manufacturer,
    DeviceType,
    DeviceRevision,
    DdRevision,
    Variable,
    Command,
    Menu,
    Collection,
    Method,
    Array,
    Of,
    Label,
    Help,
    Class,
    Handling,
    ConstantUnit,
    Validity,
    Type,
    Number,
    Operation,
    Transaction,
    ResponseCodes,
    Request,
    Reply,
    Items,
    Members,
    Definition,
    Elements,
    If,
    Else,
    Select,
    Case,
    Default,
    DefaultValue,
    MinValue,
    MaxValue,
    DisplayFormat,
    EditFormat,
    Int,
    Long,
    MethodIf,
    MethodElse,
    While,
    Do,
    For,
    Switch,
    MethodCase,
    MethodDefault,
    Break,
    Continue,
    Return,
    Char,
    Short,
    Unsigned,
    Signed,
    Float,
    Double,
    Goto,
}

/// The reserved words.
pub const KEYWORDS: [Keyword; 58] = [
    Keyword::Manufacturer,
    Keyword::DeviceType,
    Keyword::DeviceRevision,
    Keyword::DdRevision,
    Keyword::Variable,
    Keyword::Command,
    Keyword::Menu,
    Keyword::Collection,
    Keyword::Method,
    Keyword::Array,
    Keyword::Of,
    Keyword::Label,
    Keyword::Help,
    Keyword::Class,
    Keyword::Handling,
    Keyword::ConstantUnit,
    Keyword::Validity,
    Keyword::Type,
    Keyword::Number,
    Keyword::Operation,
    Keyword::Transaction,
    Keyword::ResponseCodes,
    Keyword::Request,
    Keyword::Reply,
    Keyword::Items,
    Keyword::Members,
    Keyword::Definition,
    Keyword::Elements,
    Keyword::If,
    Keyword::Else,
    Keyword::Select,
    Keyword::Case,
    Keyword::Default,
    Keyword::DefaultValue,
    Keyword::MinValue,
    Keyword::MaxValue,
    Keyword::DisplayFormat,
    Keyword::EditFormat,
    Keyword::Int,
    Keyword::Long,
    Keyword::MethodIf,
    Keyword::MethodElse,
    Keyword::While,
    Keyword::Do,
    Keyword::For,
    Keyword::Switch,
    Keyword::MethodCase,
    Keyword::MethodDefault,
    Keyword::Break,
    Keyword::Continue,
    Keyword::Return,
    Keyword::Char,
    Keyword::Short,
    Keyword::Unsigned,
    Keyword::Signed,
    Keyword::Float,
    Keyword::Double,
    Keyword::Goto,
];

impl Keyword {
    // Inlined, so that a comparison with one known word is one with its letters.
    /// How the word is written, as EDDL has it (IEC 61804-3).
    #[inline]
    pub fn spelling(self) -> &'static str
        ensures { result.now ≡ spelling self }
    {
        match self {
            Keyword::Manufacturer => "MANUFACTURER",
            Keyword::DeviceType => "DEVICE_TYPE",
            Keyword::DeviceRevision => "DEVICE_REVISION",
            Keyword::DdRevision => "DD_REVISION",
            Keyword::Variable => "VARIABLE",
            Keyword::Command => "COMMAND",
            Keyword::Menu => "MENU",
            Keyword::Collection => "COLLECTION",
            Keyword::Method => "METHOD",
            Keyword::Array => "ARRAY",
            Keyword::Of => "OF",
            Keyword::Label => "LABEL",
            Keyword::Help => "HELP",
            Keyword::Class => "CLASS",
            Keyword::Handling => "HANDLING",
            Keyword::ConstantUnit => "CONSTANT_UNIT",
            Keyword::Validity => "VALIDITY",
            Keyword::Type => "TYPE",
            Keyword::Number => "NUMBER",
            Keyword::Operation => "OPERATION",
            Keyword::Transaction => "TRANSACTION",
            Keyword::ResponseCodes => "RESPONSE_CODES",
            Keyword::Request => "REQUEST",
            Keyword::Reply => "REPLY",
            Keyword::Items => "ITEMS",
            Keyword::Members => "MEMBERS",
            Keyword::Definition => "DEFINITION",
            Keyword::Elements => "ELEMENTS",
            Keyword::If => "IF",
            Keyword::Else => "ELSE",
            Keyword::Select => "SELECT",
            Keyword::Case => "CASE",
            Keyword::Default => "DEFAULT",
            Keyword::DefaultValue => "DEFAULT_VALUE",
            Keyword::MinValue => "MIN_VALUE",
            Keyword::MaxValue => "MAX_VALUE",
            Keyword::DisplayFormat => "DISPLAY_FORMAT",
            Keyword::EditFormat => "EDIT_FORMAT",
            Keyword::Int => "int",
            Keyword::Long => "long",
            Keyword::MethodIf => "if",
            Keyword::MethodElse => "else",
            Keyword::While => "while",
            Keyword::Do => "do",
            Keyword::For => "for",
            Keyword::Switch => "switch",
            Keyword::MethodCase => "case",
            Keyword::MethodDefault => "default",
            Keyword::Break => "break",
            Keyword::Continue => "continue",
            Keyword::Return => "return",
            Keyword::Char => "char",
            Keyword::Short => "short",
            Keyword::Unsigned => "unsigned",
            Keyword::Signed => "signed",
            Keyword::Float => "float",
            Keyword::Double => "double",
            Keyword::Goto => "goto",
        }
    }
}

// The place of a word among the reserved words. The factors were found by trying: with them no
// two reserved words share a place, which the proof of `at_place` needs.
#[tactic(auto, unfolding(crate::specs::Keywords::place))]
fn place(word: &[u8]) -> usize
    requires { 0 < length word.now }
    ensures { result ≡ words.place word.now }
{
    2 * usize::from(word[0]) + 8 * usize::from(word[word.len() / 4]) + word.len()
}

// The reserved word, if it is written so.
fn only(word: &[u8], keyword: Keyword) -> Option<Keyword>
    ensures { result ≡ if bytes_eq (spelling keyword) word.now then Some keyword else None }
{
    if keyword.spelling().as_bytes() == word {
        Some(keyword)
    } else {
        None
    }
}

// The reserved word of this place, if it is written so.
#[tactic(auto, unfolding(crate::specs::Keywords::place, crate::specs::Keywords::keyword_at))]
fn at_place(place: usize, word: &[u8]) -> Option<Keyword>
    ensures { result ≡ words.keyword_at place word.now all_keywords }
{
    match place {
        658 => only(word, Keyword::Case),
        669 => only(word, Keyword::DefaultValue),
        677 => only(word, Keyword::Label),
        695 => only(word, Keyword::Default),
        698 => only(word, Keyword::Elements),
        699 => only(word, Keyword::Transaction),
        700 => only(word, Keyword::Help),
        706 => only(word, Keyword::Definition),
        710 => only(word, Keyword::Menu),
        712 => only(word, Keyword::Method),
        713 => only(word, Keyword::Members),
        719 => only(word, Keyword::Operation),
        721 => only(word, Keyword::Reply),
        723 => only(word, Keyword::Request),
        724 => only(word, Keyword::Select),
        732 => only(word, Keyword::If),
        733 => only(word, Keyword::EditFormat),
        735 => only(word, Keyword::DeviceRevision),
        747 => only(word, Keyword::Class),
        750 => only(word, Keyword::Else),
        752 => only(word, Keyword::Collection),
        773 => only(word, Keyword::Command),
        776 => only(word, Keyword::Handling),
        787 => only(word, Keyword::MinValue),
        788 => only(word, Keyword::Validity),
        790 => only(word, Keyword::DisplayFormat),
        791 => only(word, Keyword::Array),
        792 => only(word, Keyword::Of),
        811 => only(word, Keyword::ConstantUnit),
        818 => only(word, Keyword::ResponseCodes),
        823 => only(word, Keyword::Items),
        835 => only(word, Keyword::DeviceType),
        836 => only(word, Keyword::Variable),
        842 => only(word, Keyword::Number),
        846 => only(word, Keyword::Manufacturer),
        867 => only(word, Keyword::MaxValue),
        884 => only(word, Keyword::Type),
        907 => only(word, Keyword::DdRevision),
        978 => only(word, Keyword::MethodCase),
        1002 => only(word, Keyword::Do),
        1015 => only(word, Keyword::MethodDefault),
        1023 => only(word, Keyword::For),
        1034 => only(word, Keyword::Char),
        1042 => only(word, Keyword::Return),
        1052 => only(word, Keyword::MethodIf),
        1053 => only(word, Keyword::Int),
        1067 => only(word, Keyword::Short),
        1070 => only(word, Keyword::MethodElse),
        1073 => only(word, Keyword::Float),
        1075 => only(word, Keyword::While),
        1076 => only(word, Keyword::Signed),
        1086 => only(word, Keyword::Continue),
        1094 => only(word, Keyword::Double),
        1098 => only(word, Keyword::Goto),
        1108 => only(word, Keyword::Long),
        1113 => only(word, Keyword::Break),
        1162 => only(word, Keyword::Unsigned),
        1188 => only(word, Keyword::Switch),
        _ => None,
    }
}

/// The reserved word that is written so, if there is one.
#[inline(never)]
#[tactic(auto, using(crate::proofs::ReservedWords::at_its_place))]
pub fn reserved_word(word: &[u8]) -> Option<Keyword>
    requires { 0 < length word.now }
    ensures { result ≡ keyword_of word.now }
{
    at_place(place(word), word)
}

/// A sign, or an operator by what it does.
#[derive(Clone, Copy, PartialEq, Eq, Debug)]
pub enum Symbol {
    OpenBrace,
    CloseBrace,
    OpenParenthesis,
    CloseParenthesis,
    OpenBracket,
    CloseBracket,
    Semicolon,
    Comma,
    Colon,
    Dot,
    Question,
    Exclamation,
    Tilde,
    Equals,
    LogicalAnd,
    LogicalOr,
    Increment,
    Decrement,
    Operator(Operator),
    Comparison(Comparison),
    /// An operator and `=` after it.
    CompoundAssign(Operator),
}
