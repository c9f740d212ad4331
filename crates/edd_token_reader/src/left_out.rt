//! Words of the language that this profile leaves out.

ghost use Rattle.edd_syntax.specs.declared.symbols.Symbol.TheVariants.{OpenBrace};
ghost use Rattle.edd_grammar.specs.Reading.{expect};
ghost use Rattle.edd_token_reader.specs.Views.{Leaves};

use crate::cursor::Cursor;
use crate::fault::ParseFault;
use edd_lexer::token::TokenKind;
use edd_syntax::symbols::{Keyword, Symbol};

// Words of items, attributes, qualifiers and types.
const WORDS: [&str; 25] = [
    "AXIS",
    "BLOCK",
    "CHART",
    "COLUMNBREAK",
    "DOMAIN",
    "DOUBLE",
    "FILE",
    "FLOAT",
    "GRAPH",
    "GRID",
    "IMAGE",
    "IMPORT",
    "LIKE",
    "LIST",
    "PROGRAM",
    "RECORD",
    "REFRESH",
    "ROWBREAK",
    "SCALING_FACTOR",
    "SOURCE",
    "STYLE",
    "UNIT",
    "VARIABLE_LIST",
    "WAVEFORM",
    "WRITE_AS_ONE",
];

// A word with a number directly after it, as of one range of several.
fn is_numbered(word: &str, range: &str) -> bool {
    match word.as_bytes().strip_prefix(range.as_bytes()) {
        Some(digits) => !digits.is_empty() && digits.iter().all(|d| d.is_ascii_digit()),
        None => false,
    }
}

fn is_left_out(word: &str) -> bool {
    WORDS.iter().any(|w| *w == word)
        || is_numbered(word, "MIN_VALUE")
        || is_numbered(word, "MAX_VALUE")
}

/// The reserved word that is next, if no rule has it.
pub fn left_out_reserved(cursor: &Cursor) -> Option<&'static str> {
    let Some(TokenKind::Keyword(word)) = cursor.peek() else {
        return None;
    };
    match word {
        Keyword::Char
        | Keyword::Short
        | Keyword::Unsigned
        | Keyword::Float
        | Keyword::Double
        | Keyword::Goto => Some(word.spelling()),
        _ => None,
    }
}

// The word that is next, if it is left out.
fn left_out<'a>(cursor: &Cursor<'a>) -> Option<&'a str> {
    match cursor.peek_name() {
        Some(word) if is_left_out(word) => Some(word),
        Some(_) => None,
        None => left_out_reserved(cursor),
    }
}

/// The fault where an item, an attribute, a qualifier or a statement may begin and the next token
/// fits nothing.
pub fn misfit(cursor: &Cursor) -> ParseFault {
    match left_out(cursor) {
        Some(word) => ParseFault::unsupported(cursor.alloc(), cursor.place(), word),
        None => cursor.syntax(),
    }
}

/// The fault of a name that was taken as a qualifier and is none.
pub fn misfit_name(cursor: &Cursor, name: &str) -> ParseFault {
    if is_left_out(name) {
        return ParseFault::unsupported(cursor.alloc(), cursor.taken_place(), name);
    }
    cursor.syntax_taken()
}

/// An opening brace, where something else might begin.
#[tactic(auto, unfolding(edd_grammar::specs::Reading::expect))]
pub fn expect_brace(cursor: &mut Cursor) -> Result<(), ParseFault>
    ensures { Leaves result cursor.new (expect OpenBrace cursor.old) }
{
    if !cursor.eat(Symbol::OpenBrace) {
        return Err(misfit(cursor));
    }
    Ok(())
}

fn is_of_items(word: Keyword) -> bool {
    matches!(
        word,
        Keyword::Command | Keyword::Menu | Keyword::Collection | Keyword::Method | Keyword::Array
    )
}

/// The fault after ARRAY OF, where there are arrays of variables alone.
pub fn misfit_array(cursor: &Cursor) -> ParseFault {
    match cursor.peek() {
        Some(TokenKind::Keyword(word)) if is_of_items(word) => {
            ParseFault::unsupported(cursor.alloc(), cursor.place(), word.spelling())
        }
        _ => cursor.syntax(),
    }
}

/// The fault where an item may begin, or a part of a transaction: response codes may not be there
/// either.
pub fn misfit_without_codes(cursor: &Cursor) -> ParseFault {
    if cursor.at_word(Keyword::ResponseCodes) {
        return ParseFault::unsupported(cursor.alloc(), cursor.place(), "RESPONSE_CODES");
    }
    misfit(cursor)
}

/// The fault where an item may begin, where LIKE may come after a name.
pub fn misfit_item(cursor: &Cursor) -> ParseFault {
    if let (Some(_), Some("LIKE")) = (cursor.peek_name(), cursor.peek_second_name()) {
        return ParseFault::unsupported(cursor.alloc(), cursor.second_place(), "LIKE");
    }
    misfit_without_codes(cursor)
}
