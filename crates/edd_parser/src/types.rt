//! Types of variables.

ghost use Rattle.std.specs.Prelude.{◌≡◌, ◌≤◌, ◌<◌, map};
ghost use Rattle.edd_syntax.specs.Reference as references;
ghost use Rattle.edd_syntax.specs.Item as item;
ghost use Rattle.edd_syntax.specs.ItemGrammar.{behind_braces};
ghost use Rattle.edd_syntax.specs.TreeView.{path_of};
ghost use Rattle.edd_syntax.specs.ItemView.{type_part_of};
ghost use Rattle.edd_grammar.specs.TypeReading as reading;
ghost use Rattle.edd_expression_parser.proofs.RowsShorten as lengths;
ghost use Rattle.edd_token_reader.specs.Views.{Gives, Leaves};
ghost use Rattle.edd_parser.specs.Items.{written_view};

use crate::rows::{RowElement, braced_row};
use edd_expression_parser::cond::{element, one};
use edd_syntax::item::{TypePart, TypeWord};
use edd_syntax::reference::Path;
use edd_syntax::symbols::Symbol;
use edd_syntax::text::CompactString;
use edd_syntax::types::VarType;
use edd_token_reader::cursor::Cursor;
use edd_token_reader::fault::ParseFault;
use edd_token_reader::words::{integer, skip_comma};

/// A type as it is written, and what is in its braces.
#[derive(Drop)]
pub struct WrittenType {
    pub word: TypeWord,
    pub parts: Vec<TypePart<Path>>,
}

// The type with this name.
fn type_named(name: &str) -> Option<VarType>
    ensures { result ≡ reading.type_of name.now }
{
    if name == "INTEGER" {
        return Some(VarType::Integer);
    }
    if name == "UNSIGNED_INTEGER" {
        return Some(VarType::UnsignedInteger);
    }
    if name == "ENUMERATED" {
        return Some(VarType::Enumerated);
    }
    if name == "BIT_ENUMERATED" {
        return Some(VarType::BitEnumerated);
    }
    None
}

// `(size)`, or none.
#[tactic(auto, unfolding(edd_grammar::specs::TypeReading::size_at))]
fn size(cursor: &mut Cursor) -> Result<Option<u32>, ParseFault>
    ensures { Gives (λ n. n) result cursor.new (reading.size_at cursor.old) }
{
    if !cursor.eat(Symbol::OpenParenthesis) {
        return Ok(None);
    }
    let size = integer(cursor)?;
    cursor.expect(Symbol::CloseParenthesis)?;
    Ok(Some(size))
}

// A format or an enumerator in the braces of a type.
#[tactic(auto, unfolding(edd_grammar::specs::TypeReading::format_or_element_at))]
fn format_or_element(cursor: &mut Cursor, height_left: u32) -> Result<TypePart<Path>, ParseFault>
    requires { height_left ≤ 100 }
    ensures { Gives (λ p. type_part_of path_of p) result cursor.new
        (reading.format_or_element_at height_left cursor.old) }
{
    if let Some(which) = cursor.format_option() {
        let at = cursor.place();
        cursor.bump();
        let format = one(cursor, height_left)?;
        return Ok(TypePart::OneFormat { at, which, format });
    }
    let enumerators = element(cursor, height_left)?;
    skip_comma(cursor);
    Ok(TypePart::Element(enumerators))
}

// A part of what is in the braces of a type.
#[tactic(auto, unfolding(edd_grammar::specs::TypeReading::type_part_at))]
fn type_part(cursor: &mut Cursor, height_left: u32) -> Result<TypePart<Path>, ParseFault>
    requires { height_left ≤ 100 }
    ensures { Gives (λ p. type_part_of path_of p) result cursor.new
        (reading.type_part_at height_left cursor.old) }
{
    if let Some(which) = cursor.number_option() {
        let at = cursor.place();
        cursor.bump();
        let value = one(cursor, height_left)?;
        return Ok(TypePart::OneNumber { at, which, value });
    }
    format_or_element(cursor, height_left)
}

impl RowElement for TypePart<Path> {
    ghost Pure = { item.TypePart references.Path };

    ghost view = { λ p. type_part_of path_of p };

    ghost read = { reading.type_part_at };

    ghost shortens = { lengths.type_part_shortens };

    fn read_element(cursor: &mut Cursor, height_left: u32) -> Result<TypePart<Path>, ParseFault> {
        type_part(cursor, height_left)
    }
}

// A semicolon, or braces.
#[tactic(auto, unfolding(edd_grammar::specs::TypeReading::type_parts_at))]
fn type_parts(cursor: &mut Cursor, height_left: u32) -> Result<Vec<TypePart<Path>>, ParseFault>
    requires { height_left ≤ 100 }
    ensures { Gives (λ v. map (type_part_of path_of) v.items) result cursor.new
        (reading.type_parts_at height_left cursor.old) }
{
    if cursor.eat(Symbol::Semicolon) {
        return Ok(Vec::new(cursor.alloc()));
    }
    braced_row(cursor, height_left)
}

// After the brace that closes an open one.
#[tactic(auto, using(crate::proofs::TypeEnds::braces))]
fn close_braces(cursor: &mut Cursor) -> Result<(), ParseFault>
    ensures { Leaves result cursor.new (behind_braces 1 cursor.old) }
{
    // The number of braces that are open inside that one.
    let mut inside: usize = 0;
    for _ in 0..cursor.tokens_left() {
        if cursor.at(Symbol::OpenBrace) {
            inside += 1;
        } else if cursor.at(Symbol::CloseBrace) {
            if inside == 0 {
                cursor.bump();
                return Ok(());
            }
            inside -= 1;
        }
        cursor.bump();
    }
    Err(cursor.syntax())
}

// After a type of another word: after its first semicolon, or the brace that closes its first
// brace.
#[tactic(auto, using(crate::proofs::TypeEnds::others))]
fn other_end(cursor: &mut Cursor) -> Result<(), ParseFault>
    ensures { Leaves result cursor.new (reading.behind_other cursor.old) }
{
    while !cursor.is_empty() {
        if cursor.eat(Symbol::Semicolon) {
            return Ok(());
        }
        if cursor.eat(Symbol::OpenBrace) {
            return close_braces(cursor);
        }
        if cursor.at(Symbol::CloseBrace) {
            return Err(cursor.syntax());
        }
        cursor.bump();
    }
    Err(cursor.syntax())
}

#[tactic(auto, unfolding(edd_grammar::specs::TypeReading::known_type_at))]
fn known_type(
    cursor: &mut Cursor,
    height_left: u32,
    kind: VarType,
) -> Result<WrittenType, ParseFault>
    requires { height_left ≤ 100 }
    ensures { Gives written_view result cursor.new
        (reading.known_type_at height_left kind cursor.old) }
{
    let size = size(cursor)?;
    let parts = type_parts(cursor, height_left)?;
    Ok(WrittenType {
        word: TypeWord::Known { kind, size },
        parts,
    })
}

#[tactic(auto, unfolding(edd_grammar::specs::TypeReading::other_type_at))]
fn other_type(cursor: &mut Cursor, name: &str) -> Result<WrittenType, ParseFault>
    ensures { Gives written_view result cursor.new (reading.other_type_at name.now cursor.old) }
{
    other_end(cursor)?;
    let name = CompactString::new(cursor.alloc(), name)?;
    Ok(WrittenType {
        word: TypeWord::Other(name),
        parts: Vec::new(cursor.alloc()),
    })
}

/// A type after TYPE.
#[tactic(auto, unfolding(edd_grammar::specs::TypeReading::type_at))]
pub fn written_type(cursor: &mut Cursor, height_left: u32) -> Result<WrittenType, ParseFault>
    requires { height_left ≤ 100 }
    ensures { Gives written_view result cursor.new (reading.type_at height_left cursor.old) }
{
    let Some(name) = cursor.name() else {
        return Err(cursor.syntax());
    };
    match type_named(name) {
        Some(kind) => known_type(cursor, height_left, kind),
        None => other_type(cursor, name),
    }
}
