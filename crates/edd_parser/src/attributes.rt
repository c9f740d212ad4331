//! Attributes of items.

ghost use Rattle.std.specs.Prelude.{◌≡◌, ◌≤◌, map};
ghost use Rattle.edd_syntax.specs.Reference as references;
ghost use Rattle.edd_syntax.specs.Item as item;
ghost use Rattle.edd_syntax.specs.TreeView.{path_of};
ghost use Rattle.edd_syntax.specs.WordsView.{text_bytes};
ghost use Rattle.edd_syntax.specs.ItemView.{response_code_of, member_of, array_element_of, transaction_part_of};
ghost use Rattle.edd_grammar.specs.WordReading as words;
ghost use Rattle.edd_grammar.specs.AttributeReading as reading;
ghost use Rattle.edd_expression_parser.proofs.RowsShorten as lengths;
ghost use Rattle.edd_token_reader.specs.Views.{Gives};
ghost use Rattle.edd_parser.specs.Items.{attribute_view, class_read};

use crate::rows::{RowElement, braced_row};
use crate::types::written_type;
use edd_expression_parser::cond::{braced_list, one};
use edd_expression_parser::trees::plain;
use edd_statement_parser::statements::definition;
use edd_syntax::item::{ArrayElement, Attribute, Member, ResponseCode, TransactionPart};
use edd_syntax::numbers::Kind;
use edd_syntax::reference::Path;
use edd_syntax::symbols::{Keyword, Symbol};
use edd_syntax::text::CompactString;
use edd_syntax::types::ResponseClass;
use edd_token_reader::cursor::Cursor;
use edd_token_reader::fault::ParseFault;
use edd_token_reader::left_out::{misfit, misfit_without_codes};
use edd_token_reader::words::{integer, operation, optional_text, skip_semicolons, some_text};

// The class with this name.
fn class_named(name: &str) -> Option<ResponseClass>
    ensures { result ≡ reading.class_of name.now }
{
    if name == "SUCCESS" {
        return Some(ResponseClass::Success);
    }
    if name == "MISC_WARNING" {
        return Some(ResponseClass::MiscWarning);
    }
    if name == "DATA_ENTRY_WARNING" {
        return Some(ResponseClass::DataEntryWarning);
    }
    if name == "DATA_ENTRY_ERROR" {
        return Some(ResponseClass::DataEntryError);
    }
    if name == "MODE_ERROR" {
        return Some(ResponseClass::ModeError);
    }
    if name == "PROCESS_ERROR" {
        return Some(ResponseClass::ProcessError);
    }
    if name == "MISC_ERROR" {
        return Some(ResponseClass::MiscError);
    }
    None
}

#[tactic(auto, unfolding(edd_grammar::specs::AttributeReading::class_at))]
fn response_class(cursor: &mut Cursor) -> Result<ResponseClass, ParseFault>
    ensures { Gives (λ c. c) result cursor.new (reading.class_at cursor.old) }
{
    let Some(name) = cursor.name() else {
        return Err(cursor.syntax());
    };
    match class_named(name) {
        Some(class) => Ok(class),
        None => Err(cursor.syntax_taken()),
    }
}

// After a semicolon or a comma, if one is next.
fn skip_response_end(cursor: &mut Cursor)
    ensures { cursor.new ≡ reading.behind_response cursor.old }
{
    if !cursor.eat(Symbol::Semicolon) {
        cursor.eat(Symbol::Comma);
    }
}

// `number, class, text`
#[tactic(auto, unfolding(edd_grammar::specs::AttributeReading::response_code_at))]
fn response_code(cursor: &mut Cursor) -> Result<ResponseCode, ParseFault>
    ensures { Gives response_code_of result cursor.new (reading.response_code_at cursor.old) }
{
    let number = integer(cursor)?;
    cursor.expect(Symbol::Comma)?;
    let class = response_class(cursor)?;
    cursor.expect(Symbol::Comma)?;
    let text = some_text(cursor)?;
    skip_response_end(cursor);
    Ok(ResponseCode {
        number,
        class,
        text,
    })
}

impl RowElement for ResponseCode {
    ghost Pure = { item.ResponseCode };

    ghost view = { response_code_of };

    ghost read = { λ height_left here. reading.response_code_at here };

    ghost shortens = { lengths.response_code_shortens };

    fn read_element(cursor: &mut Cursor, _height_left: u32) -> Result<ResponseCode, ParseFault> {
        response_code(cursor)
    }
}

// `name, item, label, help;`
#[tactic(auto, unfolding(edd_grammar::specs::AttributeReading::member_at))]
fn member(cursor: &mut Cursor) -> Result<Member<Path>, ParseFault>
    ensures { Gives (λ m. member_of path_of m) result cursor.new (reading.member_at cursor.old) }
{
    let at = cursor.place();
    let Some(name) = cursor.name() else {
        return Err(cursor.syntax());
    };
    cursor.expect(Symbol::Comma)?;
    let item_at = cursor.place();
    let Some(base) = cursor.name() else {
        return Err(cursor.syntax());
    };
    let label = optional_text(cursor)?;
    let help = optional_text(cursor)?;
    cursor.expect(Symbol::Semicolon)?;
    let name = CompactString::new(cursor.alloc(), name)?;
    let item = plain(cursor.alloc(), item_at, base)?;
    Ok(Member {
        at,
        name,
        item,
        label,
        help,
    })
}

impl RowElement for Member<Path> {
    ghost Pure = { item.Member references.Path };

    ghost view = { λ m. member_of path_of m };

    ghost read = { λ height_left here. reading.member_at here };

    ghost shortens = { lengths.member_shortens };

    fn read_element(cursor: &mut Cursor, _height_left: u32) -> Result<Member<Path>, ParseFault> {
        member(cursor)
    }
}

// `number, variable, label, help;`
#[tactic(auto, unfolding(edd_grammar::specs::AttributeReading::array_element_at))]
fn array_element(cursor: &mut Cursor) -> Result<ArrayElement<Path>, ParseFault>
    ensures { Gives (λ e. array_element_of path_of e) result cursor.new
        (reading.array_element_at cursor.old) }
{
    let at = cursor.place();
    let number = integer(cursor)?;
    cursor.expect(Symbol::Comma)?;
    let variable_at = cursor.place();
    let Some(base) = cursor.name() else {
        return Err(cursor.syntax());
    };
    let label = optional_text(cursor)?;
    let help = optional_text(cursor)?;
    cursor.expect(Symbol::Semicolon)?;
    let variable = plain(cursor.alloc(), variable_at, base)?;
    Ok(ArrayElement {
        at,
        number,
        variable,
        label,
        help,
    })
}

impl RowElement for ArrayElement<Path> {
    ghost Pure = { item.ArrayElement references.Path };

    ghost view = { λ e. array_element_of path_of e };

    ghost read = { λ height_left here. reading.array_element_at here };

    ghost shortens = { lengths.array_element_shortens };

    fn read_element(
        cursor: &mut Cursor,
        _height_left: u32,
    ) -> Result<ArrayElement<Path>, ParseFault> {
        array_element(cursor)
    }
}

// REQUEST or REPLY with its data items.
#[tactic(auto, unfolding(edd_grammar::specs::AttributeReading::transaction_part_at))]
fn transaction_part(
    cursor: &mut Cursor,
    height_left: u32,
) -> Result<TransactionPart<Path>, ParseFault>
    requires { height_left ≤ 100 }
    ensures { Gives (λ p. transaction_part_of path_of p) result cursor.new
        (reading.transaction_part_at height_left cursor.old) }
{
    let at = cursor.place();
    if cursor.eat_word(Keyword::Request) {
        return Ok(TransactionPart::Request(at, braced_list(cursor, height_left)?));
    }
    if cursor.eat_word(Keyword::Reply) {
        return Ok(TransactionPart::Reply(at, braced_list(cursor, height_left)?));
    }
    Err(misfit_without_codes(cursor))
}

impl RowElement for TransactionPart<Path> {
    ghost Pure = { item.TransactionPart references.Path };

    ghost view = { λ p. transaction_part_of path_of p };

    ghost read = { λ height_left here.
        words.closed (reading.transaction_part_at height_left) here };

    ghost shortens = { lengths.closed_part_shortens };

    #[tactic(auto, unfolding(edd_grammar::specs::WordReading::closed))]
    fn read_element(
        cursor: &mut Cursor,
        height_left: u32,
    ) -> Result<TransactionPart<Path>, ParseFault> {
        let part = transaction_part(cursor, height_left)?;
        skip_semicolons(cursor);
        Ok(part)
    }
}

// After TRANSACTION.
#[tactic(auto, unfolding(edd_grammar::specs::AttributeReading::transaction_at, edd_grammar::specs::WordReading::number_at))]
fn transaction(cursor: &mut Cursor, height_left: u32) -> Result<Attribute<Path>, ParseFault>
    requires { height_left ≤ 100 }
    ensures { Gives attribute_view result cursor.new
        (reading.transaction_at height_left cursor.old) }
{
    let at = cursor.taken_place();
    let number = cursor.integer();
    let parts = braced_row(cursor, height_left)?;
    Ok(Attribute::Transaction { at, number, parts })
}

// The further names of a class, each after `&`, after those that were read.
#[tactic(auto, using(crate::proofs::ClassNames::one_more_name))]
fn more_names(
    cursor: &mut Cursor,
    before: Vec<CompactString>,
) -> Result<Vec<CompactString>, ParseFault>
    ensures { Gives (λ v. map text_bytes v.items) result cursor.new
        (class_read (map text_bytes before.items) cursor.old) }
{
    let mut names = before;
    while let Some(name) = cursor.further_name() {
        names.push(CompactString::new(cursor.alloc(), name)?)?;
    }
    Ok(names)
}

// After CLASS.
#[tactic(auto, unfolding(edd_grammar::specs::AttributeReading::class_words_at, edd_grammar::specs::WordReading::names_at))]
fn class_words(cursor: &mut Cursor) -> Result<Attribute<Path>, ParseFault>
    ensures { Gives attribute_view result cursor.new (reading.class_words_at cursor.old) }
{
    let at = cursor.taken_place();
    let Some(first) = cursor.name() else {
        return Err(cursor.syntax());
    };
    let mut names = Vec::new(cursor.alloc());
    names.push(CompactString::new(cursor.alloc(), first)?)?;
    let names = more_names(cursor, names)?;
    cursor.expect(Symbol::Semicolon)?;
    Ok(Attribute::Class(at, names))
}

// After NUMBER.
#[tactic(auto, unfolding(edd_grammar::specs::AttributeReading::command_number_at))]
fn command_number(cursor: &mut Cursor) -> Result<Attribute<Path>, ParseFault>
    ensures { Gives attribute_view result cursor.new (reading.command_number_at cursor.old) }
{
    let at = cursor.taken_place();
    let number = integer(cursor)?;
    cursor.expect(Symbol::Semicolon)?;
    Ok(Attribute::Number(at, number))
}

// After OPERATION.
#[tactic(auto, unfolding(edd_grammar::specs::AttributeReading::command_operation_at))]
fn command_operation(cursor: &mut Cursor) -> Result<Attribute<Path>, ParseFault>
    ensures { Gives attribute_view result cursor.new (reading.command_operation_at cursor.old) }
{
    let at = cursor.taken_place();
    let operation = operation(cursor)?;
    cursor.expect(Symbol::Semicolon)?;
    Ok(Attribute::Operation(at, operation))
}

// An attribute.
#[tactic(auto, unfolding(edd_grammar::specs::AttributeReading::attribute_at))]
fn attribute(cursor: &mut Cursor, height_left: u32) -> Result<Attribute<Path>, ParseFault>
    requires { height_left ≤ 100 }
    ensures { Gives attribute_view result cursor.new (reading.attribute_at height_left cursor.old) }
{
    if let Some(which) = cursor.text_attribute() {
        let at = cursor.place();
        cursor.bump();
        return Ok(Attribute::OneText(at, which, one(cursor, height_left)?));
    }
    other_attribute(cursor, height_left)
}

// Attributes of variables and others that aren't one text.
#[tactic(auto, unfolding(edd_grammar::specs::AttributeReading::other_attribute_at))]
fn other_attribute(cursor: &mut Cursor, height_left: u32) -> Result<Attribute<Path>, ParseFault>
    requires { height_left ≤ 100 }
    ensures { Gives attribute_view result cursor.new
        (reading.other_attribute_at height_left cursor.old) }
{
    let at = cursor.place();
    if cursor.eat_word(Keyword::Class) {
        return class_words(cursor);
    }
    if cursor.eat_word(Keyword::Handling) {
        return Ok(Attribute::Handling(at, one(cursor, height_left)?));
    }
    if cursor.eat_word(Keyword::Validity) {
        return Ok(Attribute::Validity(at, one(cursor, height_left)?));
    }
    if cursor.eat_word(Keyword::Type) {
        let written = written_type(cursor, height_left)?;
        return Ok(Attribute::TypeOf {
            at,
            word: written.word,
            parts: written.parts,
        });
    }
    command_attribute(cursor, height_left)
}

// Attributes of commands, and others.
#[tactic(auto, unfolding(edd_grammar::specs::AttributeReading::command_attribute_at))]
fn command_attribute(cursor: &mut Cursor, height_left: u32) -> Result<Attribute<Path>, ParseFault>
    requires { height_left ≤ 100 }
    ensures { Gives attribute_view result cursor.new
        (reading.command_attribute_at height_left cursor.old) }
{
    let at = cursor.place();
    if cursor.eat_word(Keyword::Number) {
        return command_number(cursor);
    }
    if cursor.eat_word(Keyword::Operation) {
        return command_operation(cursor);
    }
    if cursor.eat_word(Keyword::Transaction) {
        return transaction(cursor, height_left);
    }
    if cursor.eat_word(Keyword::ResponseCodes) {
        return Ok(Attribute::ResponseCodes(at, braced_row(cursor, 0)?));
    }
    list_attribute(cursor, height_left)
}

// The attributes that hold what an item is made of.
#[tactic(auto, unfolding(edd_grammar::specs::AttributeReading::list_attribute_at))]
fn list_attribute(cursor: &mut Cursor, height_left: u32) -> Result<Attribute<Path>, ParseFault>
    requires { height_left ≤ 100 }
    ensures { Gives attribute_view result cursor.new
        (reading.list_attribute_at height_left cursor.old) }
{
    let at = cursor.place();
    if cursor.eat_word(Keyword::Items) {
        return Ok(Attribute::Items(at, braced_list(cursor, height_left)?));
    }
    if cursor.eat_word(Keyword::Members) {
        return Ok(Attribute::Members(at, braced_row(cursor, 0)?));
    }
    if cursor.eat_word(Keyword::Definition) {
        cursor.expect(Symbol::OpenBrace)?;
        return Ok(Attribute::Definition(at, definition(cursor, height_left)?));
    }
    if cursor.eat_word(Keyword::Elements) {
        return Ok(Attribute::Elements(at, braced_row(cursor, 0)?));
    }
    Err(cursor.syntax())
}

/// An attribute that this kind of item may have, and any number of semicolons after it.
#[tactic(auto, unfolding(edd_grammar::specs::AttributeReading::own_attribute_at, edd_grammar::specs::WordReading::closed))]
pub fn own_attribute(
    cursor: &mut Cursor,
    kind: Kind,
    height_left: u32,
) -> Result<Attribute<Path>, ParseFault>
    requires { height_left ≤ 100 }
    ensures { Gives attribute_view result cursor.new
        (words.closed (reading.own_attribute_at kind height_left) cursor.old) }
{
    if !cursor.begins_own(kind) {
        return Err(misfit(cursor));
    }
    let attribute = attribute(cursor, height_left)?;
    skip_semicolons(cursor);
    Ok(attribute)
}
