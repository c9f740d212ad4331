//! Names that mean something in their places.

ghost use Rattle.std.specs.Prelude.{◌≡◌};
ghost use Rattle.edd_syntax.specs.declared.types.Handling.{Handling};
ghost use Rattle.edd_syntax.specs.WordsView.{text_of};
ghost use Rattle.edd_grammar.specs.ValueReading as reading;
ghost use Rattle.edd_grammar.specs.WordReading as words;
ghost use Rattle.edd_grammar.specs.ConditionalReading as conditionals;
ghost use Rattle.edd_token_reader.specs.Views.{Gives};
ghost use Rattle.std.specs.Prelude.{option_map};

use crate::cursor::Cursor;
use crate::fault::ParseFault;
use crate::texts::{at_text, text};
use edd_syntax::operators::Operator;
use edd_syntax::symbols::{Keyword, Symbol};
use edd_syntax::text::Text;
use edd_syntax::types::{Handling, Operation};

// After one of READ and WRITE, where the other one may follow `&`.
#[tactic(auto, unfolding(edd_grammar::specs::ValueReading::handling_behind))]
fn after_handling(cursor: &mut Cursor, one: Handling, other: &str) -> Result<Handling, ParseFault>
    ensures { Gives (λ h. h) result cursor.new (reading.handling_behind one other.now cursor.old) }
{
    if !cursor.eat(Symbol::Operator(Operator::And)) {
        return Ok(one);
    }
    cursor.expect_name(other)?;
    Ok(Handling::ReadWrite)
}

/// READ, WRITE, or both in either order.
#[tactic(auto, unfolding(edd_grammar::specs::ValueReading::handling_at))]
pub fn handling(cursor: &mut Cursor) -> Result<Handling, ParseFault>
    ensures { Gives (λ h. h) result cursor.new (reading.handling_at cursor.old) }
{
    if cursor.eat_name("READ") {
        return after_handling(cursor, Handling::Read, "WRITE");
    }
    if cursor.eat_name("WRITE") {
        return after_handling(cursor, Handling::Write, "READ");
    }
    Err(cursor.syntax())
}

/// TRUE or FALSE.
#[tactic(auto, unfolding(edd_grammar::specs::ValueReading::truth_at))]
pub fn truth(cursor: &mut Cursor) -> Result<bool, ParseFault>
    ensures { Gives (λ b. b) result cursor.new (reading.truth_at cursor.old) }
{
    if cursor.eat_name("TRUE") {
        return Ok(true);
    }
    if cursor.eat_name("FALSE") {
        return Ok(false);
    }
    Err(cursor.syntax())
}

/// READ, WRITE or COMMAND.
#[tactic(auto, unfolding(edd_grammar::specs::ValueReading::operation_at))]
pub fn operation(cursor: &mut Cursor) -> Result<Operation, ParseFault>
    ensures { Gives (λ o. o) result cursor.new (reading.operation_at cursor.old) }
{
    if cursor.eat_name("READ") {
        return Ok(Operation::Read);
    }
    if cursor.eat_name("WRITE") {
        return Ok(Operation::Write);
    }
    if cursor.eat_word(Keyword::Command) {
        return Ok(Operation::Command);
    }
    Err(cursor.syntax())
}

/// A text, if one is next.
#[tactic(auto, unfolding(edd_grammar::specs::ValueReading::some_text_at))]
pub fn some_text(cursor: &mut Cursor) -> Result<Text, ParseFault>
    ensures { Gives text_of result cursor.new (reading.some_text_at cursor.old) }
{
    if !at_text(cursor) {
        return Err(cursor.syntax());
    }
    text(cursor)
}

/// A text after a comma, or none.
#[tactic(auto, unfolding(edd_grammar::specs::ValueReading::optional_text_at))]
pub fn optional_text(cursor: &mut Cursor) -> Result<Option<Text>, ParseFault>
    ensures { Gives (option_map text_of) result cursor.new (reading.optional_text_at cursor.old) }
{
    if !cursor.eat(Symbol::Comma) {
        return Ok(None);
    }
    Ok(Some(some_text(cursor)?))
}

/// A number.
pub fn integer(cursor: &mut Cursor) -> Result<u32, ParseFault>
    ensures { Gives (λ n. n) result cursor.new (words.integer_at cursor.old) }
{
    match cursor.integer() {
        Some(n) => Ok(n),
        None => Err(cursor.syntax()),
    }
}

/// After the semicolons that are next.
pub fn skip_semicolons(cursor: &mut Cursor)
    ensures { cursor.new ≡ words.skip_semicolons cursor.old }
{
    while cursor.eat(Symbol::Semicolon) {}
}

/// After a comma, if one is next.
pub fn skip_comma(cursor: &mut Cursor)
    ensures { cursor.new ≡ conditionals.skip_comma cursor.old }
{
    cursor.eat(Symbol::Comma);
}
