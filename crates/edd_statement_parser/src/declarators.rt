//! Declarations of locals.

ghost use Rattle.std.specs.Prelude.{◌≡◌, ◌≤◌, map, option_map};
ghost use Rattle.edd_grammar.specs.DeclarationReading as reading;
ghost use Rattle.edd_grammar.specs.StatementReading.{at_local_type, declaration_at};
ghost use Rattle.edd_token_reader.specs.Views.{Gives};
ghost use Rattle.edd_expression_parser.specs.Expressions.{expr_view};
ghost use Rattle.edd_statement_parser.specs.Bodies.{declarator_view};

use edd_expression_parser::expr::expr;
use edd_expression_parser::trees::plain;
use edd_syntax::expr::Expr;
use edd_syntax::reference::Path;
use edd_syntax::stmt::Declarator;
use edd_syntax::symbols::{Keyword, Symbol};
use edd_token_reader::cursor::Cursor;
use edd_token_reader::fault::ParseFault;
use edd_token_reader::operators::Site;

// A value after `=`, or none.
#[tactic(auto, unfolding(edd_grammar::specs::DeclarationReading::value_at))]
fn initial_value(cursor: &mut Cursor, height_left: u32) -> Result<Option<Expr<Path>>, ParseFault>
    requires { height_left ≤ 100 }
    ensures { Gives (option_map expr_view) result cursor.new
        (reading.value_at height_left cursor.old) }
{
    if !cursor.eat(Symbol::Equals) {
        return Ok(None);
    }
    let value = expr(cursor, Site::Method, height_left, 1)?;
    Ok(Some(value.expr))
}

#[tactic(auto, unfolding(edd_grammar::specs::DeclarationReading::declarator_at))]
fn declarator(cursor: &mut Cursor, height_left: u32) -> Result<Declarator<Path>, ParseFault>
    requires { height_left ≤ 100 }
    ensures { Gives declarator_view result cursor.new
        (reading.declarator_at height_left cursor.old) }
{
    let at = cursor.place();
    let Some(name) = cursor.name() else {
        return Err(cursor.syntax());
    };
    let place = plain(cursor.alloc(), at, name)?;
    let value = initial_value(cursor, height_left)?;
    Ok(Declarator { place, value })
}

/// One or more declarators, parted by commas, with values of at most this height.
#[tactic(auto, unfolding(edd_grammar::specs::DeclarationReading::declarators_at), using(crate::proofs::BodyLoops::declarators_read))]
pub fn declarators(
    cursor: &mut Cursor,
    height_left: u32,
) -> Result<Vec<Declarator<Path>>, ParseFault>
    requires { height_left ≤ 100 }
    ensures { Gives (λ v. map declarator_view v.items) result cursor.new
        (reading.declarators_at height_left cursor.old) }
{
    let mut all = Vec::with_capacity(cursor.alloc(), 1)?;
    loop {
        all.push(declarator(cursor, height_left)?)?;
        if !cursor.eat(Symbol::Comma) {
            return Ok(all);
        }
    }
}

/// Whether `int` or `long` is next.
pub fn is_at_local_type(cursor: &Cursor) -> bool
    ensures { result ≡ at_local_type cursor.now }
{
    cursor.at_word(Keyword::Int) || cursor.at_word(Keyword::Long)
}

/// A declaration of at most this height after its type. Its declarators are one level below the
/// type's word.
#[tactic(auto, using(crate::proofs::BodyLoops::declarations))]
pub fn declaration(
    cursor: &mut Cursor,
    height_left: u32,
) -> Result<Vec<Declarator<Path>>, ParseFault>
    requires { height_left ≤ 100 }
    ensures { Gives (λ v. map declarator_view v.items) result cursor.new
        (declaration_at height_left cursor.old) }
{
    if height_left == 0 {
        return Err(cursor.too_deep_taken());
    }
    if height_left == 1 {
        return Err(cursor.too_deep());
    }
    let all = declarators(cursor, height_left - 2)?;
    cursor.expect(Symbol::Semicolon)?;
    Ok(all)
}
