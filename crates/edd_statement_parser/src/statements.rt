//! Statements and what is between braces.

ghost use Rattle.std.specs.Prelude.{◌≤◌, ◌<◌, ◌+◌, length, Some, true, false, option_map};
ghost use Rattle.edd_grammar.specs.StatementReading as reading;
ghost use Rattle.edd_grammar.specs.StatementReading.{statement_at};
ghost use Rattle.edd_token_reader.specs.Views.{Gives};
ghost use Rattle.edd_expression_parser.specs.Expressions.{expr_view};
ghost use Rattle.edd_statement_parser.specs.Bodies.{stmt_view, part_view, body_view, for_head_at, head_view, for_end_at, end_view, do_end_at, switch_head_at};

use crate::declarators::{declaration, is_at_local_type};
use crate::statement_trees::{
    ForHead, block, boxed, do_loop, for_loop, if_alone, if_else, switch, while_loop,
};
use edd_expression_parser::cond::{condition, label};
use edd_expression_parser::expr::expr;
use edd_syntax::expr::Expr;
use edd_syntax::numbers::TokenNo;
use edd_syntax::reference::Path;
use edd_syntax::stmt::{Part, Stmt};
use edd_syntax::symbols::{Keyword, Symbol};
use edd_token_reader::cursor::Cursor;
use edd_token_reader::fault::ParseFault;
use edd_token_reader::left_out::left_out_reserved;
use edd_token_reader::operators::Site;
use std::alloc::Global;

// A label and the colon after it.
#[tactic(auto, unfolding(edd_grammar::specs::StatementReading::case_label_at))]
fn case_label(cursor: &mut Cursor) -> Result<i64, ParseFault>
    ensures { Gives (λ z. z) result cursor.new (reading.case_label_at cursor.old) }
{
    let label = label(cursor)?;
    cursor.expect(Symbol::Colon)?;
    Ok(label)
}

// An expression or none up to this sign, with the sign.
#[tactic(auto, unfolding(edd_grammar::specs::StatementReading::optional_at))]
fn optional(
    cursor: &mut Cursor,
    height_left: u32,
    sign: Symbol,
) -> Result<Option<Expr<Path>>, ParseFault>
    requires { height_left ≤ 100 }
    ensures { Gives (option_map expr_view) result cursor.new
        (reading.optional_at height_left (statement_at height_left) sign cursor.old) }
{
    if cursor.eat(sign) {
        return Ok(None);
    }
    let e = expr(cursor, Site::Method, height_left, 1)?;
    cursor.expect(sign)?;
    Ok(Some(e.expr))
}

// The condition and the update of a `for`, with the closing parenthesis.
#[tactic(auto, unfolding(crate::specs::Bodies::for_end_at))]
fn for_end(
    cursor: &mut Cursor,
    height_left: u32,
) -> Result<(Option<Expr<Path>>, Option<Expr<Path>>), ParseFault>
    requires { height_left ≤ 100 }
    ensures { Gives end_view result cursor.new (for_end_at height_left cursor.old) }
{
    let condition = optional(cursor, height_left, Symbol::Semicolon)?;
    let update = optional(cursor, height_left, Symbol::CloseParenthesis)?;
    Ok((condition, update))
}

// The three expressions of a `for` in their parentheses.
#[tactic(auto, unfolding(crate::specs::Bodies::for_head_at, crate::specs::Bodies::for_end_at))]
fn for_head(cursor: &mut Cursor, height_left: u32) -> Result<ForHead, ParseFault>
    requires { height_left ≤ 100 }
    ensures { Gives head_view result cursor.new (for_head_at height_left cursor.old) }
{
    cursor.expect(Symbol::OpenParenthesis)?;
    let initial = optional(cursor, height_left, Symbol::Semicolon)?;
    let (condition, update) = for_end(cursor, height_left)?;
    Ok(ForHead {
        initial,
        condition,
        update,
    })
}

// The condition after the body of a `do`.
#[tactic(auto, unfolding(crate::specs::Bodies::do_end_at))]
fn do_end(cursor: &mut Cursor, height_left: u32) -> Result<Expr<Path>, ParseFault>
    requires { height_left ≤ 100 }
    ensures { Gives expr_view result cursor.new (do_end_at height_left cursor.old) }
{
    cursor.expect_word(Keyword::While)?;
    let condition = condition(cursor, Site::Method, height_left)?;
    cursor.expect(Symbol::Semicolon)?;
    Ok(condition)
}

// What a `switch` is on, and the brace after it.
#[tactic(auto, unfolding(crate::specs::Bodies::switch_head_at))]
fn switch_head(cursor: &mut Cursor, height_left: u32) -> Result<Expr<Path>, ParseFault>
    requires { height_left ≤ 100 }
    ensures { Gives expr_view result cursor.new (switch_head_at height_left cursor.old) }
{
    let on = condition(cursor, Site::Method, height_left)?;
    cursor.expect(Symbol::OpenBrace)?;
    Ok(on)
}

// The fault at a token, by the word that is left out if there is one.
fn wrong_word(alloc: Global, word: Option<&str>, at: TokenNo) -> ParseFault {
    match word {
        Some(word) => ParseFault::unsupported(alloc, at, word),
        None => ParseFault::Syntax { at },
    }
}

// An expression as a statement. A reserved word that no rule has is refused by its name where the
// statement would begin with it.
#[tactic(auto, unfolding(edd_grammar::specs::StatementReading::evaluate_at))]
fn evaluate(cursor: &mut Cursor, height_left: u32) -> Result<Stmt<Path>, ParseFault>
    requires { height_left ≤ 100 }
    ensures { Gives stmt_view result cursor.new
        (reading.evaluate_at height_left (statement_at height_left) cursor.old) }
{
    let word = left_out_reserved(cursor);
    let e = match expr(cursor, Site::Method, height_left, 1) {
        Ok(e) => e.expr,
        Err(ParseFault::Syntax { at }) => return Err(wrong_word(cursor.alloc(), word, at)),
        Err(fault) => return Err(fault),
    };
    cursor.expect(Symbol::Semicolon)?;
    Ok(Stmt::Evaluate(e))
}

// A statement of a word alone, or an expression.
#[tactic(auto, unfolding(edd_grammar::specs::StatementReading::simple_at))]
fn simple_statement(cursor: &mut Cursor, height_left: u32) -> Result<Stmt<Path>, ParseFault>
    requires { height_left ≤ 100 }
    ensures { Gives stmt_view result cursor.new
        (reading.simple_at height_left (statement_at height_left) cursor.old) }
{
    let at = cursor.place();
    if cursor.eat_word(Keyword::Break) {
        cursor.expect(Symbol::Semicolon)?;
        return Ok(Stmt::Break { at });
    }
    if cursor.eat_word(Keyword::Continue) {
        cursor.expect(Symbol::Semicolon)?;
        return Ok(Stmt::Continue { at });
    }
    if cursor.eat_word(Keyword::Return) {
        cursor.expect(Symbol::Semicolon)?;
        return Ok(Stmt::Return);
    }
    evaluate(cursor, height_left)
}

/// A statement of at most this height.
#[cycle(statement)]
#[tactic(auto, using(crate::proofs::BodyLoops::levels))]
fn statement(cursor: &mut Cursor, height_left: u32) -> Result<Stmt<Path>, ParseFault>
    requires { height_left ≤ 100 }
    ensures { Gives stmt_view result cursor.new (statement_at height_left cursor.old) }
{
    if height_left == 0 {
        return Err(cursor.too_deep());
    }
    layer(cursor, height_left - 1)
}

// A statement of at most this height, in a box.
#[cycle(statement)]
fn child(cursor: &mut Cursor, height_left: u32) -> Result<Box<Stmt<Path>>, ParseFault>
    requires { height_left ≤ 100 }
    ensures { Gives (λ b. stmt_view b.value) result cursor.new
        (statement_at height_left cursor.old) }
{
    let inner = statement(cursor, height_left)?;
    Ok(boxed(cursor.alloc(), inner)?)
}

// A statement whose children are of at most this height.
#[cycle(statement)]
#[tactic(auto, unfolding(edd_grammar::specs::StatementReading::statement_layer))]
fn layer(cursor: &mut Cursor, height_left: u32) -> Result<Stmt<Path>, ParseFault>
    requires { height_left < 100 }
    ensures { Gives stmt_view result cursor.new
        (reading.statement_layer height_left (statement_at height_left) cursor.old) }
{
    if cursor.eat(Symbol::Semicolon) {
        return Ok(Stmt::Empty);
    }
    if cursor.eat(Symbol::OpenBrace) {
        return Ok(block(body(cursor, height_left, false)?));
    }
    if cursor.eat_word(Keyword::MethodIf) {
        return after_if(cursor, height_left);
    }
    if cursor.eat_word(Keyword::While) {
        return after_while(cursor, height_left);
    }
    if cursor.eat_word(Keyword::Do) {
        return after_do(cursor, height_left);
    }
    if cursor.eat_word(Keyword::For) {
        return after_for(cursor, height_left);
    }
    if cursor.eat_word(Keyword::Switch) {
        return after_switch(cursor, height_left);
    }
    simple_statement(cursor, height_left)
}

// A body after its opening brace, with the closing one.
#[cycle(statement)]
#[tactic(auto, unfolding(edd_grammar::specs::StatementReading::body_at))]
fn body(cursor: &mut Cursor, height_left: u32, labels: bool) -> Result<Vec<Part<Path>>, ParseFault>
    requires { height_left ≤ 100 }
    ensures { Gives (λ v. body_view v.items) result cursor.new
        (reading.body_at height_left (statement_at height_left) labels cursor.old) }
{
    let parts = parts(cursor, height_left, labels)?;
    cursor.expect(Symbol::CloseBrace)?;
    Ok(parts)
}

// The parts up to the closing brace.
#[cycle(statement)]
#[tactic(auto, using(crate::proofs::BodyLoops::parts_read))]
fn parts(cursor: &mut Cursor, height_left: u32, labels: bool) -> Result<Vec<Part<Path>>, ParseFault>
    requires { height_left ≤ 100 }
    ensures { Gives (λ v. body_view v.items) result cursor.new
        (reading.parts_at height_left (statement_at height_left) labels (length cursor.old + 1)
        cursor.old) }
{
    let mut all = Vec::new(cursor.alloc());
    while !cursor.at(Symbol::CloseBrace) {
        all.push(part(cursor, height_left, labels)?)?;
    }
    all.shrink_to_fit();
    Ok(all)
}

// A declaration, a label where labels may be, or a statement.
#[cycle(statement)]
#[tactic(auto, unfolding(edd_grammar::specs::StatementReading::part_at))]
fn part(cursor: &mut Cursor, height_left: u32, labels: bool) -> Result<Part<Path>, ParseFault>
    requires { height_left ≤ 100 }
    ensures { Gives part_view result cursor.new
        (reading.part_at height_left (statement_at height_left) labels cursor.old) }
{
    let at = cursor.place();
    if is_at_local_type(cursor) {
        cursor.bump();
        return Ok(Part::Declare(declaration(cursor, height_left)?));
    }
    if labels && cursor.eat_word(Keyword::MethodCase) {
        let label = case_label(cursor)?;
        return Ok(Part::CaseLabel { at, label });
    }
    if labels && cursor.eat_word(Keyword::MethodDefault) {
        cursor.expect(Symbol::Colon)?;
        return Ok(Part::DefaultLabel { at });
    }
    Ok(Part::Statement(statement(cursor, height_left)?))
}

// After `if`.
#[cycle(statement)]
#[tactic(auto, unfolding(edd_grammar::specs::StatementReading::method_if_at))]
fn after_if(cursor: &mut Cursor, height_left: u32) -> Result<Stmt<Path>, ParseFault>
    requires { height_left < 100 }
    ensures { Gives stmt_view result cursor.new
        (reading.method_if_at height_left (statement_at height_left) cursor.old) }
{
    let condition = condition(cursor, Site::Method, height_left)?;
    let first = child(cursor, height_left)?;
    after_first_branch(cursor, height_left, condition, first)
}

// An `else` belongs to the nearest `if`.
#[cycle(statement)]
#[tactic(auto, unfolding(edd_grammar::specs::StatementReading::method_else_at))]
fn after_first_branch(
    cursor: &mut Cursor,
    height_left: u32,
    condition: Expr<Path>,
    first: Box<Stmt<Path>>,
) -> Result<Stmt<Path>, ParseFault>
    requires { height_left < 100 }
    ensures { Gives stmt_view result cursor.new
        (reading.method_else_at height_left (statement_at height_left) (expr_view condition)
        (stmt_view first.value) cursor.old) }
{
    if !cursor.eat_word(Keyword::MethodElse) {
        return Ok(if_alone(condition, first));
    }
    let otherwise = child(cursor, height_left)?;
    Ok(if_else(condition, first, otherwise))
}

// After `while`.
#[cycle(statement)]
#[tactic(auto, unfolding(edd_grammar::specs::StatementReading::while_at))]
fn after_while(cursor: &mut Cursor, height_left: u32) -> Result<Stmt<Path>, ParseFault>
    requires { height_left < 100 }
    ensures { Gives stmt_view result cursor.new
        (reading.while_at height_left (statement_at height_left) cursor.old) }
{
    let condition = condition(cursor, Site::Method, height_left)?;
    let body = child(cursor, height_left)?;
    Ok(while_loop(condition, body))
}

// After `do`.
#[cycle(statement)]
#[tactic(auto, unfolding(edd_grammar::specs::StatementReading::do_at, crate::specs::Bodies::do_end_at))]
fn after_do(cursor: &mut Cursor, height_left: u32) -> Result<Stmt<Path>, ParseFault>
    requires { height_left < 100 }
    ensures { Gives stmt_view result cursor.new
        (reading.do_at height_left (statement_at height_left) cursor.old) }
{
    let body = child(cursor, height_left)?;
    let condition = do_end(cursor, height_left)?;
    Ok(do_loop(body, condition))
}

// After `for`.
#[cycle(statement)]
#[tactic(auto, unfolding(edd_grammar::specs::StatementReading::for_at, crate::specs::Bodies::for_head_at))]
fn after_for(cursor: &mut Cursor, height_left: u32) -> Result<Stmt<Path>, ParseFault>
    requires { height_left < 100 }
    ensures { Gives stmt_view result cursor.new
        (reading.for_at height_left (statement_at height_left) cursor.old) }
{
    let head = for_head(cursor, height_left)?;
    let body = child(cursor, height_left)?;
    Ok(for_loop(head, body))
}

// After `switch`.
#[cycle(statement)]
#[tactic(auto, unfolding(edd_grammar::specs::StatementReading::switch_at, crate::specs::Bodies::switch_head_at))]
fn after_switch(cursor: &mut Cursor, height_left: u32) -> Result<Stmt<Path>, ParseFault>
    requires { height_left < 100 }
    ensures { Gives stmt_view result cursor.new
        (reading.switch_at height_left (statement_at height_left) cursor.old) }
{
    let on = switch_head(cursor, height_left)?;
    let parts = body(cursor, height_left, true)?;
    Ok(switch(on, parts))
}

/// The body of a method of at most this height, after its opening brace, with the closing one.
#[tactic(auto, unfolding(edd_grammar::specs::StatementReading::definition_at))]
pub fn definition(cursor: &mut Cursor, height_left: u32) -> Result<Vec<Part<Path>>, ParseFault>
    requires { height_left ≤ 100 }
    ensures { Gives (λ v. body_view v.items) result cursor.new
        (reading.definition_at height_left cursor.old) }
{
    body(cursor, height_left, false)
}
