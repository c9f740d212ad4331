//! Expressions, by the precedence of their operators.

ghost use Rattle.std.specs.Prelude.{◌≡◌, ◌≤◌, ◌<◌, ◌+◌, length, drop, Some, None, IfOk, nat_le, if◌then◌else◌};
ghost use Rattle.edd_syntax.specs.TreeView.{path_of};
ghost use Rattle.edd_syntax.specs.Size.{height};
ghost use Rattle.edd_syntax.specs.declared.symbols.Symbol.TheVariants as sign;
ghost use Rattle.edd_grammar.specs.Reading.{expect, on_option};
ghost use Rattle.edd_grammar.specs.ExpressionReading as reading;
ghost use Rattle.edd_grammar.specs.ExpressionReading.{expr_at, operator_at};
ghost use Rattle.edd_token_reader.specs.Views.{site_view, infix_view, Gives};
ghost use Rattle.edd_expression_parser.specs.Expressions.{expr_view, pure_argument, listed, up_to_at};

use crate::trees::{
    Child, Measured, MeasuredArgument, MeasuredArguments, assigned, binary, boxed, call,
    choice_between, fitted, indexed_by, into_path, leaf, no_arguments, parentheses, unary_over,
    with_argument,
};
use edd_lexer::token::TokenKind;
use edd_syntax::expr::{Argument, Expr};
use edd_syntax::numbers::TokenNo;
use edd_syntax::operators::{IncrementOperator, UnaryOperator};
use edd_syntax::reference::Path;
use edd_syntax::symbols::Symbol;
use edd_token_reader::cursor::Cursor;
use edd_token_reader::fault::ParseFault;
use edd_token_reader::operators::{
    Assignment, Infix, Site, before_of, in_method, loosest, precedence_of, unary_of,
};
use edd_token_reader::texts::{at_text, path, path_from, text};

// A reference, and a step after it.
#[tactic(auto, unfolding(edd_grammar::specs::ExpressionReading::postfix))]
fn stepped(cursor: &mut Cursor, site: Site, to: Path) -> Result<Measured, ParseFault>
    ensures read { Gives (λ t. expr_view t.expr) result cursor.new
        (reading.postfix (site_view site) (path_of to) cursor.old) }
    ensures low { IfOk result (λ t. t.levels ≤ 1) }
{
    let Some(op) = cursor.step() else {
        return Ok(leaf(Expr::Reference(to)));
    };
    if !in_method(site) {
        return Err(cursor.syntax_taken());
    }
    Ok(leaf(Expr::Increment(op, to)))
}

// A step and the reference after it.
#[tactic(auto, unfolding(edd_grammar::specs::ExpressionReading::step_before))]
fn step_before(
    cursor: &mut Cursor,
    site: Site,
    op: IncrementOperator,
) -> Result<Measured, ParseFault>
    ensures read { Gives (λ t. expr_view t.expr) result cursor.new
        (reading.step_before (site_view site) op cursor.old) }
    ensures low { IfOk result (λ t. t.levels ≤ 1) }
{
    if !in_method(site) {
        return Err(cursor.syntax_taken());
    }
    let to = path(cursor)?;
    Ok(leaf(Expr::Increment(op, to)))
}

// These arguments, if their parenthesis closes here.
#[tactic(auto, unfolding(edd_grammar::specs::ExpressionReading::closing))]
fn close(cursor: &mut Cursor, all: MeasuredArguments) -> Result<MeasuredArguments, ParseFault>
    ensures read { Gives (λ a. listed a.arguments.items) result cursor.new
        (reading.closing (listed all.arguments.items) (expect sign.CloseParenthesis cursor.old)) }
    ensures same { IfOk result (λ a. a.levels ≡ all.levels) }
{
    cursor.expect(Symbol::CloseParenthesis)?;
    Ok(all)
}

// The left side of an operator that was just taken, if its height leaves room for the operator.
fn left_side(cursor: &mut Cursor, height_left: u32, left: Measured) -> Result<Child, ParseFault>
    ensures read { Gives (λ c. expr_view c.expr.value) result cursor.new
        (if nat_le (height (expr_view left.expr)) height_left then Some
        (expr_view left.expr, cursor.old) else None) }
    ensures low { IfOk result (λ c. c.levels ≤ height_left) }
{
    if left.levels > height_left {
        return Err(cursor.too_deep_taken());
    }
    Ok(boxed(cursor.alloc(), left)?)
}

// What is tested by the question mark that is next and is taken, if its height leaves room for the
// choice.
fn tested(cursor: &mut Cursor, height_left: u32, test: Measured) -> Result<Child, ParseFault>
    ensures read { Gives (λ c. expr_view c.expr.value) result cursor.new
        (if nat_le (height (expr_view test.expr)) height_left then Some
        (expr_view test.expr, drop 1 cursor.old) else None) }
    ensures low { IfOk result (λ c. c.levels ≤ height_left) }
{
    if test.levels > height_left {
        return Err(cursor.too_deep());
    }
    cursor.bump();
    Ok(boxed(cursor.alloc(), test)?)
}

/// An expression of at most this height, at a site for this precedence or a tighter one.
#[cycle(expr)]
#[tactic(auto, using(crate::proofs::Loops::levels))]
pub fn expr(
    cursor: &mut Cursor,
    site: Site,
    height_left: u32,
    precedence: u32,
) -> Result<Measured, ParseFault>
    requires { height_left ≤ 100 }
    ensures read { Gives (λ t. expr_view t.expr) result cursor.new
        (expr_at (site_view site) height_left precedence cursor.old) }
    ensures low { IfOk result (λ t. t.levels ≤ height_left) }
{
    if height_left == 0 {
        return Err(cursor.too_deep());
    }
    layer(cursor, site, height_left - 1, precedence)
}

// An expression whose children are of at most this height.
#[cycle(expr)]
#[tactic(auto, unfolding(edd_grammar::specs::ExpressionReading::layer))]
fn layer(
    cursor: &mut Cursor,
    site: Site,
    height_left: u32,
    precedence: u32,
) -> Result<Measured, ParseFault>
    requires { height_left < 100 }
    ensures read { Gives (λ t. expr_view t.expr) result cursor.new
        (reading.layer (site_view site) (expr_at (site_view site) height_left) height_left
        precedence cursor.old) }
    ensures low { IfOk result (λ t. t.levels ≤ height_left + 1) }
{
    let first = operand(cursor, site, height_left)?;
    let left = chain(cursor, site, height_left, precedence, first)?;
    let whole = choice(cursor, site, height_left, precedence, left)?;
    assignment(cursor, site, height_left, precedence, whole)
}

// An expression inside another one.
#[cycle(expr)]
fn child(
    cursor: &mut Cursor,
    site: Site,
    height_left: u32,
    precedence: u32,
) -> Result<Child, ParseFault>
    requires { height_left ≤ 100 }
    ensures read { Gives (λ c. expr_view c.expr.value) result cursor.new
        (expr_at (site_view site) height_left precedence cursor.old) }
    ensures low { IfOk result (λ c. c.levels ≤ height_left) }
{
    let inner = expr(cursor, site, height_left, precedence)?;
    Ok(boxed(cursor.alloc(), inner)?)
}

// An expression inside another one, up to this sign, with the sign.
#[cycle(expr)]
#[tactic(auto, unfolding(crate::specs::Expressions::up_to_at))]
fn up_to(
    cursor: &mut Cursor,
    site: Site,
    height_left: u32,
    sign: Symbol,
) -> Result<Child, ParseFault>
    requires { height_left ≤ 100 }
    ensures read { Gives (λ c. expr_view c.expr.value) result cursor.new
        (up_to_at (site_view site) height_left sign cursor.old) }
    ensures low { IfOk result (λ c. c.levels ≤ height_left) }
{
    let inner = child(cursor, site, height_left, loosest(site))?;
    cursor.expect(sign)?;
    Ok(inner)
}

// Precedences 13 to 15.
#[cycle(expr)]
#[tactic(auto, unfolding(edd_grammar::specs::ExpressionReading::operand_at))]
fn operand(cursor: &mut Cursor, site: Site, height_left: u32) -> Result<Measured, ParseFault>
    requires { height_left < 100 }
    ensures read { Gives (λ t. expr_view t.expr) result cursor.new
        (reading.operand_at (site_view site) (expr_at (site_view site) height_left)
        cursor.old) }
    ensures low { IfOk result (λ t. t.levels ≤ height_left + 1) }
{
    let at = cursor.place();
    if let Some(name) = cursor.name() {
        return named(cursor, site, height_left, at, name);
    }
    match cursor.next() {
        None => Err(cursor.syntax()),
        Some(TokenKind::Integer(value)) => Ok(leaf(Expr::Literal(value))),
        Some(TokenKind::Decimal) => Ok(leaf(Expr::Decimal { at })),
        Some(TokenKind::Symbol(sign)) => signed(cursor, site, height_left, sign),
        Some(TokenKind::Name | TokenKind::String | TokenKind::Keyword(_)) => {
            Err(ParseFault::Syntax { at })
        }
    }
}

// After a name: a call's arguments, the number of an element, or the rest of a reference.
#[cycle(expr)]
#[tactic(auto, unfolding(edd_grammar::specs::ExpressionReading::named_at))]
fn named(
    cursor: &mut Cursor,
    site: Site,
    height_left: u32,
    at: TokenNo,
    name: &str,
) -> Result<Measured, ParseFault>
    requires { height_left < 100 }
    ensures read { Gives (λ t. expr_view t.expr) result cursor.new
        (reading.named_at (site_view site) (expr_at (site_view site) height_left) name.now
        cursor.old) }
    ensures low { IfOk result (λ t. t.levels ≤ height_left + 1) }
{
    if cursor.at(Symbol::OpenParenthesis) {
        if !in_method(site) {
            return Err(cursor.syntax());
        }
        cursor.bump();
        let arguments = arguments(cursor, site, height_left)?;
        return Ok(call(cursor.alloc(), at, name, arguments)?);
    }
    if cursor.eat(Symbol::OpenBracket) {
        return indexed(cursor, site, height_left, at, name);
    }
    let to = path_from(cursor, at, name)?;
    stepped(cursor, site, to)
}

// After the name of an array and its bracket.
#[cycle(expr)]
#[tactic(auto, unfolding(edd_grammar::specs::ExpressionReading::index_behind, crate::specs::Expressions::up_to_at))]
fn indexed(
    cursor: &mut Cursor,
    site: Site,
    height_left: u32,
    at: TokenNo,
    name: &str,
) -> Result<Measured, ParseFault>
    requires { height_left < 100 }
    ensures read { Gives (λ t. expr_view t.expr) result cursor.new
        (reading.index_behind (site_view site) (expr_at (site_view site) height_left) name.now
        cursor.old) }
    ensures low { IfOk result (λ t. t.levels ≤ height_left + 1) }
{
    let index = up_to(cursor, site, height_left, Symbol::CloseBracket)?;
    Ok(indexed_by(cursor.alloc(), at, name, index)?)
}

// After an operator before its operand.
#[cycle(expr)]
#[tactic(auto, unfolding(edd_grammar::specs::ExpressionReading::unary_behind))]
fn unary(
    cursor: &mut Cursor,
    site: Site,
    height_left: u32,
    op: UnaryOperator,
) -> Result<Measured, ParseFault>
    requires { height_left < 100 }
    ensures read { Gives (λ t. expr_view t.expr) result cursor.new
        (reading.unary_behind (site_view site) (expr_at (site_view site) height_left) op
        cursor.old) }
    ensures low { IfOk result (λ t. t.levels ≤ height_left + 1) }
{
    let operand = child(cursor, site, height_left, 13)?;
    Ok(unary_over(op, operand))
}

// After a sign: an expression in parentheses, or an operand after its operator.
#[cycle(expr)]
#[tactic(auto, unfolding(edd_grammar::specs::ExpressionReading::signed_at, edd_grammar::specs::ExpressionReading::parentheses_behind, crate::specs::Expressions::up_to_at))]
fn signed(
    cursor: &mut Cursor,
    site: Site,
    height_left: u32,
    sign: Symbol,
) -> Result<Measured, ParseFault>
    requires { height_left < 100 }
    ensures read { Gives (λ t. expr_view t.expr) result cursor.new
        (reading.signed_at (site_view site) (expr_at (site_view site) height_left) sign
        cursor.old) }
    ensures low { IfOk result (λ t. t.levels ≤ height_left + 1) }
{
    if sign == Symbol::OpenParenthesis {
        let inner = up_to(cursor, site, height_left, Symbol::CloseParenthesis)?;
        return Ok(parentheses(inner));
    }
    if let Some(op) = unary_of(sign) {
        return unary(cursor, site, height_left, op);
    }
    let Some(op) = before_of(sign) else {
        return Err(cursor.syntax_taken());
    };
    step_before(cursor, site, op)
}

#[cycle(expr)]
#[tactic(auto, unfolding(edd_grammar::specs::ExpressionReading::argument_at))]
fn argument(
    cursor: &mut Cursor,
    site: Site,
    height_left: u32,
) -> Result<MeasuredArgument, ParseFault>
    requires { height_left < 100 }
    ensures read { Gives (λ a. pure_argument a.argument) result cursor.new
        (reading.argument_at (site_view site) (expr_at (site_view site) height_left)
        cursor.old) }
    ensures low { IfOk result (λ a. a.levels ≤ height_left) }
{
    if at_text(cursor) {
        return Ok(MeasuredArgument {
            argument: Argument::Text(text(cursor)?),
            levels: 0,
        });
    }
    let value = expr(cursor, site, height_left, loosest(site))?;
    Ok(MeasuredArgument {
        argument: Argument::Value(value.expr),
        levels: value.levels,
    })
}

// The arguments of a call, up to the closing parenthesis.
#[cycle(expr)]
#[tactic(auto, unfolding(edd_grammar::specs::ExpressionReading::arguments_at))]
fn arguments(
    cursor: &mut Cursor,
    site: Site,
    height_left: u32,
) -> Result<MeasuredArguments, ParseFault>
    requires { height_left < 100 }
    ensures read { Gives (λ a. listed a.arguments.items) result cursor.new
        (reading.arguments_at (site_view site) (expr_at (site_view site) height_left)
        cursor.old) }
    ensures low { IfOk result (λ a. a.levels ≤ height_left) }
{
    if cursor.eat(Symbol::CloseParenthesis) {
        return Ok(no_arguments(cursor.alloc()));
    }
    some_arguments(cursor, site, height_left)
}

// One argument at least.
#[cycle(expr)]
#[tactic(auto, using(crate::proofs::Loops::lists))]
fn some_arguments(
    cursor: &mut Cursor,
    site: Site,
    height_left: u32,
) -> Result<MeasuredArguments, ParseFault>
    requires { height_left < 100 }
    ensures read { Gives (λ a. listed a.arguments.items) result cursor.new
        (reading.some_arguments (site_view site) (expr_at (site_view site) height_left)
        (length cursor.old) cursor.old) }
    ensures low { IfOk result (λ a. a.levels ≤ height_left) }
{
    let mut all = no_arguments(cursor.alloc());
    loop {
        let next = argument(cursor, site, height_left)?;
        all = with_argument(all, next)?;
        if !cursor.eat(Symbol::Comma) {
            return close(cursor, fitted(all));
        }
    }
}

// The right side of an operator, joined with its left side.
#[cycle(expr)]
#[tactic(auto, unfolding(edd_grammar::specs::ExpressionReading::joined_at))]
fn joined(
    cursor: &mut Cursor,
    site: Site,
    height_left: u32,
    op: Infix,
    left: Measured,
) -> Result<Measured, ParseFault>
    requires { height_left < 100 }
    ensures read { Gives (λ t. expr_view t.expr) result cursor.new
        (reading.joined_at (site_view site) (expr_at (site_view site) height_left) height_left
        (infix_view op) (expr_view left.expr) cursor.old) }
    ensures low { IfOk result (λ t. t.levels ≤ height_left + 1) }
{
    let left = left_side(cursor, height_left, left)?;
    let right = child(cursor, site, height_left, precedence_of(op) + 1)?;
    Ok(binary(op, left, right))
}

// The left side, if no operator of this precedence or a tighter one follows: with it the tree would
// be too high.
fn last(cursor: &mut Cursor, precedence: u32, left: Measured) -> Result<Measured, ParseFault>
    ensures read { Gives (λ t. expr_view t.expr) result cursor.new
        (on_option (operator_at precedence cursor.old) (Some (expr_view left.expr, cursor.old))
        (λ o. None)) }
    ensures same { IfOk result (λ t. t.levels ≡ left.levels) }
{
    let at = cursor.place();
    match cursor.operator(precedence) {
        None => Ok(left),
        Some(_) => Err(ParseFault::TooDeep { at }),
    }
}

// The operators of this precedence and of tighter ones that follow the first operand.
#[cycle(expr)]
#[tactic(auto, using(crate::proofs::Loops::chains))]
fn chain(
    cursor: &mut Cursor,
    site: Site,
    height_left: u32,
    precedence: u32,
    first: Measured,
) -> Result<Measured, ParseFault>
    requires low { height_left < 100 }
    requires first_low { first.levels ≤ height_left + 1 }
    ensures read { Gives (λ t. expr_view t.expr) result cursor.new
        (reading.chain (site_view site) (expr_at (site_view site) height_left) height_left
        precedence (height_left + 1) (expr_view first.expr) cursor.old) }
    ensures low { IfOk result (λ t. t.levels ≤ height_left + 1) }
{
    let mut left = first;
    for _ in 0..height_left + 1 {
        let Some(op) = cursor.operator(precedence) else {
            return Ok(left);
        };
        left = joined(cursor, site, height_left, op, left)?;
    }
    last(cursor, precedence, left)
}

// Precedence 2, after its condition.
#[cycle(expr)]
#[tactic(auto, unfolding(edd_grammar::specs::ExpressionReading::choice_at, crate::specs::Expressions::up_to_at))]
fn choice(
    cursor: &mut Cursor,
    site: Site,
    height_left: u32,
    precedence: u32,
    test: Measured,
) -> Result<Measured, ParseFault>
    requires low { height_left < 100 }
    requires test_low { test.levels ≤ height_left + 1 }
    ensures read { Gives (λ t. expr_view t.expr) result cursor.new
        (reading.choice_at (site_view site) (expr_at (site_view site) height_left) height_left
        precedence (expr_view test.expr) cursor.old) }
    ensures low { IfOk result (λ t. t.levels ≤ height_left + 1) }
{
    if precedence > 2 || !cursor.at(Symbol::Question) {
        return Ok(test);
    }
    let test = tested(cursor, height_left, test)?;
    let first = up_to(cursor, site, height_left, Symbol::Colon)?;
    let second = child(cursor, site, height_left, 2)?;
    Ok(choice_between(test, first, second))
}

// Precedence 1, after what may be its left side.
#[cycle(expr)]
#[tactic(auto, unfolding(edd_grammar::specs::ExpressionReading::assign_at))]
fn assignment(
    cursor: &mut Cursor,
    site: Site,
    height_left: u32,
    precedence: u32,
    whole: Measured,
) -> Result<Measured, ParseFault>
    requires low { height_left < 100 }
    requires whole_low { whole.levels ≤ height_left + 1 }
    ensures read { Gives (λ t. expr_view t.expr) result cursor.new
        (reading.assign_at (site_view site) (expr_at (site_view site) height_left) precedence
        (expr_view whole.expr) cursor.old) }
    ensures low { IfOk result (λ t. t.levels ≤ height_left + 1) }
{
    if precedence > 1 || !in_method(site) {
        return Ok(whole);
    }
    let levels = whole.levels;
    let to = match into_path(whole.expr) {
        Ok(to) => to,
        Err(expr) => return Ok(Measured { expr, levels }),
    };
    let Some(op) = cursor.assignment() else {
        return Ok(leaf(Expr::Reference(to)));
    };
    let value = child(cursor, site, height_left, 1)?;
    Ok(assigned(op, to, value))
}
