//! Conditionals of values of any kind.

ghost use Rattle.std.specs.Prelude.{◌≡◌, ◌≤◌, ◌<◌, ◌+◌, ℕ, List, [], ◌∷◌, length, Some, IfOk};
ghost use Rattle.edd_syntax.specs.Token.{Token};
ghost use Rattle.edd_grammar.specs.Reading.{Read};
ghost use Rattle.edd_grammar.specs.WordReading.{braced};
ghost use Rattle.edd_grammar.specs.ConditionalReading as reading;
ghost use Rattle.edd_expression_parser.specs.declared.cond.Form.TheVariants.{Many};
ghost use Rattle.edd_expression_parser.specs.Conditionals as conditionals;
ghost use Rattle.edd_expression_parser.specs.Conditionals.{cond_view, conds_view, arm_view, arms_view, cond_at, value_in, branch_in};
ghost use Rattle.edd_expression_parser.specs.Shortening.{Shortens};
ghost use Rattle.edd_token_reader.specs.Views.{site_view, Gives};
ghost use Rattle.edd_expression_parser.specs.Expressions.{expr_view};

use crate::expr::expr;
use edd_syntax::cond::{Arm, Cond};
use edd_syntax::expr::Expr;
use edd_syntax::operators::Operator;
use edd_syntax::reference::Path;
use edd_syntax::symbols::{Keyword, Symbol};
use edd_token_reader::cursor::Cursor;
use edd_token_reader::fault::ParseFault;
use edd_token_reader::operators::{Site, loosest};
use edd_token_reader::words::{integer, skip_comma};
use std::alloc::{AllocError, Global};

/// Whether a conditional has one value in each branch or is in a list.
#[derive(Clone, Copy, PartialEq, Eq, Debug)]
pub enum Form {
    One,
    Many,
}

/// What may be a value of a conditional, and how it is read.
pub trait ParseValue: Sized + Drop {
    ghost Pure: { Type 0 };

    ghost view: { Self → Pure };

    ghost read: { ℕ → List Token → Read Pure };

    /// A value of at most this height.
    fn read_value(cursor: &mut Cursor, height_left: u32) -> Result<Self, ParseFault>
        requires { height_left ≤ 100 }
        ensures { Gives view result cursor.new (read height_left cursor.old) };

    /// It takes a token at least.
    ghost shortens: { (height_left : ℕ) → Shortens (read height_left) };
}

// An integer after a minus sign.
fn negative(cursor: &mut Cursor) -> Result<i64, ParseFault>
    ensures { Gives (λ z. z) result cursor.new (reading.negative_at cursor.old) }
{
    Ok(-i64::from(integer(cursor)?))
}

/// An integer, or its negative.
pub fn label(cursor: &mut Cursor) -> Result<i64, ParseFault>
    ensures { Gives (λ z. z) result cursor.new (reading.label_at cursor.old) }
{
    if let Some(n) = cursor.integer() {
        return Ok(i64::from(n));
    }
    if !cursor.eat(Symbol::Operator(Operator::Subtract)) {
        return Err(cursor.syntax());
    }
    negative(cursor)
}

/// `( e )`
#[tactic(auto, unfolding(edd_grammar::specs::ConditionalReading::condition_at))]
pub fn condition(
    cursor: &mut Cursor,
    site: Site,
    height_left: u32,
) -> Result<Expr<Path>, ParseFault>
    requires { height_left ≤ 100 }
    ensures { Gives expr_view result cursor.new (reading.condition_at (site_view site) height_left
        cursor.old) }
{
    cursor.expect(Symbol::OpenParenthesis)?;
    let inside = expr(cursor, site, height_left, loosest(site))?;
    cursor.expect(Symbol::CloseParenthesis)?;
    Ok(inside.expr)
}

// What a SELECT is on, and the brace after it.
#[tactic(auto, unfolding(crate::specs::Conditionals::select_head))]
fn select_head(cursor: &mut Cursor, height_left: u32) -> Result<Expr<Path>, ParseFault>
    requires { height_left ≤ 100 }
    ensures { Gives expr_view result cursor.new (conditionals.select_head height_left cursor.old) }
{
    let on = condition(cursor, Site::Attribute, height_left)?;
    cursor.expect(Symbol::OpenBrace)?;
    Ok(on)
}

fn list_ends(cursor: &Cursor) -> bool
    ensures { result ≡ reading.list_ends cursor.now }
{
    cursor.at(Symbol::CloseBrace)
        || cursor.at_word(Keyword::Case)
        || cursor.at_word(Keyword::Default)
}

// A value, with a semicolon after a single one.
#[tactic(auto, unfolding(crate::specs::Conditionals::value_in, edd_grammar::specs::ConditionalReading::ended))]
fn one_value<V: ParseValue>(
    cursor: &mut Cursor,
    form: Form,
    height_left: u32,
) -> Result<V, ParseFault>
    requires { height_left ≤ 100 }
    ensures { Gives V.view result cursor.new (value_in form (V.read height_left) cursor.old) }
{
    let value = V::read_value(cursor, height_left)?;
    match form {
        Form::One => cursor.expect(Symbol::Semicolon)?,
        Form::Many => {}
    }
    Ok(value)
}

fn alone<V: ParseValue>(
    alloc: Global,
    inner: Cond<Path, V>,
) -> Result<Vec<Cond<Path, V>>, AllocError>
    ensures { IfOk result (λ v. v.items ≡ inner ∷ []) }
{
    let mut all = Vec::with_capacity(alloc, 1)?;
    all.push(inner)?;
    Ok(all)
}

/// A conditional of at most this height.
#[cycle(cond)]
#[tactic(auto, using(crate::proofs::CondLoops::levels))]
pub fn cond<V: ParseValue>(
    cursor: &mut Cursor,
    form: Form,
    height_left: u32,
) -> Result<Cond<Path, V>, ParseFault>
    requires { height_left ≤ 100 }
    ensures { Gives (cond_view V.view) result cursor.new
        (cond_at form V.read height_left cursor.old) }
{
    if height_left == 0 {
        return Err(cursor.too_deep());
    }
    layer(cursor, form, height_left - 1)
}

// A conditional whose children are of at most this height.
#[cycle(cond)]
#[tactic(auto, unfolding(edd_grammar::specs::ConditionalReading::cond_layer), using(edd_syntax::proofs::CondRows::equations))]
fn layer<V: ParseValue>(
    cursor: &mut Cursor,
    form: Form,
    height_left: u32,
) -> Result<Cond<Path, V>, ParseFault>
    requires { height_left < 100 }
    ensures { Gives (cond_view V.view) result cursor.new
        (conditionals.layer form V.read height_left cursor.old) }
{
    if cursor.eat_word(Keyword::If) {
        return after_if(cursor, form, height_left);
    }
    if cursor.eat_word(Keyword::Select) {
        return after_select(cursor, form, height_left);
    }
    Ok(Cond::Value(one_value(cursor, form, height_left)?))
}

// After IF.
#[cycle(cond)]
#[tactic(auto, unfolding(edd_grammar::specs::ConditionalReading::if_at), using(edd_syntax::proofs::CondRows::equations))]
fn after_if<V: ParseValue>(
    cursor: &mut Cursor,
    form: Form,
    height_left: u32,
) -> Result<Cond<Path, V>, ParseFault>
    requires { height_left < 100 }
    ensures { Gives (cond_view V.view) result cursor.new
        (conditionals.after_if form V.read height_left cursor.old) }
{
    let condition = condition(cursor, Site::Attribute, height_left)?;
    let first = braces(cursor, form, height_left)?;
    let otherwise = otherwise(cursor, form, height_left)?;
    Ok(Cond::If {
        condition,
        first,
        otherwise,
    })
}

// ELSE and what belongs to it, or nothing.
#[cycle(cond)]
#[tactic(auto, unfolding(edd_grammar::specs::ConditionalReading::else_at))]
fn otherwise<V: ParseValue>(
    cursor: &mut Cursor,
    form: Form,
    height_left: u32,
) -> Result<Vec<Cond<Path, V>>, ParseFault>
    requires { height_left < 100 }
    ensures { Gives (λ v. conds_view V.view v.items) result cursor.new
        (conditionals.otherwise form V.read height_left cursor.old) }
{
    if !cursor.eat_word(Keyword::Else) {
        return Ok(Vec::new(cursor.alloc()));
    }
    if !cursor.at_word(Keyword::If) {
        return braces(cursor, form, height_left);
    }
    let inner = cond(cursor, form, height_left)?;
    Ok(alone(cursor.alloc(), inner)?)
}

// A branch in braces.
#[cycle(cond)]
#[tactic(auto, unfolding(edd_grammar::specs::ConditionalReading::braces_at))]
fn braces<V: ParseValue>(
    cursor: &mut Cursor,
    form: Form,
    height_left: u32,
) -> Result<Vec<Cond<Path, V>>, ParseFault>
    requires { height_left < 100 }
    ensures { Gives (λ v. conds_view V.view v.items) result cursor.new
        (conditionals.braces form V.read height_left cursor.old) }
{
    cursor.expect(Symbol::OpenBrace)?;
    let all = branch(cursor, form, height_left)?;
    cursor.expect(Symbol::CloseBrace)?;
    Ok(all)
}

// What is in a branch.
#[cycle(cond)]
#[tactic(auto, unfolding(crate::specs::Conditionals::branch_in, edd_grammar::specs::ConditionalReading::only))]
fn branch<V: ParseValue>(
    cursor: &mut Cursor,
    form: Form,
    height_left: u32,
) -> Result<Vec<Cond<Path, V>>, ParseFault>
    requires { height_left < 100 }
    ensures { Gives (λ v. conds_view V.view v.items) result cursor.new
        (conditionals.branches form V.read height_left cursor.old) }
{
    match form {
        Form::One => {
            let inner = cond(cursor, form, height_left)?;
            Ok(alone(cursor.alloc(), inner)?)
        }
        Form::Many => elements(cursor, height_left),
    }
}

/// The elements of a list, each of at most this height, up to its end.
#[cycle(cond)]
#[tactic(auto, using(crate::proofs::CondLoops::elements_read))]
pub fn elements<V: ParseValue>(
    cursor: &mut Cursor,
    height_left: u32,
) -> Result<Vec<Cond<Path, V>>, ParseFault>
    requires { height_left ≤ 100 }
    ensures { Gives (λ v. conds_view V.view v.items) result cursor.new
        (reading.listed (cond_at Many V.read height_left) cursor.old) }
{
    let mut all = Vec::new(cursor.alloc());
    while !list_ends(cursor) {
        all.push(cond(cursor, Form::Many, height_left)?)?;
        skip_comma(cursor);
    }
    all.shrink_to_fit();
    Ok(all)
}

// After SELECT.
#[cycle(cond)]
#[tactic(auto, unfolding(edd_grammar::specs::ConditionalReading::select_at, crate::specs::Conditionals::select_head), using(edd_syntax::proofs::CondRows::equations))]
fn after_select<V: ParseValue>(
    cursor: &mut Cursor,
    form: Form,
    height_left: u32,
) -> Result<Cond<Path, V>, ParseFault>
    requires { height_left < 100 }
    ensures { Gives (cond_view V.view) result cursor.new
        (conditionals.after_select form V.read height_left cursor.old) }
{
    let on = select_head(cursor, height_left)?;
    let arms = arms(cursor, form, height_left)?;
    cursor.expect(Symbol::CloseBrace)?;
    Ok(Cond::Select { on, arms })
}

// The arms up to the closing brace.
#[cycle(cond)]
#[tactic(auto, using(crate::proofs::CondLoops::arms_read))]
fn arms<V: ParseValue>(
    cursor: &mut Cursor,
    form: Form,
    height_left: u32,
) -> Result<Vec<Arm<Path, V>>, ParseFault>
    requires { height_left < 100 }
    ensures { Gives (λ v. arms_view V.view v.items) result cursor.new
        (conditionals.arms form V.read height_left (length cursor.old + 1) cursor.old) }
{
    let mut all = Vec::new(cursor.alloc());
    while !cursor.at(Symbol::CloseBrace) {
        all.push(arm(cursor, form, height_left)?)?;
    }
    all.shrink_to_fit();
    Ok(all)
}

// One arm.
#[cycle(cond)]
#[tactic(auto, unfolding(crate::specs::Conditionals::arm_at, edd_grammar::specs::ConditionalReading::case_at, edd_grammar::specs::ConditionalReading::default_at), using(edd_syntax::proofs::CondRows::equations))]
fn arm<V: ParseValue>(
    cursor: &mut Cursor,
    form: Form,
    height_left: u32,
) -> Result<Arm<Path, V>, ParseFault>
    requires { height_left < 100 }
    ensures { Gives (arm_view V.view) result cursor.new
        (conditionals.arm_at form V.read height_left cursor.old) }
{
    let at = cursor.place();
    if cursor.eat_word(Keyword::Case) {
        let label = label(cursor)?;
        cursor.expect(Symbol::Colon)?;
        let body = branch(cursor, form, height_left)?;
        return Ok(Arm::Case { label, body });
    }
    if !cursor.eat_word(Keyword::Default) {
        return Err(cursor.syntax());
    }
    cursor.expect(Symbol::Colon)?;
    let body = branch(cursor, form, height_left)?;
    Ok(Arm::Default { at, body })
}

/// A single value of at most this height.
#[tactic(auto, using(crate::proofs::CondLoops::one_is))]
pub fn one<V: ParseValue>(
    cursor: &mut Cursor,
    height_left: u32,
) -> Result<Cond<Path, V>, ParseFault>
    requires { height_left ≤ 100 }
    ensures { Gives (cond_view V.view) result cursor.new
        (reading.one_at V.read height_left cursor.old) }
{
    cond(cursor, Form::One, height_left)
}

/// An element of a list, of at most this height.
#[tactic(auto, using(crate::proofs::CondLoops::many_is))]
pub fn element<V: ParseValue>(
    cursor: &mut Cursor,
    height_left: u32,
) -> Result<Cond<Path, V>, ParseFault>
    requires { height_left ≤ 100 }
    ensures { Gives (cond_view V.view) result cursor.new
        (reading.element_at V.read height_left cursor.old) }
{
    cond(cursor, Form::Many, height_left)
}

/// A list in braces, whose elements are of at most this height.
#[tactic(auto, unfolding(edd_grammar::specs::WordReading::braced), using(crate::proofs::CondLoops::list_is))]
pub fn braced_list<V: ParseValue>(
    cursor: &mut Cursor,
    height_left: u32,
) -> Result<Vec<Cond<Path, V>>, ParseFault>
    requires { height_left ≤ 100 }
    ensures { Gives (λ v. conds_view V.view v.items) result cursor.new
        (braced (reading.list_at V.read height_left) cursor.old) }
{
    cursor.expect(Symbol::OpenBrace)?;
    let all = elements(cursor, height_left)?;
    cursor.expect(Symbol::CloseBrace)?;
    Ok(all)
}
