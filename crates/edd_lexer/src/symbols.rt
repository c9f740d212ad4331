//! The signs and operators.

ghost use Rattle.std.specs.Prelude.{◌≡◌};
ghost use Rattle.edd_lexer.specs.Reading as reading;
ghost use Rattle.edd_lexer.specs.Reading.{token};
ghost use Rattle.edd_syntax.specs.Token.{Sign};
ghost use Rattle.edd_syntax.specs.declared.operators.Operator.TheVariants as operator;
ghost use Rattle.edd_lexer.specs.Parts.{sign_of};

use crate::bytes::next_is;
use edd_syntax::operators::{Comparison, Operator};
use edd_syntax::symbols::Symbol;

// The sign `longer` if this byte is next, else the other.
fn followed(byte: u8, longer: Symbol, other: Symbol, rest: &[u8]) -> (Symbol, &[u8])
    ensures { sign_of (Some result) ≡ reading.followed byte longer (token (Sign other) rest.now)
        rest.now }
{
    if next_is(byte, rest) {
        (longer, &rest[1..])
    } else {
        (other, rest)
    }
}

// The operator, or its assignment if `=` is next.
fn assigned(operator: Operator, rest: &[u8]) -> (Symbol, &[u8])
    ensures { sign_of (Some result) ≡ reading.assigned operator rest.now }
{
    followed(
        b'=',
        Symbol::CompoundAssign(operator),
        Symbol::Operator(operator),
        rest,
    )
}

// The operator twice, or else the operator or its assignment.
fn doubled(byte: u8, twice: Symbol, operator: Operator, rest: &[u8]) -> (Symbol, &[u8])
    ensures { sign_of (Some result)
        ≡ reading.followed byte twice (reading.assigned operator rest.now) rest.now }
{
    if next_is(byte, rest) {
        (twice, &rest[1..])
    } else {
        assigned(operator, rest)
    }
}

// The shift if this byte is next, or its assignment; else the comparison with `=` after it, or
// without.
fn shifted(
    byte: u8,
    shift: Operator,
    with_equals: Comparison,
    alone: Comparison,
    rest: &[u8],
) -> (Symbol, &[u8])
    ensures { sign_of (Some result) ≡ reading.shifted byte shift with_equals alone rest.now }
{
    if next_is(byte, rest) {
        return assigned(shift, &rest[1..]);
    }
    followed(
        b'=',
        Symbol::Comparison(with_equals),
        Symbol::Comparison(alone),
        rest,
    )
}

// The sign that begins with this byte, where it can be longer.
#[inline(always)]
#[tactic(auto, unfolding(crate::specs::Reading::operator_at))]
fn operator_at(first: u8, rest: &[u8]) -> Option<(Symbol, &[u8])>
    ensures { sign_of result ≡ reading.operator_at first rest.now }
{
    match first {
        b'=' => Some(followed(
            b'=',
            Symbol::Comparison(Comparison::Equal),
            Symbol::Equals,
            rest,
        )),
        b'!' => Some(followed(
            b'=',
            Symbol::Comparison(Comparison::NotEqual),
            Symbol::Exclamation,
            rest,
        )),
        b'+' => Some(doubled(b'+', Symbol::Increment, Operator::Add, rest)),
        b'-' => Some(doubled(b'-', Symbol::Decrement, Operator::Subtract, rest)),
        b'*' => Some(assigned(Operator::Multiply, rest)),
        b'%' => Some(assigned(Operator::Remainder, rest)),
        b'^' => Some(assigned(Operator::Xor, rest)),
        b'&' => Some(doubled(b'&', Symbol::LogicalAnd, Operator::And, rest)),
        b'|' => Some(doubled(b'|', Symbol::LogicalOr, Operator::Or, rest)),
        b'<' => Some(shifted(
            b'<',
            Operator::ShiftLeft,
            Comparison::LessOrEqual,
            Comparison::Less,
            rest,
        )),
        b'>' => Some(shifted(
            b'>',
            Operator::ShiftRight,
            Comparison::GreaterOrEqual,
            Comparison::Greater,
            rest,
        )),
        _ => None,
    }
}

// The sign that is this byte alone.
#[tactic(auto, unfolding(crate::specs::Reading::single_symbol))]
fn single_symbol(first: u8) -> Option<Symbol>
    ensures { result ≡ reading.single_symbol first }
{
    match first {
        b';' => Some(Symbol::Semicolon),
        b',' => Some(Symbol::Comma),
        b'{' => Some(Symbol::OpenBrace),
        b'}' => Some(Symbol::CloseBrace),
        b'(' => Some(Symbol::OpenParenthesis),
        b')' => Some(Symbol::CloseParenthesis),
        b'[' => Some(Symbol::OpenBracket),
        b']' => Some(Symbol::CloseBracket),
        b':' => Some(Symbol::Colon),
        b'.' => Some(Symbol::Dot),
        b'?' => Some(Symbol::Question),
        b'~' => Some(Symbol::Tilde),
        _ => None,
    }
}

/// The sign that begins with this byte, and what comes after it.
#[inline(always)]
#[tactic(auto, unfolding(crate::specs::Reading::symbol_at))]
pub fn symbol_at(first: u8, rest: &[u8]) -> Option<(Symbol, &[u8])>
    ensures { sign_of result ≡ reading.symbol_at first rest.now }
{
    match single_symbol(first) {
        Some(symbol) => Some((symbol, rest)),
        None => operator_at(first, rest),
    }
}

/// The sign that begins with a slash, and what comes after it.
pub fn slash(rest: &[u8]) -> (Symbol, &[u8])
    ensures { sign_of (Some result) ≡ reading.assigned operator.Divide rest.now }
{
    assigned(Operator::Divide, rest)
}
