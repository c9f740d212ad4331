//! What signs are in expressions, and the sites of expressions.

ghost use Rattle.std.specs.Prelude.{◌≡◌, option_map};
ghost use Rattle.edd_syntax.specs.Grammar as grammar;
ghost use Rattle.edd_grammar.specs.Signs as signs;
ghost use Rattle.edd_grammar.specs.ExpressionReading as reading;
ghost use Rattle.edd_token_reader.specs.Views.{infix_view, assignment_view, site_view};

use edd_syntax::operators::{Comparison, IncrementOperator, Operator, UnaryOperator};
use edd_syntax::symbols::Symbol;

/// Where an expression is: only in a method may it assign, step and call.
#[derive(Clone, Copy)]
pub enum Site {
    Attribute,
    Method,
}

/// An operator between two operands.
#[derive(Clone, Copy)]
pub enum Infix {
    Plain(Operator),
    Comparing(Comparison),
    Both,
    Either,
}

/// `=`, or an operator and `=` after it.
#[derive(Clone, Copy)]
pub enum Assignment {
    Simple,
    Compound(Operator),
}

/// The loosest precedence of a site.
pub fn loosest(site: Site) -> u32
    ensures { result ≡ grammar.loosest (site_view site) }
{
    match site {
        Site::Attribute => 2,
        Site::Method => 1,
    }
}

/// Whether an expression is in a method.
pub fn in_method(site: Site) -> bool
    ensures { result ≡ reading.is_method (site_view site) }
{
    match site {
        Site::Attribute => false,
        Site::Method => true,
    }
}

/// The operator between two operands that a sign is.
pub fn infix_of(sign: Symbol) -> Option<Infix>
    ensures { option_map infix_view result ≡ signs.infix_of sign }
{
    match sign {
        Symbol::Operator(op) => Some(Infix::Plain(op)),
        Symbol::Comparison(by) => Some(Infix::Comparing(by)),
        Symbol::LogicalAnd => Some(Infix::Both),
        Symbol::LogicalOr => Some(Infix::Either),
        _ => None,
    }
}

/// The precedence of an operator, 3 to 12: the tighter it binds, the greater.
pub fn precedence_of(op: Infix) -> u32
    ensures { result ≡ signs.infix_precedence (infix_view op) }
{
    match op {
        Infix::Either => 3,
        Infix::Both => 4,
        Infix::Plain(Operator::Or) => 5,
        Infix::Plain(Operator::Xor) => 6,
        Infix::Plain(Operator::And) => 7,
        Infix::Comparing(Comparison::Equal | Comparison::NotEqual) => 8,
        Infix::Comparing(_) => 9,
        Infix::Plain(Operator::ShiftLeft | Operator::ShiftRight) => 10,
        Infix::Plain(Operator::Add | Operator::Subtract) => 11,
        Infix::Plain(_) => 12,
    }
}

/// The operator before an operand that a sign is.
pub fn unary_of(sign: Symbol) -> Option<UnaryOperator>
    ensures { result ≡ signs.unary_of sign }
{
    match sign {
        Symbol::Operator(Operator::Add) => Some(UnaryOperator::Plus),
        Symbol::Operator(Operator::Subtract) => Some(UnaryOperator::Minus),
        Symbol::Exclamation => Some(UnaryOperator::Not),
        Symbol::Tilde => Some(UnaryOperator::Complement),
        _ => None,
    }
}

/// The step before a reference that a sign is.
pub fn before_of(sign: Symbol) -> Option<IncrementOperator>
    ensures { result ≡ signs.before_of sign }
{
    match sign {
        Symbol::Increment => Some(IncrementOperator::PreIncrement),
        Symbol::Decrement => Some(IncrementOperator::PreDecrement),
        _ => None,
    }
}

/// The step after a reference that a sign is.
pub fn after_of(sign: Symbol) -> Option<IncrementOperator>
    ensures { result ≡ signs.after_of sign }
{
    match sign {
        Symbol::Increment => Some(IncrementOperator::PostIncrement),
        Symbol::Decrement => Some(IncrementOperator::PostDecrement),
        _ => None,
    }
}

/// The assignment that a sign is.
pub fn assignment_of(sign: Symbol) -> Option<Assignment>
    ensures { option_map assignment_view result ≡ signs.assignment_of sign }
{
    match sign {
        Symbol::Equals => Some(Assignment::Simple),
        Symbol::CompoundAssign(op) => Some(Assignment::Compound(op)),
        _ => None,
    }
}
