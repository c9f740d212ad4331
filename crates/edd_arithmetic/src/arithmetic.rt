//! Arithmetic at the width of a unit: 64 bits in attributes, 32 in methods.

ghost use Rattle.std.specs.Prelude.{◌≡◌, ℕ, ◌<◌, ◌-◌, ◌^◌, ℤ, ◌+ℤ◌, ◌-ℤ◌, ◌*ℤ◌, neg_ℤ, pos, int_div, int_rem, bit_and, bit_or, bit_xor, IfSome, IsOk};
ghost use Rattle.std.specs.Int.{int_shr};
ghost use Rattle.edd_syntax.specs.declared.operators.UnaryOperator.TheVariants as unary_operator;
ghost use Rattle.edd_syntax.specs.TwosComplement.{wrap, bitwise, divide, shift, operate, compare, apply, truth};
ghost use Rattle.edd_instructions.specs.Steps.{Fits, width_of};

use edd_instructions::Sort;
use edd_syntax::answer::Trap;
use edd_syntax::operators::{Comparison, Operator, UnaryOperator};

fn add(sort: Sort, a: i64, b: i64) -> i64
    requires left { Fits sort a }
    requires right { Fits sort b }
    ensures { result ≡ wrap (width_of sort) (a +ℤ b) }
{
    match sort {
        Sort::Attribute => a.wrapping_add(b),
        Sort::Method => i64::from((a as i32).wrapping_add(b as i32)),
    }
}

fn subtract(sort: Sort, a: i64, b: i64) -> i64
    requires left { Fits sort a }
    requires right { Fits sort b }
    ensures { result ≡ wrap (width_of sort) (a -ℤ b) }
{
    match sort {
        Sort::Attribute => a.wrapping_sub(b),
        Sort::Method => i64::from((a as i32).wrapping_sub(b as i32)),
    }
}

fn multiply(sort: Sort, a: i64, b: i64) -> i64
    requires left { Fits sort a }
    requires right { Fits sort b }
    ensures { result ≡ wrap (width_of sort) (a *ℤ b) }
{
    match sort {
        Sort::Attribute => a.wrapping_mul(b),
        Sort::Method => i64::from((a as i32).wrapping_mul(b as i32)),
    }
}

/// The number with the other sign.
pub fn negate(sort: Sort, a: i64) -> i64
    requires { Fits sort a }
    ensures { result ≡ apply (width_of sort) unary_operator.Minus a }
{
    match sort {
        Sort::Attribute => a.wrapping_neg(),
        Sort::Method => i64::from((a as i32).wrapping_neg()),
    }
}

/// 1 for 0, and else 0.
#[tactic(auto, unfolding(edd_syntax::specs::TwosComplement::apply))]
pub fn logical_not(a: i64) -> i64
    ensures { (w : ℕ) → result ≡ apply w unary_operator.Not a }
{
    truth(a == 0)
}

/// The bits that it lacks.
#[tactic(auto, unfolding(edd_syntax::specs::TwosComplement::apply))]
pub fn complement(a: i64) -> i64
    ensures { (w : ℕ) → result ≡ apply w unary_operator.Complement a }
{
    -1 - a
}

/// The value of an operator before its operand.
#[inline(always)]
#[tactic(auto, unfolding(edd_syntax::specs::TwosComplement::apply))]
pub fn apply(sort: Sort, operator: UnaryOperator, a: i64) -> i64
    requires { Fits sort a }
    ensures { result ≡ apply (width_of sort) operator a }
{
    match operator {
        UnaryOperator::Plus => a,
        UnaryOperator::Minus => negate(sort, a),
        UnaryOperator::Not => logical_not(a),
        UnaryOperator::Complement => complement(a),
    }
}

fn and(sort: Sort, a: i64, b: i64) -> i64
    requires left { Fits sort a }
    requires right { Fits sort b }
    ensures { result ≡ bitwise bit_and (width_of sort) a b }
{
    match sort {
        Sort::Attribute => a & b,
        Sort::Method => i64::from((a as i32) & (b as i32)),
    }
}

fn or(sort: Sort, a: i64, b: i64) -> i64
    requires left { Fits sort a }
    requires right { Fits sort b }
    ensures { result ≡ bitwise bit_or (width_of sort) a b }
{
    match sort {
        Sort::Attribute => a | b,
        Sort::Method => i64::from((a as i32) | (b as i32)),
    }
}

fn exclusive_or(sort: Sort, a: i64, b: i64) -> i64
    requires left { Fits sort a }
    requires right { Fits sort b }
    ensures { result ≡ bitwise bit_xor (width_of sort) a b }
{
    match sort {
        Sort::Attribute => a ^ b,
        Sort::Method => i64::from((a as i32) ^ (b as i32)),
    }
}

fn truth(test: bool) -> i64
    ensures { result ≡ truth test }
{
    if test { 1 } else { 0 }
}

fn shifted_left(sort: Sort, a: i64, count: u32) -> i64
    requires number { Fits sort a }
    requires count { count < width_of sort }
    ensures { result ≡ wrap (width_of sort) (a *ℤ pos (2 ^ count)) }
{
    match sort {
        Sort::Attribute => a << count,
        Sort::Method => i64::from((a as i32) << count),
    }
}

fn shifted_right(a: i64, count: u32) -> i64
    requires { count < 64 }
    ensures { result ≡ int_shr a count }
{
    a >> count
}

fn bits(sort: Sort) -> i64
    ensures { result ≡ pos (width_of sort) }
{
    match sort {
        Sort::Attribute => 64,
        Sort::Method => 32,
    }
}

fn shift_left(sort: Sort, a: i64, b: i64) -> Result<i64, Trap>
    requires { Fits sort a }
    ensures { result ≡ shift (λ z count. wrap (width_of sort) (z *ℤ pos (2 ^ count)))
        (width_of sort) a b }
{
    if b < 0 || b >= bits(sort) {
        Err(Trap::BadShift)
    } else {
        Ok(shifted_left(sort, a, b as u32))
    }
}

fn shift_right(sort: Sort, a: i64, b: i64) -> Result<i64, Trap>
    requires { Fits sort a }
    ensures { result ≡ shift int_shr (width_of sort) a b }
{
    if b < 0 || b >= bits(sort) {
        Err(Trap::BadShift)
    } else {
        Ok(shifted_right(a, b as u32))
    }
}

fn least(sort: Sort) -> i64
    ensures { result ≡ neg_ℤ (pos (2 ^ (width_of sort - 1))) }
{
    match sort {
        Sort::Attribute => i64::MIN,
        Sort::Method => -2_147_483_648,
    }
}

fn divide(sort: Sort, a: i64, b: i64) -> Result<i64, Trap>
    requires left { Fits sort a }
    requires right { Fits sort b }
    ensures { result ≡ divide int_div (width_of sort) a b }
{
    if b == 0 {
        Err(Trap::DivZero)
    } else if a == least(sort) && b == -1 {
        Err(Trap::DivOverflow)
    } else {
        Ok(a / b)
    }
}

fn remainder(sort: Sort, a: i64, b: i64) -> Result<i64, Trap>
    requires left { Fits sort a }
    requires right { Fits sort b }
    ensures { result ≡ divide int_rem (width_of sort) a b }
{
    if b == 0 {
        Err(Trap::DivZero)
    } else if a == least(sort) && b == -1 {
        Err(Trap::DivOverflow)
    } else {
        Ok(a % b)
    }
}

/// The trap of an operator with this second operand, whatever the first one is.
#[tactic(auto, unfolding(edd_syntax::specs::TwosComplement::operate))]
pub fn trap_of(sort: Sort, operator: Operator, b: i64) -> Option<Trap>
    ensures always { IfSome result (λ why. (a : ℤ)
        → operate (width_of sort) operator a b ≡ Err why) }
    ensures otherwise { result ≡ None → IsOk (operate (width_of sort) operator (pos 0) b) }
{
    match operator {
        Operator::Divide | Operator::Remainder if b == 0 => Some(Trap::DivZero),
        Operator::ShiftLeft | Operator::ShiftRight if b < 0 || b >= bits(sort) => {
            Some(Trap::BadShift)
        }
        _ => None,
    }
}

/// The value of an operator on two operands, or the trap.
#[inline(always)]
#[tactic(auto, unfolding(edd_syntax::specs::TwosComplement::operate))]
pub fn operate(sort: Sort, operator: Operator, a: i64, b: i64) -> Result<i64, Trap>
    requires left { Fits sort a }
    requires right { Fits sort b }
    ensures { result ≡ operate (width_of sort) operator a b }
{
    match operator {
        Operator::Add => Ok(add(sort, a, b)),
        Operator::Subtract => Ok(subtract(sort, a, b)),
        Operator::Multiply => Ok(multiply(sort, a, b)),
        Operator::Divide => divide(sort, a, b),
        Operator::Remainder => remainder(sort, a, b),
        Operator::ShiftLeft => shift_left(sort, a, b),
        Operator::ShiftRight => shift_right(sort, a, b),
        Operator::And => Ok(and(sort, a, b)),
        Operator::Or => Ok(or(sort, a, b)),
        Operator::Xor => Ok(exclusive_or(sort, a, b)),
    }
}

/// Whether two numbers compare so.
#[inline(always)]
#[tactic(auto, unfolding(edd_syntax::specs::TwosComplement::compare))]
pub fn holds(comparison: Comparison, a: i64, b: i64) -> bool
    ensures { truth result ≡ compare comparison a b }
{
    match comparison {
        Comparison::Equal => a == b,
        Comparison::NotEqual => a != b,
        Comparison::Less => a < b,
        Comparison::LessOrEqual => a <= b,
        Comparison::Greater => a > b,
        Comparison::GreaterOrEqual => a >= b,
    }
}

/// 1 where the comparison holds, else 0.
#[inline(always)]
pub fn compare(comparison: Comparison, a: i64, b: i64) -> i64
    ensures { result ≡ compare comparison a b }
{
    truth(holds(comparison, a, b))
}

// The number of 32 bits that equals it modulo 2 to the 32.
#[tactic(auto, unfolding(edd_syntax::specs::TwosComplement::wrap))]
fn short(number: i64) -> i64
    ensures { result ≡ wrap 32 number }
{
    let rest = number.rem_euclid(4_294_967_296);
    if rest < 2_147_483_648 {
        rest
    } else {
        rest - 4_294_967_296
    }
}

/// The number, wrapped to the width.
#[inline(always)]
pub fn wrapped(sort: Sort, number: i64) -> i64
    ensures { result ≡ wrap (width_of sort) number }
{
    match sort {
        Sort::Attribute => number,
        Sort::Method => short(number),
    }
}

/// A number of 32 bits, wrapped to the width.
#[inline(always)]
pub fn wrapped_constant(sort: Sort, number: u32) -> i64
    ensures { result ≡ wrap (width_of sort) (pos number) }
{
    match sort {
        Sort::Attribute => i64::from(number),
        Sort::Method => i64::from(number.cast_signed()),
    }
}
