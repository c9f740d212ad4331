//! Integers and decimals.

ghost use Rattle.std.specs.Prelude.{◌≡◌, ◌<◌, ◌≤◌, MatchOption, true};
ghost use Rattle.std.specs.Char.{is_ascii_digit, is_ascii_hexdigit};
ghost use Rattle.std.specs.List.{list_all};
ghost use Rattle.edd_lexer.specs.Bytes as bytes;
ghost use Rattle.edd_lexer.specs.Bytes.{begins};
ghost use Rattle.edd_lexer.specs.Numbers as spelled;
ghost use Rattle.edd_lexer.specs.Reading as reading;
ghost use Rattle.edd_lexer.specs.Parts.{rest_of, step_of_number};

use crate::bytes::{begins_digit, behind_digits, behind_hex_digits, goes_on_number, next_is};

/// A number, with what comes after it.
#[derive(Clone, Copy)]
pub enum Number<'a> {
    Integer(u32, &'a [u8]),
    Decimal(&'a [u8]),
    Bad,
}

/// Here is something that no number may be directly followed by.
pub fn begins_sticking(text: &[u8]) -> bool
    ensures { result ≡ begins bytes.goes_on_number text.now }
{
    match text {
        [first, ..] => goes_on_number(*first),
        [] => false,
    }
}

fn begins_sign(text: &[u8]) -> bool
    ensures { result ≡ begins spelled.is_sign text.now }
{
    matches!(text, [b'+' | b'-', ..])
}

fn begins_exponent(text: &[u8]) -> bool
    ensures { result ≡ begins spelled.is_exponent_letter text.now }
{
    matches!(text, [b'e' | b'E', ..])
}

/// The value of a digit.
pub fn digit_value(b: u8) -> u32
    requires { is_ascii_hexdigit b ≡ true }
    ensures { result ≡ spelled.digit_value b }
{
    if b < b':' {
        u32::from(b - b'0')
    } else if b < b'G' {
        u32::from(b - b'7')
    } else {
        u32::from(b - b'W')
    }
}

// The number that digits stand for, if it has 32 bits.
#[tactic(auto, using(crate::proofs::Values::numbers))]
fn value(base: u32, digits: &[u8]) -> Option<u32>
    requires base { base ≤ 16 }
    requires some { 1 ≤ base }
    requires digits { list_all is_ascii_hexdigit digits.now ≡ true }
    ensures { MatchOption result (4294967295 < spelled.number base 0 digits.now)
        (λ n. n ≡ spelled.number base 0 digits.now) }
{
    let mut n: u32 = 0;
    for b in digits {
        let next = base as u64 * n as u64 + digit_value(*b) as u64;
        if next > 4_294_967_295 {
            return None;
        }
        n = next as u32;
    }
    Some(n)
}

// The integer of these digits, if nothing sticks to it and it fits.
#[tactic(auto, unfolding(crate::specs::Reading::integer_of))]
fn integer<'a>(base: u32, digits: &[u8], rest: &'a [u8]) -> Number<'a>
    requires base { base ≤ 16 }
    requires some { 1 ≤ base }
    requires digits { list_all is_ascii_hexdigit digits.now ≡ true }
    ensures { step_of_number result ≡ reading.integer_of base digits.now rest.now }
{
    if begins_sticking(rest) {
        return Number::Bad;
    }
    match value(base, digits) {
        Some(n) => Number::Integer(n, rest),
        None => Number::Bad,
    }
}

fn has_leading_zero(digits: &[u8]) -> bool
    ensures { result ≡ reading.has_leading_zero digits.now }
{
    matches!(digits, [b'0', _, ..])
}

#[tactic(auto, unfolding(crate::specs::Reading::plain_integer), using(crate::proofs::Runs::runs))]
fn plain_integer<'a>(digits: &[u8], rest: &'a [u8]) -> Number<'a>
    requires { list_all is_ascii_digit digits.now ≡ true }
    ensures { step_of_number result ≡ reading.plain_integer digits.now rest.now }
{
    if has_leading_zero(digits) {
        return Number::Bad;
    }
    integer(10, digits, rest)
}

fn is_hex(text: &[u8]) -> bool
    ensures { result ≡ reading.is_hex text.now }
{
    match text {
        [b'0', x, first, ..] => (*x == b'x' || *x == b'X') && first.is_ascii_hexdigit(),
        _ => false,
    }
}

#[tactic(auto, unfolding(crate::specs::Reading::hex_integer), using(crate::proofs::Runs::runs))]
fn hex_integer(text: &[u8]) -> Number
    ensures { step_of_number result ≡ reading.hex_integer text.now }
{
    let rest = behind_hex_digits(text);
    integer(16, &text[..text.len() - rest.len()], rest)
}

// What comes after digits, if there are some.
fn digits_end(text: &[u8]) -> Option<&[u8]>
    ensures { rest_of result ≡ reading.digits_end text.now }
{
    if begins_digit(text) {
        Some(behind_digits(text))
    } else {
        None
    }
}

// What comes after digits that may have a sign before them.
fn signed_end(text: &[u8]) -> Option<&[u8]>
    ensures { rest_of result ≡ reading.signed_end text.now }
{
    if begins_sign(text) {
        digits_end(&text[1..])
    } else {
        digits_end(text)
    }
}

// What comes after an exponent, if there is one.
#[tactic(auto, unfolding(crate::specs::Reading::exponent_end))]
fn exponent_end(text: &[u8]) -> Option<&[u8]>
    ensures { rest_of result ≡ reading.exponent_end text.now }
{
    if begins_exponent(text) {
        signed_end(&text[1..])
    } else {
        None
    }
}

// A decimal up to here, if nothing sticks to it.
#[tactic(auto, unfolding(crate::specs::Reading::decimal_to))]
fn decimal_to(rest: &[u8]) -> Number
    ensures { step_of_number result ≡ reading.decimal_to rest.now }
{
    if begins_sticking(rest) {
        Number::Bad
    } else {
        Number::Decimal(rest)
    }
}

// A decimal that has this after its fraction.
fn fraction_to(text: &[u8]) -> Number
    ensures { step_of_number result ≡ reading.fraction_to text.now }
{
    match exponent_end(text) {
        Some(end) => decimal_to(end),
        None => decimal_to(text),
    }
}

// The number with these digits at its front.
#[tactic(auto, unfolding(crate::specs::Reading::number_from))]
fn number_from<'a>(whole: &[u8], rest: &'a [u8]) -> Number<'a>
    requires { list_all is_ascii_digit whole.now ≡ true }
    ensures { step_of_number result ≡ reading.number_from whole.now rest.now }
{
    if next_is(b'.', rest) {
        return fraction_to(behind_digits(&rest[1..]));
    }
    match exponent_end(rest) {
        Some(end) => decimal_to(end),
        None => plain_integer(whole, rest),
    }
}

/// The number at the front.
#[inline(always)]
#[tactic(auto, unfolding(crate::specs::Reading::number_at), using(crate::proofs::Runs::runs))]
pub fn number_at(text: &[u8]) -> Number
    ensures { step_of_number result ≡ reading.number_at text.now }
{
    if is_hex(text) {
        return hex_integer(&text[2..]);
    }
    let rest = behind_digits(text);
    number_from(&text[..text.len() - rest.len()], rest)
}
