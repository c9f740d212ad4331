//! Reading a text from left to right.

ghost use Rattle.std.specs.Prelude.{◌≡◌, ◌<◌, ◌≤◌, ◌-◌, drop, length, IfOk, IfErr, IfSome, MatchResult, ◌⊎◌, List, true, false, Some, map, ◌∷◌, ◌==◌, ◌||◌};
ghost use Rattle.std.specs.Char.{is_ascii_digit};
ghost use Rattle.std.specs.List.{AllByRecursion};
ghost use Rattle.edd_syntax.specs.Names as names;
ghost use Rattle.edd_lexer.specs.Bytes as bytes;
ghost use Rattle.edd_lexer.specs.Bytes.{begins};
ghost use Rattle.edd_lexer.specs.Numbers as spelled;
ghost use Rattle.edd_lexer.specs.Strings.{quote};
ghost use Rattle.edd_lexer.specs.Tokens.{Lexeme, AreTokens};
ghost use Rattle.edd_lexer.specs.Faults.{LexicalFault};
ghost use Rattle.edd_lexer.specs.Faults as kinds;
ghost use Rattle.edd_lexer.specs.declared.fault.LexFault.TheVariants.{Memory};
ghost use Rattle.edd_lexer.specs.Reading as reading;
ghost use Rattle.edd_lexer.specs.Reading.{tokens_of};
ghost use Rattle.edd_lexer.specs.Views.{lexeme_of, fault_of, Answers};
ghost use Rattle.edd_lexer.specs.Parts.{step_of, Leads, Gives};
ghost use Rattle.edd_lexer.specs.Places.{Counts, CountsOrNone, IsOnFaultLine, IsOnItsLine, refused_on};

use crate::bytes::{
    begins_digit, begins_longer, begins_name, behind_byte, behind_byte_order_mark, behind_line,
    behind_name, is_blank, lines_after, next_is,
};
use crate::fault::{Fault, LexFault};
use crate::gaps::{behind_close, makes_mark};
use crate::keywords::word_kind;
use crate::lines::last_line;
use crate::numbers::{Number, begins_sticking, digit_value, number_at};
use crate::strings::string_end;
use crate::symbols::{slash, symbol_at};
use crate::token::{Token, TokenKind};
use edd_syntax::symbols::Symbol;
use std::alloc::Global;

// What begins at a place: a token or a gap, with how many lines end in it and what comes after
// it, or a fault.
#[derive(Clone, Copy)]
enum Step<'a> {
    Token(TokenKind, u32, &'a [u8]),
    /// `true` says that only blanks come after it on its last line so far.
    Gap(bool, u32, &'a [u8]),
    Wrong(Fault),
}

// A word, unless it is too long.
#[tactic(auto, unfolding(crate::specs::Reading::word_at), using(crate::proofs::Runs::runs))]
fn word_at(text: &[u8]) -> Step
    requires here { begins names.begins_name text.now ≡ true }
    ensures read { step_of text.now result ≡ reading.word_at text.now }
    ensures counts { CountsOrNone text.now result }
{
    let rest = behind_name(behind_byte(text));
    let length = text.len() - rest.len();
    if length > 255 {
        return Step::Wrong(Fault::BadCharacter);
    }
    Step::Token(word_kind(&text[..length]), 0, rest)
}

fn number_step(text: &[u8]) -> Step
    ensures read { step_of text.now result ≡ reading.number_at text.now }
    ensures counts { CountsOrNone text.now result }
{
    match number_at(text) {
        Number::Integer(n, rest) => Step::Token(TokenKind::Integer(n), 0, rest),
        Number::Decimal(rest) => Step::Token(TokenKind::Decimal, 0, rest),
        Number::Bad => Step::Wrong(Fault::BadNumber),
    }
}

// A string, with its opening quote.
#[tactic(auto, unfolding(crate::specs::Reading::string_at), using(crate::proofs::LineCounts::string_ends))]
fn string_at(text: &[u8]) -> Step
    requires here { 0 < length text.now }
    requires small { length text.now ≤ 1048576 }
    requires no_blank { begins bytes.is_blank text.now ≡ false }
    ensures read { step_of text.now result ≡ reading.string_at (drop 1 text.now) }
    ensures counts { CountsOrNone text.now result }
{
    match string_end(&text[1..]) {
        Some(end) if end.good => Step::Token(TokenKind::String, end.lines, end.rest),
        Some(_) => Step::Wrong(Fault::BadEscape),
        None => Step::Wrong(Fault::OpenString),
    }
}

// A block comment, with its slash.
#[tactic(auto, unfolding(crate::specs::Reading::block_comment_at), using(crate::proofs::LineCounts::comment_ends))]
fn block_comment_at(text: &[u8]) -> Step
    requires here { 2 ≤ length text.now }
    requires small { length text.now ≤ 1048576 }
    requires no_blank { begins bytes.is_blank text.now ≡ false }
    requires star { reading.next_is 42 (drop 1 text.now) ≡ true }
    ensures read { step_of text.now result ≡ reading.block_comment_at (drop 2 text.now) }
    ensures counts { CountsOrNone text.now result }
{
    match behind_close(&text[2..]) {
        Some((lines, rest)) => Step::Gap(false, lines, rest),
        None => Step::Wrong(Fault::OpenComment),
    }
}

// A comment or a sign, with its slash.
#[tactic(auto, unfolding(crate::specs::Reading::slash_at))]
fn slash_at(text: &[u8]) -> Step
    requires here { 0 < length text.now }
    requires small { length text.now ≤ 1048576 }
    requires no_blank { begins bytes.is_blank text.now ≡ false }
    ensures read { step_of text.now result ≡ reading.slash_at (drop 1 text.now) }
    ensures counts { CountsOrNone text.now result }
{
    let rest = &text[1..];
    if next_is(b'/', rest) {
        return Step::Gap(false, 0, behind_line(&rest[1..]));
    }
    if next_is(b'*', rest) {
        return block_comment_at(text);
    }
    let (symbol, behind) = slash(rest);
    Step::Token(TokenKind::Symbol(symbol), 0, behind)
}

// A mark or a directive, with its `#`.
#[tactic(auto, unfolding(crate::specs::Reading::hash_at))]
fn hash_at(fresh: bool, text: &[u8]) -> Step
    requires here { 0 < length text.now }
    requires no_blank { begins bytes.is_blank text.now ≡ false }
    ensures read { step_of text.now result ≡ reading.hash_at fresh (drop 1 text.now) }
    ensures counts { CountsOrNone text.now result }
{
    if !fresh {
        return Step::Wrong(Fault::BadCharacter);
    }
    let rest = &text[1..];
    if makes_mark(rest) {
        Step::Gap(false, 0, behind_line(rest))
    } else {
        Step::Wrong(Fault::Directive)
    }
}

fn symbol_step<'a>(text: &[u8], first: u8, rest: &'a [u8]) -> Step<'a>
    ensures read { step_of text.now result ≡ reading.symbol_at first rest.now }
    ensures counts { CountsOrNone text.now result }
{
    match symbol_at(first, rest) {
        Some((symbol, behind)) => Step::Token(TokenKind::Symbol(symbol), 0, behind),
        None => Step::Wrong(Fault::BadCharacter),
    }
}

// A number begins with this byte and what comes after it.
fn begins_number(first: u8, rest: &[u8]) -> bool
    ensures { result ≡ spelled.begins_number (first ∷ rest.now) }
{
    first.is_ascii_digit() || (first == b'.' && begins_digit(rest))
}

// What begins with a byte at which more than a sign may begin. Few tokens do, and apart from the
// others they leave the registers to these.
#[inline(never)]
#[tactic(auto, unfolding(crate::specs::Reading::step_at))]
fn longer_step(fresh: bool, text: &[u8]) -> Step
    requires no_blank { begins bytes.is_blank text.now ≡ false }
    requires no_name { begins names.begins_name text.now ≡ false }
    requires longer { begins (λ b. is_ascii_digit b || b == 46 || b == quote || b == 47 || b == 35)
        text.now ≡ true }
    requires small { length text.now ≤ 1048576 }
    ensures read { step_of text.now result ≡ reading.step_at fresh text.now }
    ensures counts { CountsOrNone text.now result }
{
    let [first, rest @ ..] = text else {
        return Step::Wrong(Fault::BadCharacter);
    };
    let first = *first;
    if begins_number(first, rest) {
        return number_step(text);
    }
    match first {
        b'"' => string_at(text),
        b'/' => slash_at(text),
        b'#' => hash_at(fresh, text),
        _ => Step::Token(TokenKind::Symbol(Symbol::Dot), 0, rest),
    }
}

// What begins at a place where there is no blank.
#[tactic(auto, unfolding(crate::specs::Reading::step_at))]
fn step_here(fresh: bool, text: &[u8]) -> Step
    requires here { begins bytes.is_blank text.now ≡ false }
    requires small { length text.now ≤ 1048576 }
    ensures read { step_of text.now result ≡ reading.step_at fresh text.now }
    ensures counts { CountsOrNone text.now result }
{
    let [first, rest @ ..] = text else {
        return Step::Wrong(Fault::BadCharacter);
    };
    let first = *first;
    if begins_name(first) {
        return word_at(text);
    }
    if begins_longer(first) {
        // Most integers have one digit.
        if first.is_ascii_digit() && !begins_sticking(rest) {
            return Step::Token(TokenKind::Integer(digit_value(first)), 0, rest);
        }
        return longer_step(fresh, text);
    }
    symbol_step(text, first, rest)
}

// The same, with the fact that what comes after it is an end of what is here.
#[tactic(auto, using(crate::proofs::Loop::step_leads, crate::proofs::LineCounts::counted))]
fn next_step(fresh: bool, text: &[u8]) -> Step
    requires here { begins bytes.is_blank text.now ≡ false }
    requires small { length text.now ≤ 1048576 }
    ensures read { step_of text.now result ≡ reading.step_at fresh text.now }
    ensures leads { Leads text.now (step_of text.now result) }
    ensures counts { Counts text.now result }
{
    step_here(fresh, text)
}

// The refusal for this fault.
fn refusal(fault: Fault, line: u32) -> LexFault
    ensures fault { fault_of result ≡ Some fault }
    ensures line { result ≡ refused_on fault line }
{
    match fault {
        Fault::TooLong => LexFault::TooLong,
        Fault::NotUtf8 => LexFault::NotUtf8 { line },
        Fault::BadCharacter => LexFault::BadCharacter { line },
        Fault::OpenComment => LexFault::OpenComment { line },
        Fault::OpenString => LexFault::OpenString { line },
        Fault::BadEscape => LexFault::BadEscape { line },
        Fault::BadNumber => LexFault::BadNumber { line },
        Fault::Directive => LexFault::Directive { line },
    }
}

// After this blank only blanks are before the place on its line.
fn fresh_behind(fresh: bool, blank: u8) -> bool
    ensures { result ≡ (fresh || bytes.is_line_end blank) }
{
    fresh || blank == b'\n'
}

// How many bytes of a text are before its last ones. The contract says that nothing wraps.
fn offset(total: u32, left: u32) -> u32
    requires { left ≤ total }
    ensures { result ≡ total - left }
{
    total.wrapping_sub(left)
}

// The tokens of a text that is short enough and in UTF-8, or its first fault.
#[tactic(auto, using(crate::proofs::Loop::loop_starts, crate::proofs::LineCounts::start_lines, crate::proofs::FaultLines::start_reached))]
fn tokens(alloc: Global, text: &[u8]) -> Result<Vec<Token>, LexFault>
    requires { length text.now ≤ 1048576 }
    ensures sound { Gives text.now result (tokens_of text.now) }
    ensures lines { IfOk result (λ list. AllByRecursion (IsOnItsLine text.now) list.items) }
    ensures fault_lines { IfErr result (IsOnFaultLine text.now) }
{
    let mut tokens = Vec::with_capacity(alloc, text.len() / 16)?;
    let mut rest = behind_byte_order_mark(text);
    let mut fresh = true;
    let mut line: u32 = 1;
    let total = text.len() as u32;
    while let [first, ..] = rest {
        let first = *first;
        if is_blank(first) {
            fresh = fresh_behind(fresh, first);
            line = lines_after(line, first);
            rest = behind_byte(rest);
            continue;
        }
        match next_step(fresh, rest) {
            Step::Wrong(fault) => return Err(refusal(fault, line)),
            Step::Gap(next, lines, behind) => {
                fresh = next;
                line = line.wrapping_add(lines);
                rest = behind;
            }
            Step::Token(kind, lines, behind) => {
                tokens.push(Token {
                    start: offset(total, rest.len() as u32),
                    end: offset(total, behind.len() as u32),
                    line,
                    kind,
                })?;
                fresh = false;
                line = line.wrapping_add(lines);
                rest = behind;
            }
        }
    }
    Ok(tokens)
}

// The tokens of a text, or its fault.
fn read(alloc: Global, text: &[u8]) -> Result<Vec<Token>, LexFault>
    ensures sound { Answers text.now result }
    ensures lines { IfOk result (λ list. AllByRecursion (IsOnItsLine text.now) list.items) }
    ensures fault_lines { IfErr result (IsOnFaultLine text.now) }
{
    if text.len() > 1_048_576 {
        return Err(LexFault::TooLong);
    }
    if let Err(fault) = str::from_utf8(text) {
        let line = last_line(&text[..fault.valid_up_to()]);
        return Err(LexFault::NotUtf8 { line });
    }
    tokens(alloc, text)
}

/// The tokens of a text of the language: of at most 1,048,576 bytes, in UTF-8.
///
/// Spans count bytes of the whole text, a byte order mark included. Lines count from 1, and LF
/// alone ends one; a token, a comment or a fault of several lines has the line on which it begins.
pub fn lex(alloc: Global, text: &[u8]) -> Result<Vec<Token>, LexFault>
    ensures sound { IfOk result (λ list. AreTokens text.now (map (lexeme_of text.now) list.items)) }
    ensures refused { IfErr result
        (λ e. IfSome (fault_of e) (λ fault. LexicalFault text.now fault)) }
    ensures no_tokens { IfErr result (λ e. IfSome (fault_of e) (λ _. (lexemes : List Lexeme)
        → ¬ (AreTokens text.now lexemes))) }
    ensures complete { (lexemes : List Lexeme) → AreTokens text.now lexemes
        → MatchResult result (λ list. lexemes ≡ map (lexeme_of text.now) list.items)
        (λ e. e ≡ Memory) }
    ensures only_fault { (fault : kinds.Fault) → LexicalFault text.now fault
        → MatchResult result (λ _. ⊥) (λ e. (e ≡ Memory) ⊎ (fault_of e ≡ Some fault)) }
    ensures lines { IfOk result (λ list. AllByRecursion (IsOnItsLine text.now) list.items) }
    ensures fault_lines { IfErr result (IsOnFaultLine text.now) }
{
    read(alloc, text)
}
