//! A rule that is broken, as it is said.

ghost use Rattle.std.specs.Prelude.{◌≡◌, IfOk, map, string_bytes};
ghost use Rattle.edd_breaches.specs.Told.{told_of};
ghost use Rattle.edd_breaches.specs.Words.{told_words};
ghost use Rattle.edd_lexer.specs.Words.{line_at};
ghost use Rattle.edd_findings.specs.Found.{said_in, said_of};

use edd_breach_places::{Span, place_of};
use edd_breaches::{Breach, RuleFault};
use edd_lexer::line_of;
use edd_lexer::token::Token;
use edd_syntax::numbers::TokenNo;
use std::alloc::{AllocError, Global};

/// A rule that a text breaks.
#[derive(Debug, Drop)]
pub struct Found {
    /// The rule, with the names that its refusal says.
    pub rule: RuleFault,
    /// The refusal as the compiler prints it, with its line.
    pub refusal: String,
    /// The token at fault. What there is too much of has none.
    pub at: Option<TokenNo>,
    /// Where it is shown.
    pub place: Option<Span>,
    /// Where two clash, the token of the earlier one: a help, of which nothing is proved.
    pub earlier: Option<TokenNo>,
}

// The refusal for a breach, as the compiler prints it.
fn refusal_of(
    alloc: Global,
    text: &[u8],
    tokens: &[Token],
    breach: &Breach<'_>,
) -> Result<String, AllocError>
    ensures sound { IfOk result
        (λ s. string_bytes s ≡ told_words (line_at text.now tokens.now) (told_of breach.now)) }
{
    let fault = RuleFault::of(alloc, breach)?;
    match fault.place() {
        Some(at) => format!(in alloc; "{fault} line {}", line_of(text, tokens, at)),
        None => fault.to_string(alloc),
    }
}

// What is said of a breach.
fn found_of(
    alloc: Global,
    text: &[u8],
    tokens: &[Token],
    breach: &Breach<'_>,
) -> Result<Found, AllocError>
    ensures sound { IfOk result
        (λ f. said_of f ≡ said_in text.now tokens.now (told_of breach.now)) }
{
    Ok(Found {
        rule: RuleFault::of(alloc, breach)?,
        refusal: refusal_of(alloc, text, tokens, breach)?,
        at: breach.place,
        place: place_of(tokens, breach),
        earlier: breach.earlier,
    })
}

/// What is said of breaches in a text with these tokens, in their order.
pub fn all_found(
    alloc: Global,
    text: &[u8],
    tokens: &[Token],
    breaches: &[Breach<'_>],
) -> Result<Vec<Found>, AllocError>
    ensures sound { IfOk result (λ found. map said_of found.items
        ≡ map (said_in text.now tokens.now) (map told_of breaches.now)) }
{
    let mut found = Vec::with_capacity(alloc, breaches.len())?;
    for breach in breaches {
        found.push(found_of(alloc, text, tokens, breach)?)?;
    }
    Ok(found)
}
