//! Where a breach is shown.

ghost use Rattle.std.specs.Prelude.{◌≡◌, option_map};
ghost use Rattle.edd_breaches.specs.Told.{told_of};
ghost use Rattle.edd_breach_places.specs.Places as places;
ghost use Rattle.edd_breach_places.specs.Places.{mask_behind};

use crate::span::{Span, span_at, span_of};
use edd_breaches::{Breach, Rule};
use edd_lexer::token::{Token, TokenKind};
use edd_syntax::operators::Comparison;
use edd_syntax::symbols::Symbol;

fn is_dot(token: &Token) -> bool
    ensures { result ≡ places.is_dot token.now.kind }
{
    matches!(token.kind, TokenKind::Symbol(Symbol::Dot))
}

fn is_less(token: &Token) -> bool
    ensures { result ≡ places.is_less token.now.kind }
{
    matches!(
        token.kind,
        TokenKind::Symbol(Symbol::Comparison(Comparison::Less))
    )
}

// From the last name of a path on, where these tokens begin with its first.
#[tactic(auto, unfolding(crate::specs::Places::last_of_path))]
fn last_of_path(tokens: &[Token]) -> &[Token]
    ensures { result.now ≡ places.last_of_path tokens.now }
{
    let mut path = tokens;
    while let [_, dot, rest @ ..] = path {
        if !is_dot(dot) {
            break;
        }
        path = rest;
    }
    path
}

// The token behind the `<` that follows a name.
fn mask_of(tokens: &[Token]) -> Option<&Token>
    ensures { option_map (λ t. t.now) result ≡ mask_behind tokens.now }
{
    match tokens {
        [_, less, mask, ..] if is_less(less) => Some(mask),
        _ => None,
    }
}

// Where a data item is shown that begins at a token: at its mask in `<` and `>`; a constant has none.
fn data_item_place(tokens: &[Token], at: usize) -> Option<Span>
    ensures { result ≡ places.mask_at tokens.now at }
{
    let start = at.min(tokens.len());
    match mask_of(last_of_path(&tokens[start..])) {
        Some(mask) => Some(span_of(mask)),
        None => span_at(tokens, at),
    }
}

/// Where a breach in a text with these tokens is shown: of a type at its word or its size behind
/// TYPE, of a data item at its mask, else at the breach's own token. Nowhere, where it has none.
pub fn place_of(tokens: &[Token], breach: &Breach<'_>) -> Option<Span>
    ensures sound { result ≡ places.place_of tokens.now (told_of breach.now) }
{
    let at = breach.place?.0 as usize;
    match breach.rule {
        Rule::FloatVariable(_) | Rule::OtherType { .. } => span_at(tokens, at.saturating_add(1)),
        Rule::BadSize(_) => span_at(tokens, at.saturating_add(3)),
        Rule::ConstRange => data_item_place(tokens, at),
        _ => span_at(tokens, at),
    }
}
