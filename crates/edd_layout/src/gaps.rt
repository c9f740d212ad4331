//! Whether two texts have the same comments and marks between the same tokens.

ghost use Rattle.std.specs.Prelude.{◌≡◌, ◌≤◌, length, map, slice_range, true};
ghost use Rattle.edd_lexer.specs.Views.{lexeme_of};
ghost use Rattle.edd_layout.specs.Comments.{EachSame, SameComments, beginning, gaps_from};

use crate::comments::have_same_comments;
use crate::kept::behind_byte_order_mark;
use edd_lexer::token::Token;

// Where a text begins, behind its byte order mark.
fn beginning(text: &[u8]) -> usize
    ensures { result ≡ beginning text.now }
{
    text.len()
        .saturating_sub(behind_byte_order_mark(text).len())
}

// Whether what lies between two places of a text has the same comments and marks as what lies between
// two places of another one.
fn is_same_gap(
    text: &[u8],
    from: usize,
    to: usize,
    other: &[u8],
    other_from: usize,
    other_to: usize,
) -> bool
    ensures { result ≡ true → SameComments (slice_range text.now from to)
        (slice_range other.now other_from other_to) }
{
    match (text.get(from..to), other.get(other_from..other_to)) {
        (Some(gap), Some(other_gap)) => have_same_comments(gap, other_gap),
        _ => false,
    }
}

/// Whether two texts have the same comments and marks before each of these tokens of theirs, and
/// behind the last.
pub fn have_same_gaps(text: &[u8], tokens: &[Token], other: &[u8], other_tokens: &[Token]) -> bool
    ensures { result ≡ true → EachSame
        (gaps_from text.now (beginning text.now) (map (lexeme_of text.now) tokens.now))
        (gaps_from other.now (beginning other.now) (map (lexeme_of other.now) other_tokens.now)) }
{
    if tokens.len() != other_tokens.len() {
        return false;
    }
    let mut from = beginning(text);
    let mut other_from = beginning(other);
    for place in 0..tokens.len() {
        let token = &tokens[place];
        let twin = &other_tokens[place];
        if !is_same_gap(
            text,
            from,
            token.start as usize,
            other,
            other_from,
            twin.start as usize,
        ) {
            return false;
        }
        from = token.end as usize;
        other_from = twin.end as usize;
    }
    is_same_gap(text, from, text.len(), other, other_from, other.len())
}
