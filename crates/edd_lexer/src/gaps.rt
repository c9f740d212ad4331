//! Comments and marks.

ghost use Rattle.std.specs.Prelude.{◌≡◌, ◌≤◌, IfSome, length};
ghost use Rattle.edd_lexer.specs.Gaps as gaps;
ghost use Rattle.edd_lexer.specs.Parts.{close_of};
ghost use Rattle.edd_lexer.specs.Places.{Ends};

use crate::bytes::{begins_digit, behind_line_blanks, is_blank, lines_after, next_is};

/// What comes after the `*/` that closes the comment whose opening is before this text, if it
/// has one, and how many lines end before that.
#[tactic(auto, using(crate::proofs::LineCounts::close_here, crate::proofs::LineCounts::line_taken))]
pub fn behind_close(body: &[u8]) -> Option<(u32, &[u8])>
    requires { length body.now ≤ 1048576 }
    ensures sound { close_of result ≡ gaps.behind_close body.now }
    ensures lines { IfSome result (λ e. Ends body.now e.0 e.1.now) }
{
    let mut rest = body;
    let mut lines = 0;
    while let [first, tail @ ..] = rest {
        let first = *first;
        if first == b'*' && next_is(b'/', tail) {
            return Some((lines, &tail[1..]));
        }
        lines = lines_after(lines, first);
        rest = tail;
    }
    None
}

fn ends_word(text: &[u8]) -> bool
    ensures { result ≡ gaps.ends_word text.now }
{
    match text {
        [first, ..] => is_blank(*first),
        [] => true,
    }
}

// The word `line` with a blank or the line's end after it.
#[tactic(auto, using(crate::proofs::LineWord::short_no_line))]
fn begins_line_word(text: &[u8]) -> bool
    ensures { result ≡ gaps.begins_line_word text.now }
{
    match text {
        [l, i, n, e, rest @ ..] => {
            *l == b'l' && *i == b'i' && *n == b'n' && *e == b'e' && ends_word(rest)
        }
        _ => false,
    }
}

/// A `#` before this text makes a mark, if only blanks are before it on its line.
pub fn makes_mark(text: &[u8]) -> bool
    ensures { result ≡ gaps.makes_mark text.now }
{
    let word = behind_line_blanks(text);
    begins_digit(word) || begins_line_word(word)
}
