//! The ends of strings.

ghost use Rattle.std.specs.Prelude.{◌≡◌, ◌≤◌, ◌==◌, ◌||◌, Bool, true, IfSome, not, length};
ghost use Rattle.edd_syntax.specs.Words as words;
ghost use Rattle.edd_lexer.specs.Bytes as bytes;
ghost use Rattle.edd_lexer.specs.Strings.{quote};
ghost use Rattle.edd_lexer.specs.Reading as reading;
ghost use Rattle.edd_lexer.specs.Parts.{end_of};
ghost use Rattle.edd_lexer.specs.Places.{Ends, lines_in};

use crate::bytes::lines_after;

/// The end of a string: what comes after its closing quote, whether each escape before that is
/// one, and how many lines end before it.
#[derive(Clone, Copy)]
pub struct StringEnd<'a> {
    pub good: bool,
    pub lines: u32,
    pub rest: &'a [u8],
}

fn is_escape(b: u8) -> bool
    ensures { result ≡ words.is_escape b }
{
    matches!(b, b'"' | b'\\' | b'n' | b't' | b'|')
}

// Where a string has more than text: `!` stands at a quote, at a backslash and at LF.
static STOPS: [u8; 256] = *b"\
    ..........!.....................\
    ..!.............................\
    ............................!...\
    ................................\
    ................................\
    ................................\
    ................................\
    ................................";

fn is_plain(b: u8) -> bool
    ensures { result ≡ not (b == quote || b == words.backslash || bytes.is_line_end b) }
{
    STOPS[b as usize] != b'!'
}

// What comes after the bytes that are only text of a string: the end of the string is the same.
#[tactic(auto, unfolding(crate::specs::Reading::string_end))]
fn behind_plain(text: &[u8]) -> &[u8]
    ensures lines { lines_in result.now ≡ lines_in text.now }
    ensures same_end { (good : Bool) → reading.string_end good result.now
        ≡ reading.string_end good text.now }
    ensures shorter { length result.now ≤ length text.now }
{
    let mut plain = text.iter();
    while let Some(first) = plain.as_slice().first() {
        if !is_plain(*first) {
            break;
        }
        plain.next();
    }
    plain.as_slice()
}

/// The end of the string whose opening quote is before this text, if it has one.
#[tactic(auto, unfolding(crate::specs::Reading::string_end))]
pub fn string_end(inside: &[u8]) -> Option<StringEnd>
    requires { length inside.now ≤ 1048576 }
    ensures sound { end_of result ≡ reading.string_end true inside.now }
    ensures lines { IfSome result (λ end. Ends inside.now end.lines end.rest.now) }
{
    let mut rest = inside;
    let mut good = true;
    let mut lines = 0;
    while let [first, tail @ ..] = rest {
        let first = *first;
        if first == b'\\' {
            let [escaped, behind @ ..] = tail else {
                return None
            };
            good = good && is_escape(*escaped);
            lines = lines_after(lines, *escaped);
            rest = behind;
        } else if first == b'"' {
            return Some(StringEnd {
                good,
                lines,
                rest: tail,
            });
        } else {
            lines = lines_after(lines, first);
            rest = behind_plain(tail);
        }
    }
    None
}
