//! Whether the same comments and marks are between the tokens of two texts.

ghost use Rattle.std.specs.Prelude.{◌≡◌, ◌==◌, ◌<◌, ◌≤◌, ◌++◌, List, ℕ, IfSome, drop, length, map, option_map, take, true, false};
ghost use Rattle.edd_lexer.specs.Bytes.{begins, behind, in_line, is_blank};
ghost use Rattle.edd_lexer.specs.Gaps.{behind_close};
ghost use Rattle.edd_lexer.specs.Views.{lexeme_of};
ghost use Rattle.edd_layout.specs.Comments as comments;
ghost use Rattle.edd_layout.specs.Comments.{EachSame, IsComment, SameComments, begins_block_comment, begins_line_comment, without_returns};

use edd_lexer::token::Token;

// ---- one comment

// Where the line ends, from the beginning on.
fn line_end(text: &[u8]) -> usize
    ensures rest { drop result text.now ≡ behind in_line text.now }
    ensures within { result ≤ length text.now }
{
    for place in 0..text.len() {
        if text[place] == b'\n' {
            return place;
        }
    }
    text.len()
}

// Where the `*/` ends that closes the comment whose opening is before this text.
fn close_end(body: &[u8]) -> Option<usize>
    ensures rest { option_map (λ n. drop n body.now) result ≡ behind_close body.now }
    ensures within { IfSome result (λ n. n ≤ length body.now) }
{
    for place in 0..body.len() {
        if body[place] == b'*' && place + 1 < body.len() && body[place + 1] == b'/' {
            return Some(place + 2);
        }
    }
    None
}

fn begins_line_comment(here: &[u8]) -> bool
    ensures { result ≡ begins_line_comment here.now }
{
    match here {
        [b'#', ..] => true,
        [b'/', second, ..] => *second == b'/',
        _ => false,
    }
}

fn begins_block_comment(here: &[u8]) -> bool
    ensures { result ≡ begins_block_comment here.now }
{
    match here {
        [b'/', second, ..] => *second == b'*',
        _ => false,
    }
}

// How many bytes the comment or mark at the front has.
#[tactic(auto, using(crate::proofs::CommentEnds::is_line, crate::proofs::CommentEnds::is_block, crate::proofs::CommentEnds::line_some))]
fn comment_length(here: &[u8]) -> Option<usize>
    ensures sound { IfSome result (λ n. IsComment n here.now) }
    ensures some { IfSome result (λ n. 0 < n) }
    ensures within { IfSome result (λ n. n ≤ length here.now) }
{
    if begins_line_comment(here) {
        return Some(line_end(here));
    }
    if !begins_block_comment(here) {
        return None;
    }
    match close_end(&here[2..]) {
        Some(end) => Some(end + 2),
        None => None,
    }
}

// ---- two comments

// What comes behind the CRs at the front.
fn behind_returns(text: &[u8]) -> &[u8]
    ensures same { without_returns result.now ≡ without_returns text.now }
    ensures no_return { begins (λ b. b == 13) result.now ≡ false }
    ensures shorter { length result.now ≤ length text.now }
{
    let mut rest = text;
    while let [first, tail @ ..] = rest {
        if *first != b'\r' {
            return rest;
        }
        rest = tail;
    }
    rest
}

// Whether the texts of two comments are the same but for CRs, which line ends may have.
fn are_same_texts(text: &[u8], other: &[u8]) -> bool
    ensures { result ≡ true → without_returns text.now ≡ without_returns other.now }
{
    let mut left = behind_returns(text);
    let mut right = behind_returns(other);
    while let [byte, behind @ ..] = left {
        let [other_byte, other_behind @ ..] = right else {
            return false;
        };
        if *byte != *other_byte {
            return false;
        }
        left = behind_returns(behind);
        right = behind_returns(other_behind);
    }
    right.is_empty()
}

// ---- between two tokens

fn is_blank(byte: u8) -> bool
    ensures { result ≡ is_blank byte }
{
    byte == b' ' || (byte >= 9 && byte <= 13)
}

// How many blanks are at the front.
fn count_blanks(text: &[u8]) -> usize
    ensures here { (there : List ℕ) → SameComments (drop result text.now) there
        → SameComments text.now there }
    ensures there { (here : List ℕ) → SameComments here (drop result text.now)
        → SameComments here text.now }
    ensures within { result ≤ length text.now }
{
    for place in 0..text.len() {
        if !is_blank(text[place]) {
            return place;
        }
    }
    text.len()
}

fn behind_blanks(text: &[u8]) -> &[u8]
    ensures here { (there : List ℕ) → SameComments result.now there
        → SameComments text.now there }
    ensures there { (here : List ℕ) → SameComments here result.now
        → SameComments here text.now }
    ensures within { length result.now ≤ length text.now }
{
    &text[count_blanks(text)..]
}

#[tactic(auto, using(crate::proofs::CommentEnds::both_empty))]
fn are_empty(here: &[u8], there: &[u8]) -> bool
    ensures { result ≡ true → SameComments here.now there.now }
{
    here.is_empty() && there.is_empty()
}

/// Whether two texts between tokens have the same comments and marks.
pub fn have_same_comments(here: &[u8], there: &[u8]) -> bool
    ensures { result ≡ true → SameComments here.now there.now }
{
    let mut left = behind_blanks(here);
    let mut right = behind_blanks(there);
    while let Some(count) = comment_length(left) {
        let Some(other_count) = comment_length(right) else {
            return false;
        };
        let (text, rest) = left.split_at(count);
        let (other, other_rest) = right.split_at(other_count);
        if !are_same_texts(text, other) {
            return false;
        }
        left = behind_blanks(rest);
        right = behind_blanks(other_rest);
    }
    are_empty(left, right)
}
