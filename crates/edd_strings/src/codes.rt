//! The codes of a raw text.

ghost use Rattle.std.specs.Prelude.{◌≡◌, ◌+◌, ◌<◌, ◌≤◌, IfNone, IfSome, IsTrue, OnSome, drop, length, option_map, slice_index, take};
ghost use Rattle.edd_syntax.specs.Words.{bar, code_opened, is_code, pieces};
ghost use Rattle.edd_strings.specs.Parts.{AreUnmarked, is_mark, left_len, pieces_from, pieces_of};

use crate::parts::{Opened, Part};

// The text up to the first code of a raw text. A backslash and the byte after it are passed
// together.
pub fn first_part(raw: &str) -> Part<'_>
    ensures pieces { pieces 0 raw.now ≡ pieces_of result }
    ensures shorter { left_len result.next ≤ length raw.now }
{
    let bytes = raw.as_bytes();
    let mut is_plain = true;
    let mut at = mark_from(bytes, 0);
    while at < bytes.len() {
        let mut behind = at + 2;
        if bytes[at] == b'|' {
            if let Some(next) = opened_at(raw, at) {
                return Part {
                    text: &raw[..at],
                    is_plain,
                    next: Some(next),
                };
            }
            behind = at + 1;
        } else {
            is_plain = false;
        }
        at = mark_from(bytes, behind);
    }
    Part {
        text: raw,
        is_plain,
        next: None,
    }
}

// The place of the next bar or backslash, or the end.
fn mark_from(bytes: &[u8], from: usize) -> usize
    ensures ahead { from ≤ result }
    ensures unmarked { AreUnmarked bytes.now from result }
    ensures mark { result < length bytes.now → IsTrue (is_mark (slice_index bytes.now result)) }
{
    let mut at = from;
    while at < bytes.len() && !is_mark(bytes[at]) {
        at += 1;
    }
    at
}

fn is_mark(byte: u8) -> bool
    ensures { result ≡ is_mark byte }
{
    matches!(byte, b'|' | b'\\')
}

// The code that the bar at a place opens.
fn opened_at(raw: &str, at: usize) -> Option<Opened<'_>>
    requires inside { at < length raw.now }
    requires bar { slice_index raw.now at ≡ bar }
    ensures none { IfNone result (code_opened bar (drop (at + 1) raw.now) ≡ None) }
    ensures some { OnSome result (pieces 0 (drop at raw.now) ≡ pieces_from result) }
    ensures shorter { left_len result ≤ length raw.now }
{
    let here = &raw[at + 1..];
    let len = code_len(here.as_bytes())?;
    let (code, closed) = here.split_at(len);
    Some(Opened {
        code,
        behind: &closed[1..],
    })
}

// The length of the code here, where a bar follows it.
fn code_len(here: &[u8]) -> Option<usize>
    ensures opened { code_opened bar here.now ≡ option_map (λ n. take n here.now) result }
    ensures coded { IfSome result (λ n. IsTrue (is_code (take n here.now))) }
    ensures closed { IfSome result (λ n. n < length here.now) }
    ensures bar { IfSome result (λ n. slice_index here.now n ≡ bar) }
{
    match here {
        [b'a'..=b'z', b'a'..=b'z', b'|', ..] => Some(2),
        [b'0'..=b'9', b'0'..=b'9', b'0'..=b'9', b'|', ..] => Some(3),
        [
            b'a'..=b'z',
            b'a'..=b'z',
            b' ',
            b'a'..=b'z',
            b'a'..=b'z',
            b'|',
            ..
        ] => Some(5),
        _ => None,
    }
}
