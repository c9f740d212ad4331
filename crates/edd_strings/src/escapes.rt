//! Escapes of a text: whether each is known, and what they stand for.

ghost use Rattle.std.specs.Prelude.{◌≡◌, IfOk, string_bytes};
ghost use Rattle.edd_syntax.specs.Words.{escaped, has_escapes, is_escape, unescape};

use std::alloc::{AllocError, Global};

// Whether each backslash begins an escape.
pub fn has_escapes(raw: &str) -> bool
    ensures { result ≡ has_escapes raw.now }
{
    if !raw.as_bytes().contains(&b'\\') {
        return true;
    }
    let mut after_backslash = false;
    for byte in raw.as_bytes() {
        if after_backslash {
            if !is_escape(*byte) {
                return false;
            }
            after_backslash = false;
        } else {
            after_backslash = *byte == b'\\';
        }
    }
    !after_backslash
}

fn is_escape(byte: u8) -> bool
    ensures { result ≡ is_escape byte }
{
    matches!(byte, b'"' | b'\\' | b'n' | b't' | b'|')
}

// The text with its escapes replaced.
pub fn unescape(alloc: Global, text: &str) -> Result<String, AllocError>
    ensures { IfOk result (λ plain. string_bytes plain ≡ unescape text.now) }
{
    let mut plain = String::with_capacity(alloc, text.len())?;
    let mut rest = text;
    while let Some((before, after)) = rest.split_once('\\') {
        plain.push_str(before)?;
        let mut chars = after.chars();
        if let Some(c) = chars.next() {
            plain.push(escaped(c))?;
        }
        rest = chars.as_str();
    }
    plain.push_str(rest)?;
    Ok(plain)
}

// What a character after a backslash stands for.
fn escaped(c: char) -> char
    ensures { result ≡ escaped c }
{
    match c {
        'n' => '\n',
        't' => '\t',
        c => c,
    }
}
