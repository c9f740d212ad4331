//! Whether bytes are a string: variants by language, or a key.

ghost use Rattle.std.specs.Prelude.{◌≡◌, ◌<◌, ◌≤◌, ◌∷◌, IfSome, length, option_map, false};
ghost use Rattle.std.specs.Int.{w32};
ghost use Rattle.std.specs.Str.{is_utf8};
ghost use Rattle.edd_image.specs.Front.{byte_from, number_from};
ghost use Rattle.edd_image.specs.Strings.{front_of, is_string, is_variant, variant_from};
ghost use Rattle.edd_loader.specs.Variants.{are_variants, piece_of};

use crate::codes::is_code;
use crate::names::is_name;

/// A variant of a string, and the bytes after it.
#[derive(Clone, Copy)]
pub struct Piece<'a> {
    pub code: &'a [u8],
    pub text: &'a [u8],
    pub behind: &'a [u8],
}

#[tactic(auto, unfolding(edd_image::specs::Front::byte_from))]
fn byte_from(bytes: &[u8]) -> Option<(u8, &[u8])>
    ensures value { option_map (λ x. (x.0, x.1.now)) result ≡ byte_from bytes.now }
    ensures shorter { IfSome result (λ x. length x.1.now < length bytes.now) }
{
    match bytes {
        [] => None,
        [byte, rest @ ..] => Some((*byte, rest)),
    }
}

#[tactic(auto, unfolding(edd_image::specs::Front::number_from))]
fn u32_from(bytes: &[u8]) -> Option<(u32, &[u8])>
    ensures value { option_map (λ x. (x.0, x.1.now)) result ≡ number_from w32 bytes.now }
    ensures shorter { IfSome result (λ x. length x.1.now < length bytes.now) }
{
    if bytes.len() < 4 {
        return None;
    }
    let (front, rest) = bytes.split_at(4);
    let number = u32::from_be_bytes([front[0], front[1], front[2], front[3]]);
    Some((number, rest))
}

// The first bytes and those after them, where there are so many.
fn front_of(bytes: &[u8], size: usize) -> Option<(&[u8], &[u8])>
    ensures value { option_map (λ x. (x.0.now, x.1.now)) result ≡ front_of size bytes.now }
    ensures no_longer { IfSome result (λ x. length x.1.now ≤ length bytes.now) }
{
    if bytes.len() < size {
        return None;
    }
    Some(bytes.split_at(size))
}

/// The variant at the front of the bytes, if there is a whole one.
pub fn variant_from(bytes: &[u8]) -> Option<Piece<'_>>
    ensures value { option_map piece_of result ≡ variant_from bytes.now }
    ensures shorter { IfSome result (λ p. length p.behind.now < length bytes.now) }
{
    let (code_size, rest) = byte_from(bytes)?;
    let (code, rest) = front_of(rest, code_size as usize)?;
    let (text_size, rest) = u32_from(rest)?;
    let (text, behind) = front_of(rest, text_size as usize)?;
    Some(Piece { code, text, behind })
}

fn is_utf8(bytes: &[u8]) -> bool
    ensures { result ≡ is_utf8 bytes.now }
{
    match str::from_utf8(bytes) {
        Ok(_) => true,
        Err(_) => false,
    }
}

// Whether a variant's code is a code and its text UTF-8.
fn is_variant(code: &[u8], text: &[u8]) -> bool
    ensures { result ≡ is_variant (record { code = code.now; text = text.now }) }
{
    is_code(code) && is_utf8(text)
}

// Whether the bytes are variants, at least one.
fn are_variants(bytes: &[u8]) -> bool
    ensures { result ≡ are_variants bytes.now }
{
    let mut rest = bytes;
    while !rest.is_empty() {
        let Some(piece) = variant_from(rest) else {
            return false;
        };
        if !is_variant(piece.code, piece.text) {
            return false;
        }
        rest = piece.behind;
    }
    !bytes.is_empty()
}

#[tactic(auto, unfolding(edd_image::specs::Strings::string_in))]
fn is_tagged(tag: u8, rest: &[u8]) -> bool
    ensures { result ≡ is_string (tag ∷ rest.now) }
{
    match tag {
        0 => are_variants(rest),
        1 => is_name(rest),
        _ => false,
    }
}

/// Whether the bytes are a string: variants whose codes are codes and whose texts are UTF-8, or a
/// key that is a name.
#[tactic(auto, unfolding(edd_image::specs::Strings::string_in))]
pub fn is_string(bytes: &[u8]) -> bool
    ensures { result ≡ is_string bytes.now }
{
    match bytes {
        [] => false,
        [tag, rest @ ..] => is_tagged(*tag, rest),
    }
}
