//! Whether bytes are the code of a language.

ghost use Rattle.std.specs.Prelude.{◌≡◌};
ghost use Rattle.edd_syntax.specs.Words.{is_code};

/// Whether the bytes are two lower-case letters, two such pairs with one space between, or three
/// digits.
pub fn is_code(bytes: &[u8]) -> bool
    ensures { result ≡ is_code bytes.now }
{
    match bytes {
        [a, b] => a.is_ascii_lowercase() && b.is_ascii_lowercase(),
        [a, b, c] => a.is_ascii_digit() && b.is_ascii_digit() && c.is_ascii_digit(),
        [a, b, space, c, d] => {
            a.is_ascii_lowercase()
                && b.is_ascii_lowercase()
                && *space == b' '
                && c.is_ascii_lowercase()
                && d.is_ascii_lowercase()
        }
        _ => false,
    }
}
