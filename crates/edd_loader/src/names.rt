//! Whether bytes are a name.

ghost use Rattle.std.specs.Prelude.{◌≡◌, ◌∷◌};
ghost use Rattle.std.specs.List.{list_all};
ghost use Rattle.edd_syntax.specs.Names.{begins_name, goes_on_name, is_name};

// A letter or `_`.
fn begins_name(byte: u8) -> bool
    ensures { result ≡ begins_name byte }
{
    matches!(byte, b'A'..=b'Z' | b'a'..=b'z' | b'_')
}

// A letter, `_` or a digit.
fn goes_on_name(byte: u8) -> bool
    ensures { result ≡ goes_on_name byte }
{
    begins_name(byte) || byte.is_ascii_digit()
}

fn all_go_on(bytes: &[u8]) -> bool
    ensures { result ≡ list_all goes_on_name bytes.now }
{
    bytes.iter().all(|byte| goes_on_name(*byte))
}

fn is_name_of(first: u8, rest: &[u8]) -> bool
    ensures { result ≡ is_name (first ∷ rest.now) }
{
    begins_name(first) && all_go_on(rest) && rest.len() < 255
}

/// Whether the bytes are a letter or `_`, and then letters, digits and `_`, at most 255 bytes in
/// all.
pub fn is_name(bytes: &[u8]) -> bool
    ensures { result ≡ is_name bytes.now }
{
    match bytes {
        [] => false,
        [first, rest @ ..] => is_name_of(*first, rest),
    }
}
