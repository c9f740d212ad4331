//! The lines of a text.

ghost use Rattle.std.specs.Prelude.{◌≡◌, ◌∷◌, [], ◌<◌, IfNone, IfSome, length};
ghost use Rattle.edd_script.specs.Lines.{lines};

/// The first line of a text with its end, and what is behind it.
pub fn first_line(text: &[u8]) -> Option<(&[u8], &[u8])>
    ensures sound { IfSome result (λ found. lines text.now ≡ found.0.now ∷ lines found.1.now) }
    ensures complete { IfNone result (text.now ≡ []) }
    ensures shorter { IfSome result (λ found. length found.1.now < length text.now) }
{
    if text.is_empty() {
        return None;
    }
    match text.iter().position(|byte| *byte == b'\n') {
        Some(place) => Some(text.split_at(place + 1)),
        None => Some((text, &[])),
    }
}
