//! The words of a line.

ghost use Rattle.std.specs.Prelude.{◌≡◌, ◌∷◌, [], ◌<◌, IfNone, IfSome, length};
ghost use Rattle.edd_script.specs.Words.{words};

/// The first word of a text, and what is behind it.
pub fn first_word(text: &str) -> Option<(&str, &str)>
    ensures sound { IfSome result (λ found. words text.now ≡ found.0.now ∷ words found.1.now) }
    ensures complete { IfNone result (words text.now ≡ []) }
    ensures shorter { IfSome result (λ found. length found.1.now < length text.now) }
{
    let mut rest = text;
    while let Some((word, behind)) = rest.split_once(' ') {
        if !word.is_empty() {
            return Some((word, behind));
        }
        rest = behind;
    }
    if rest.is_empty() {
        None
    } else {
        Some((rest, ""))
    }
}
