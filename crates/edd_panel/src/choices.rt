//! The choices of a text that SELECT_FROM_LIST has.

use edd_loader::{Image, Text};
use edd_syntax::numbers::StrNo;

/// The choices of a text for a language: they are parted by semicolons. A key of the dictionary is
/// one choice.
pub fn text_of_choices<'b>(image: &Image<'b>, choices: StrNo, language: &str) -> &'b str {
    match image.text(choices, language) {
        Some(Text::Words(text)) => text,
        Some(Text::Key(key)) => key,
        None => "",
    }
}

/// How many choices there are, at most as many as a code can tell apart.
pub fn count_choices(image: &Image<'_>, choices: StrNo, language: &str) -> i32 {
    let text = text_of_choices(image, choices, language);
    let mut count = 0i32;
    for _ in text.split(';') {
        count = count.saturating_add(1);
    }
    count
}
