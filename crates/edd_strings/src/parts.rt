//! A raw text is a text, and then codes with the texts after them.

ghost use Rattle.std.specs.Prelude.{◌≡◌, IsTrue};
ghost use Rattle.edd_syntax.specs.Words.{is_code, unescape};

// A code that opens a variant, and what comes after the bar that closes it.
#[derive(Clone, Copy)]
pub struct Opened<'a> {
    pub code: &'a str,
    pub behind: &'a str,
    pub ghost coded: { IsTrue (is_code code.now) },
}

// The text up to the next code, and that code. A plain text has no backslash.
#[derive(Clone, Copy)]
pub struct Part<'a> {
    pub text: &'a str,
    pub is_plain: bool,
    pub next: Option<Opened<'a>>,
    pub ghost plain: { IsTrue is_plain → unescape text.now ≡ text.now },
}
