//! Bytes by what they may stand for, and runs of them.

ghost use Rattle.std.specs.Prelude.{◌≡◌, ◌<◌, ◌≤◌, ◌==◌, ◌||◌, ◌+◌, ◌∷◌, [], drop, length};
ghost use Rattle.std.specs.Char.{is_ascii_digit, is_ascii_hexdigit};
ghost use Rattle.edd_syntax.specs.Names as names;
ghost use Rattle.edd_lexer.specs.Bytes as bytes;
ghost use Rattle.edd_lexer.specs.Bytes.{begins, behind};
ghost use Rattle.edd_lexer.specs.Places.{lines_in};
ghost use Rattle.edd_lexer.specs.Reading as reading;
ghost use Rattle.edd_lexer.specs.Strings.{quote};
ghost use Rattle.edd_lexer.specs.Tokens as tokens;

// What each byte may stand for: `-` is a blank, `0` a digit, `a` a letter or `_`, `/` one of the
// four bytes at which more than a sign may begin, and `,` any other.
static CLASSES: [u8; 256] = *b"\
    ,,,,,,,,,-----,,,,,,,,,,,,,,,,,,\
    -,//,,,,,,,,,,//0000000000,,,,,,\
    ,aaaaaaaaaaaaaaaaaaaaaaaaaa,,,,a\
    ,aaaaaaaaaaaaaaaaaaaaaaaaaa,,,,,\
    ,,,,,,,,,,,,,,,,,,,,,,,,,,,,,,,,\
    ,,,,,,,,,,,,,,,,,,,,,,,,,,,,,,,,\
    ,,,,,,,,,,,,,,,,,,,,,,,,,,,,,,,,\
    ,,,,,,,,,,,,,,,,,,,,,,,,,,,,,,,,";

/// The space, which is by far the most common, is looked at first.
pub fn is_blank(b: u8) -> bool
    ensures { result ≡ bytes.is_blank b }
{
    b == b' ' || CLASSES[b as usize] == b'-'
}

pub fn is_line_blank(b: u8) -> bool
    ensures { result ≡ bytes.is_line_blank b }
{
    is_blank(b) && b != b'\n'
}

pub fn begins_name(b: u8) -> bool
    ensures { result ≡ names.begins_name b }
{
    CLASSES[b as usize] == b'a'
}

pub fn goes_on_name(b: u8) -> bool
    ensures { result ≡ names.goes_on_name b }
{
    CLASSES[b as usize] >= b'0'
}

/// A number, a string, a comment or a mark may begin with this byte.
pub fn begins_longer(b: u8) -> bool
    ensures { result ≡ (is_ascii_digit b || b == 46 || b == quote || b == 47 || b == 35) }
{
    let class = CLASSES[b as usize];
    (class == b'/') | (class == b'0')
}

pub fn goes_on_number(b: u8) -> bool
    ensures { result ≡ bytes.goes_on_number b }
{
    goes_on_name(b) || b == b'.'
}

/// What comes after the first byte.
pub fn behind_byte(text: &[u8]) -> &[u8]
    requires { 0 < length text.now }
    ensures { result.now ≡ drop 1 text.now }
{
    &text[1..]
}

/// What comes after the name at the front.
pub fn behind_name(text: &[u8]) -> &[u8]
    ensures rest { result.now ≡ behind names.goes_on_name text.now }
    ensures shorter { length result.now ≤ length text.now }
{
    let mut letters = text.iter();
    while let Some(first) = letters.as_slice().first() {
        if !goes_on_name(*first) {
            break;
        }
        letters.next();
    }
    letters.as_slice()
}

/// What comes after the digits at the front.
pub fn behind_digits(text: &[u8]) -> &[u8]
    ensures rest { result.now ≡ behind is_ascii_digit text.now }
    ensures shorter { length result.now ≤ length text.now }
{
    let mut digits = text.iter();
    while let Some(first) = digits.as_slice().first() {
        if !first.is_ascii_digit() {
            break;
        }
        digits.next();
    }
    digits.as_slice()
}

/// What comes after the hexadecimal digits at the front.
pub fn behind_hex_digits(text: &[u8]) -> &[u8]
    ensures rest { result.now ≡ behind is_ascii_hexdigit text.now }
    ensures shorter { length result.now ≤ length text.now }
{
    let mut digits = text.iter();
    while let Some(first) = digits.as_slice().first() {
        if !first.is_ascii_hexdigit() {
            break;
        }
        digits.next();
    }
    digits.as_slice()
}

/// What comes after the blanks of this line.
pub fn behind_line_blanks(text: &[u8]) -> &[u8]
    ensures rest { result.now ≡ behind bytes.is_line_blank text.now }
    ensures shorter { length result.now ≤ length text.now }
{
    let mut blanks = text.iter();
    while let Some(first) = blanks.as_slice().first() {
        if !is_line_blank(*first) {
            break;
        }
        blanks.next();
    }
    blanks.as_slice()
}

/// The end of the line.
pub fn behind_line(text: &[u8]) -> &[u8]
    ensures rest { result.now ≡ behind bytes.in_line text.now }
    ensures shorter { length result.now ≤ length text.now }
{
    let mut line = text.iter();
    while let Some(first) = line.as_slice().first() {
        if *first == b'\n' {
            break;
        }
        line.next();
    }
    line.as_slice()
}

/// This byte is next.
pub fn next_is(byte: u8, text: &[u8]) -> bool
    ensures { result ≡ reading.next_is byte text.now }
{
    match text {
        [first, ..] => *first == byte,
        [] => false,
    }
}

pub fn begins_digit(text: &[u8]) -> bool
    ensures { result ≡ begins is_ascii_digit text.now }
{
    match text {
        [first, ..] => first.is_ascii_digit(),
        [] => false,
    }
}

/// One more line where this byte ends one. A text within the limit has fewer lines than would fit.
pub fn lines_after(lines: u32, b: u8) -> u32
    requires { lines < 4294967295 }
    ensures { result + lines_in [] ≡ lines + lines_in (b ∷ []) }
{
    if b == b'\n' {
        lines.wrapping_add(1)
    } else {
        lines
    }
}

/// A text without the byte order mark that it may begin with.
pub fn behind_byte_order_mark(text: &[u8]) -> &[u8]
    ensures { result.now ≡ tokens.behind_byte_order_mark text.now }
{
    match text {
        [0xEF, 0xBB, 0xBF, rest @ ..] => rest,
        _ => text,
    }
}
