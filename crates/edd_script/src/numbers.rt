//! The numbers of a script.

ghost use Rattle.std.specs.Prelude.{◌≡◌};
ghost use Rattle.edd_script.specs.Numbers.{decimal_of};

/// The number of 64 bits that decimal digits write, with a minus before them or none.
pub fn number(word: &str) -> Option<i64>
    ensures { result ≡ decimal_of 64 word.now }
{
    if word.starts_with('+') {
        return None;
    }
    word.parse::<i64>().ok()
}

/// The number of 32 bits that decimal digits write, with a minus before them or none.
pub fn code(word: &str) -> Option<i32>
    ensures { result ≡ decimal_of 32 word.now }
{
    if word.starts_with('+') {
        return None;
    }
    word.parse::<i32>().ok()
}
