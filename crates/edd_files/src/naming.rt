//! Whether the words of a command line have a name, so that it can be proved that nothing is saved
//! under another one.

ghost use Rattle.std.specs.Prelude.{◌≡◌, IfSome, IsTrue, map, string_bytes};
ghost use Rattle.std.specs.List.{Contains};
ghost use Rattle.edd_files.specs.Names.{record_word_of};
ghost use Rattle.edd_files.specs.Saves.{AreInOrder, NameRecord};

fn is_same(word: &str, name: &str) -> bool
    ensures { IsTrue result → word.now ≡ name.now }
{
    word == name
}

/// Whether this is one of the words.
pub(crate) fn is_word(words: &[String], name: &str) -> bool
    ensures { IsTrue result → Contains (map string_bytes words.now) name.now }
{
    for word in words {
        if is_same(word.as_str(), name) {
            return true;
        }
    }
    false
}

/// Whether a word is the first name, and one after it the second.
pub fn are_in_order(words: &[String], first: &str, second: &str) -> bool
    ensures { IsTrue result → AreInOrder (map string_bytes words.now) first.now second.now }
{
    let mut rest = words;
    while let [word, behind @ ..] = rest {
        if is_same(word.as_str(), first) {
            return is_word(behind, second);
        }
        rest = behind;
    }
    false
}

/// The option for a record.
const RECORD: &str = "--record";

// The name behind the option for a record and an equals sign.
fn record_in(word: &str) -> Option<&str>
    ensures { IfSome result (λ name. word.now ≡ record_word_of name.now) }
{
    word.strip_prefix("--record=")
}

// Whether the word is the option for a record, an equals sign and this name.
fn is_record_word(word: &str, name: &str) -> bool
    ensures { IsTrue result → word.now ≡ record_word_of name.now }
{
    match record_in(word) {
        Some(rest) => rest == name,
        None => false,
    }
}

// Whether a word is the option for a record, an equals sign and this name.
fn has_record_word(words: &[String], name: &str) -> bool
    ensures { IsTrue result → Contains (map string_bytes words.now) (record_word_of name.now) }
{
    for word in words {
        if is_record_word(word.as_str(), name) {
            return true;
        }
    }
    false
}

/// Whether the words name the file for a record.
pub(crate) fn name_record(words: &[String], name: &str) -> bool
    ensures { IsTrue result → NameRecord (map string_bytes words.now) name.now }
{
    if has_record_word(words, name) {
        return true;
    }
    is_word(words, RECORD) && is_word(words, name)
}
