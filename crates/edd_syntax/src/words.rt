//! Strings in several languages.

ghost use Rattle.std.specs.Prelude.{◌≡◌, IsTrue, string_bytes};
ghost use Rattle.edd_syntax.specs.Names.{is_name};
ghost use Rattle.edd_syntax.specs.Words.{is_code};

use crate::text::CompactString;
use arrayvec::ArrayString;

/// A text in one language. The code is two lower-case letters, two such pairs with a space between,
/// or three digits.
#[derive(PartialEq, Eq, Hash, Drop)]
pub struct Variant {
    pub code: ArrayString<5>,
    pub text: CompactString,
    pub ghost coded: { IsTrue (is_code code.bytes) },
}

/// A copy of a code, which takes no memory of its own.
#[tactic(auto, using(crate::proofs::ShortCodes::short_code))]
pub fn code_of(code: &str) -> ArrayString<5>
    requires { IsTrue (is_code code.now) }
    ensures { result.bytes ≡ code.now }
{
    let mut copy = ArrayString::new();
    copy.push_str(code);
    copy
}

/// The name of a text of the dictionary.
#[derive(PartialEq, Eq, Hash, Drop)]
pub struct Key {
    pub name: String,
    pub ghost named: { IsTrue (is_name (string_bytes name)) },
}

/// A string of a description: one or more variants in the order of the source, or a key.
#[derive(PartialEq, Eq, Hash, Drop)]
pub enum Words {
    Variants { first: Variant, rest: Vec<Variant> },
    Key(Key),
}
