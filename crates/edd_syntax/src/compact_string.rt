//! Texts: copies, and sameness by their bytes.

ghost use Rattle.std.specs.Prelude.{◌≡◌, IfOk, nat_eq};
ghost use Rattle.std.specs.Cmp.{on_equiv, on_per, partial_equiv_from_equiv};
ghost use Rattle.std.specs.Cmp.Lexicographic.{bytes_decides, pointwise, nat_list_eq_equiv};
ghost use Rattle.std.specs.Hash as fed;
ghost use Rattle.std.proofs.Common.{ap};
ghost use Rattle.edd_syntax.specs.WordsView.{text_bytes};

use crate::text::{CompactString, ShortText};
use arrayvec::ArrayString;
use std::alloc::{AllocError, Global};
use std::hash::{Hash, Hasher};

impl CompactString {
    /// A copy of a text.
    pub fn new(alloc: Global, text: &str) -> Result<CompactString, AllocError>
        ensures { IfOk result (λ copy. text_bytes copy ≡ text.now) }
    {
        match ArrayString::from(text) {
            Ok(text) => Ok(CompactString::Short(ShortText { text })),
            Err(_) => Ok(CompactString::Long(String::from_str(alloc, text)?)),
        }
    }

    /// The text.
    pub fn as_str(&self) -> &str
        ensures { result.now ≡ text_bytes self.now }
    {
        match self {
            CompactString::Short(short) => short.text.as_str(),
            CompactString::Long(text) => text.as_str(),
        }
    }
}

impl PartialEq for CompactString {
    ghost eq = { λ s t. pointwise nat_eq (text_bytes s) (text_bytes t) };

    ghost laws = { on_per text_bytes (partial_equiv_from_equiv nat_list_eq_equiv) };

    fn eq(&self, other: &Self) -> bool {
        self.as_str() == other.as_str()
    }
}

impl Eq for CompactString {
    ghost laws = { on_equiv text_bytes nat_list_eq_equiv };
}

impl Hash for CompactString {
    ghost hash_input = { λ s. fed.str (text_bytes s) };

    ghost respects_eq = { λ s t same. ap fed.str ((bytes_decides (text_bytes s) (text_bytes t)).0 same) };

    fn hash<H: Hasher>(&self, state: &mut H) {
        self.as_str().hash(state);
    }
}
