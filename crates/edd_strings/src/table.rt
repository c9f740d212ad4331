//! The table of a description's strings: each different string once, by its number.

ghost use Rattle.std.specs.Prelude.{◌≡◌, ◌≢◌, ◌↔◌, ◌<◌, ◌≤◌, ◌⊎◌, [], IfOk, IsErrOf, IsTrue, OnErr, length, map, take};
ghost use Rattle.std.specs.List.{All, AllPairs, Contains};
ghost use Rattle.edd_syntax.specs.Words.{are_words};
ghost use Rattle.edd_syntax.specs.WordsView.{string_of};
ghost use Rattle.edd_strings.specs.Strings.{Adds};

use crate::fault::StringFault;
use edd_syntax::numbers::StrNo;
use edd_syntax::words::Words;
use indexmap::IndexSet;
use std::alloc::Global;
use std::marker::Model;

/// How many strings a table holds at most.
const MAX_STRINGS: usize = 65535;

/// Different strings, by their numbers.
#[derive(Drop)]
pub struct Table {
    strings: IndexSet<Words>,
}

impl Model for Table {
    ghost use Rattle.std.specs.Prelude.{List, map};
    ghost use Rattle.edd_syntax.specs.Words.{Words};
    ghost use Rattle.edd_syntax.specs.WordsView.{string_of};

    ghost Value = { List Words };

    ghost use Rattle.edd_strings.specs.Strings.{AreStrings};

    ghost view = { λ t. map string_of t.strings.keys };

    ghost invariant = { λ t. AreStrings (map string_of t.strings.keys) };
}

impl Table {
    /// An empty table. It takes no memory.
    pub fn new(alloc: Global) -> Table
        ensures { result ≡ [] }
    {
        Table {
            strings: IndexSet::new(alloc),
        }
    }

    /// The number of a string, which is the next one where the table doesn't hold the string yet. A
    /// string that is refused is dropped.
    pub fn add(&mut self, words: Words) -> Result<StrNo, StringFault>
        ensures sound { IfOk result (λ number. Adds self.old (string_of words) number.0 self.new) }
        ensures kept { OnErr result (self.new ≡ self.old) }
        ensures refused { IsErrOf result StringFault.TooMany
            ↔ (¬ (Contains self.old (string_of words)) × (length self.old ≡ 65535)) }
        ensures no_escapes { result ≢ Err StringFault.BadEscape }
    {
        if !self.has_room(&words) {
            return Err(StringFault::TooMany);
        }
        let (number, _) = self.strings.insert_full(words)?;
        Ok(StrNo(number as u16))
    }

    // Whether a string is held, or there is room for it.
    #[tactic(auto, using(crate::proofs::Numbering::held, crate::proofs::Numbering::found))]
    fn has_room(&self, words: &Words) -> bool
        ensures { IsTrue result ↔ (length self.now < 65535)
            ⊎ Contains self.now (string_of words.now) }
    {
        self.strings.len() < MAX_STRINGS || self.strings.contains(words)
    }

    /// The strings by their numbers.
    pub fn words(&self) -> &[Words]
        ensures value { map string_of result.now ≡ self.now }
        ensures few { length self.now ≤ 65535 }
        ensures different { AllPairs (λ s t. s ≢ t) self.now }
        ensures valid { All (λ s. IsTrue (are_words s)) self.now }
    {
        self.strings.as_slice()
    }

    /// Keeps the first `count` strings, or all where there are fewer. It takes no memory.
    pub fn cut(&mut self, count: u16)
        ensures { self.new ≡ take count self.old }
    {
        self.strings.truncate(usize::from(count));
    }
}
