//! Files of tests that are written anew, and records of what was typed. Each is saved only where the
//! words of the command line ask for it.

ghost use Rattle.std.specs.Prelude.{◌≡◌, OnErr, OnOk, map, option_map, string_bytes};
ghost use Rattle.edd_files.specs.Saves.{IsNamedUpdate, NameRecord, SavesOne, with_saving};

use crate::files::{FileFault, Files};
use crate::named::{NamedFault, of_file};
use crate::naming::{is_word, name_record};

/// The option that has files of tests written anew.
const UPDATE: &str = "--update";

/// Writes a file of tests anew that was read. The option for that and the name are always among the
/// words.
#[tactic(auto, using(crate::proofs::SavesLaws::saves_none, crate::proofs::SavesLaws::saves_this))]
pub fn save_update<'a, F: Files>(
    words: &[String],
    name: &'a str,
    text: &str,
    files: &mut F,
) -> Result<(), NamedFault<'a>>
    ensures saves { SavesOne (IsNamedUpdate (map string_bytes words.now)) (F.account files.old)
        (F.account files.new) }
    ensures saved { OnOk result (F.account files.new ≡ option_map
        (with_saving (record { name = name.now; bytes = text.now })) (F.account files.old)) }
    ensures kept { OnErr result (F.account files.new ≡ F.account files.old) }
{
    if !is_word(words, UPDATE) || !is_word(words, name) {
        return Err(NamedFault::File(name, FileFault::Failed));
    }
    files
        .renew(name, text.as_bytes())
        .map_err(|fault| of_file(name, fault))
}

/// Saves a record of what was typed. The option for that and the name are always among the words.
#[tactic(auto, using(crate::proofs::SavesLaws::saves_none, crate::proofs::SavesLaws::saves_this))]
pub fn save_record<'a, F: Files>(
    words: &[String],
    name: &'a str,
    text: &str,
    files: &mut F,
) -> Result<(), NamedFault<'a>>
    ensures saves { SavesOne (λ s. NameRecord (map string_bytes words.now) s.name)
        (F.account files.old) (F.account files.new) }
    ensures saved { OnOk result (F.account files.new ≡ option_map
        (with_saving (record { name = name.now; bytes = text.now })) (F.account files.old)) }
    ensures kept { OnErr result (F.account files.new ≡ F.account files.old) }
{
    if !name_record(words, name) {
        return Err(NamedFault::File(name, FileFault::Failed));
    }
    files
        .save(name, text.as_bytes())
        .map_err(|fault| of_file(name, fault))
}
