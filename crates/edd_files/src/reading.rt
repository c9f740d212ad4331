//! The bytes of the files that the program reads.

ghost use Rattle.std.specs.Prelude.{◌≡◌, IfErr, IfOk, IfSome, List, OnOk, Some, map, option_map, ℕ};
ghost use Rattle.std.specs.List.{All, Contains};
ghost use Rattle.edd_files.specs.Names.{file_named, input_name};
ghost use Rattle.edd_files.specs.Saves.{Gave, GaveScript, IsRead};

use crate::files::{FileFault, Files, read_all};
use crate::named::{NamedFault, of_file};
use std::alloc::Global;

/// The name of the file that has the user's lines.
pub const INPUT: &str = "/dev/stdin";

/// What stands for the standard input where a file is read, and for the output where one is
/// written.
pub const STANDARD: &str = "-";

/// A source that was read.
#[derive(Drop)]
pub struct Source<'a> {
    pub name: &'a str,
    pub text: Vec<u8>,
}

/// The file that a name is read from.
pub fn input_of(name: &str) -> &str
    ensures { result.now ≡ input_name name.now }
{
    if name == STANDARD { INPUT } else { name }
}

/// The bytes of a file, or why there are none.
pub fn read_bytes<F: Files>(alloc: Global, files: &mut F, name: &str) -> Result<Vec<u8>, FileFault>
    ensures sound { IfOk result
        (λ bytes. Gave (F.account files.old) (input_name name.now) bytes.items) }
    ensures kept { F.account files.new ≡ F.account files.old }
{
    let mut reader = files.open(input_of(name))?;
    read_all(alloc, &mut reader)
}

/// The bytes of a plain file that a mark in a text names.
pub fn read_marked<F: Files>(alloc: Global, files: &mut F, name: &str) -> Result<Vec<u8>, FileFault>
    ensures kept { F.account files.new ≡ F.account files.old }
{
    let mut reader = files.open_plain(name)?;
    read_all(alloc, &mut reader)
}

/// The bytes of a file.
pub fn read<'a, F: Files>(
    alloc: Global,
    files: &mut F,
    name: &'a str,
) -> Result<Vec<u8>, NamedFault<'a>>
    ensures sound { IfOk result
        (λ bytes. Gave (F.account files.old) (input_name name.now) bytes.items) }
    ensures refused { IfErr result (λ fault. IfSome (file_named fault) (λ file. file ≡ name.now)) }
    ensures kept { F.account files.new ≡ F.account files.old }
{
    read_bytes(alloc, files, name).map_err(|fault| of_file(name, fault))
}

// Reads one more source.
fn push_source<'a, F: Files>(
    alloc: Global,
    name: &'a str,
    files: &mut F,
    sources: &mut Vec<Source<'a>>,
) -> Result<(), NamedFault<'a>>
    ensures sound { (names : List (List ℕ)) → Contains names name.now
        → All (IsRead (F.account files.old) names) sources.old.items
        → OnOk result (All (IsRead (F.account files.old) names) sources.new.items) }
    ensures kept { F.account files.new ≡ F.account files.old }
{
    let text = read(alloc, files, name)?;
    sources.push(Source { name, text })?;
    Ok(())
}

/// The sources in files of these names.
pub fn read_sources<'a, F: Files>(
    alloc: Global,
    names: &[&'a str],
    files: &mut F,
) -> Result<Vec<Source<'a>>, NamedFault<'a>>
    ensures sound { IfOk result (λ sources. All
        (IsRead (F.account files.old) (map (λ name. name.now) names.now)) sources.items) }
    ensures kept { F.account files.new ≡ F.account files.old }
{
    let mut sources = Vec::with_capacity(alloc, names.len())?;
    for name in names {
        push_source(alloc, *name, files, &mut sources)?;
    }
    Ok(sources)
}

/// The bytes of a script. No script is an empty one.
pub fn read_script<'a, F: Files>(
    alloc: Global,
    files: &mut F,
    name: Option<&'a str>,
) -> Result<Vec<u8>, NamedFault<'a>>
    ensures sound { IfOk result (λ bytes. GaveScript (F.account files.old)
        (option_map (λ name. name.now) name.entry) bytes.items) }
    ensures refused { IfErr result (λ fault. IfSome (file_named fault) (λ file. option_map
        (λ name. name.now) name.entry ≡ Some file)) }
    ensures kept { F.account files.new ≡ F.account files.old }
{
    match name {
        Some(name) => read(alloc, files, name),
        None => Ok(Vec::new(alloc)),
    }
}
