//! The image of a source, saved.

ghost use Rattle.std.specs.Prelude.{◌≡◌, ◌⊎◌, IfErr, IfOk, IfSome, OnErr, OnOk, option_map};
ghost use Rattle.edd_files.specs.Names.{file_named, output_name};
ghost use Rattle.edd_files.specs.Saves.{IsImageSaving, IsTold, SavesOne, image_saving, with_saving};

use crate::files::{FileFault, Files};
use crate::named::{NamedFault, of_file};
use crate::reading::{STANDARD, read};
use edd_compiler::{Fault, compile};
use std::alloc::Global;

/// The name of the standard output as a file.
const OUTPUT: &str = "/dev/stdout";

/// What became of a source.
#[derive(Drop)]
pub enum Compiled {
    /// Its image is saved, which has so many bytes.
    Saved(usize),
    /// It is refused. Its text is handed back.
    Refused(Vec<u8>, Fault),
}

// The file that a name is written to.
fn output_of(name: &str) -> &str
    ensures { result.now ≡ output_name name.now }
{
    if name == STANDARD { OUTPUT } else { name }
}

// Saves an image under its name.
fn save_bytes<'a, F: Files>(
    image: &'a str,
    bytes: &[u8],
    files: &mut F,
) -> Result<(), NamedFault<'a>>
    ensures saved { OnOk result (F.account files.new
        ≡ option_map (with_saving (image_saving image.now bytes.now)) (F.account files.old)) }
    ensures refused { IfErr result (λ fault. IfSome (file_named fault) (λ file. file ≡ image.now)) }
    ensures kept { OnErr result (F.account files.new ≡ F.account files.old) }
{
    files
        .save(output_of(image), bytes)
        .map_err(|fault| of_file(image, fault))
}

/// Saves the image of a source under a name, if it has one, and says what became of it.
#[tactic(auto, using(crate::proofs::SavesLaws::saves_none))]
pub fn save_image<'a, F: Files>(
    alloc: Global,
    source: &'a str,
    image: &'a str,
    files: &mut F,
) -> Result<Compiled, NamedFault<'a>>
    ensures saves { SavesOne (IsImageSaving (F.account files.old) source.now image.now)
        (F.account files.old) (F.account files.new) }
    ensures told { IfOk result (IsTold (F.account files.old) (F.account files.new) source.now
        image.now) }
    ensures refused { IfErr result (λ fault. IfSome (file_named fault)
        (λ file. (file ≡ source.now) ⊎ (file ≡ image.now))) }
{
    let text = read(alloc, files, source)?;
    let bytes = match compile(alloc, &text) {
        Ok(bytes) => bytes,
        Err(Fault::Memory) => return Err(NamedFault::Memory),
        Err(fault) => return Ok(Compiled::Refused(text, fault)),
    };
    save_bytes(image, &bytes, files)?;
    Ok(Compiled::Saved(bytes.len()))
}
