//! What the program does to make an image of a source.

ghost use Rattle.std.specs.Prelude.{◌≡◌, ◌⊎◌, IfErr, IfOk, OnOk, true};
ghost use Rattle.edd_compiler.specs.Images.{IsImageOf};
ghost use Rattle.edd_files.specs.Saves.{IsImageSaving, SavesOne};
ghost use Rattle.edd_program.specs.Done.{IsCompiled};
ghost use Rattle.edd_program.specs.Refusals.{TellsRefusal, TellsRefusalOf, is_of_text};
ghost use Rattle.edd_program.specs.Statuses.{IsRefusedWith, StopsBy};

use crate::stop::Stop;
use edd_compiler::{Fault, compile};
use edd_display::print;
use edd_files::{Compiled, Files, save_image};
use std::alloc::Global;
use std::io::Write;

/// Writes the image of a source, and prints its length.
#[tactic(auto, using(crate::proofs::StatusLaws::of_file, crate::proofs::StatusLaws::printed))]
pub fn write_image<'a, F: Files, W: Write>(
    alloc: Global,
    source: &'a str,
    image: &'a str,
    files: &mut F,
    out: &mut W,
) -> Result<(), Stop<'a>>
    ensures saves { SavesOne (IsImageSaving (F.account files.old) source.now image.now)
        (F.account files.old) (F.account files.new) }
    ensures done { OnOk result (IsCompiled source.now image.now (F.account files.old)
        (F.account files.new) (W.contents out.old) (W.contents out.new)) }
    ensures refused { IfErr result (TellsRefusalOf (F.account files.old) source.now) }
    ensures stopped { IfErr result (StopsBy (IsRefusedWith (F.account files.old) source.now) (λ _. ⊥)
        (λ file. (file ≡ source.now) ⊎ (file ≡ image.now)) (W.contents out.old)
        (W.contents out.new)) }
{
    match save_image(alloc, source, image, files)? {
        Compiled::Saved(length) => Ok(print(alloc, out, format_args!("image {length}"))?),
        Compiled::Refused(text, fault) => Err(Stop::NotCompiled(fault.refusal(alloc, &text)?)),
    }
}

/// The image of a source's text.
pub fn image_of_source<'a>(alloc: Global, text: &[u8]) -> Result<Vec<u8>, Stop<'a>>
    ensures sound { IfOk result (λ bytes. IsImageOf text.now bytes.items) }
    ensures refused { IfErr result (TellsRefusal text.now) }
    ensures only { IfErr result (λ stop. is_of_text stop ≡ true) }
{
    match compile(alloc, text) {
        Ok(bytes) => Ok(bytes),
        Err(Fault::Memory) => Err(Stop::Memory),
        Err(fault) => Err(Stop::NotCompiled(fault.refusal(alloc, text)?)),
    }
}
