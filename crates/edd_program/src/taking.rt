//! The files that a command takes. They are read before anything else is done.

ghost use Rattle.std.specs.Prelude.{◌≡◌, IfErr, IfOk, option_map};
ghost use Rattle.edd_files.specs.Names.{input_name};
ghost use Rattle.edd_files.specs.Saves.{Gave, GaveScript};
ghost use Rattle.edd_program.specs.Statuses.{IsEither, IsFailure};

use crate::stop::Stop;
use edd_files::{Files, read, read_script};
use std::alloc::Global;

/// What a command takes: a description, as a source or an image, and a script.
#[derive(Drop)]
pub struct Taken {
    pub description: Vec<u8>,
    pub script: Vec<u8>,
}

/// Reads the files of these names, one after the other. No script is an empty one.
#[tactic(auto, using(crate::proofs::StatusLaws::of_description, crate::proofs::StatusLaws::of_its_script))]
pub fn take<'a, F: Files>(
    alloc: Global,
    description: &'a str,
    script: Option<&'a str>,
    files: &mut F,
) -> Result<Taken, Stop<'a>>
    ensures described { IfOk result (λ taken. Gave (F.account files.old)
        (input_name description.now) taken.description.items) }
    ensures scripted { IfOk result (λ taken. GaveScript (F.account files.old)
        (option_map (λ name. name.now) script.entry) taken.script.items) }
    ensures refused { IfErr result (IsFailure (IsEither description.now (option_map (λ name. name.now)
        script.entry))) }
    ensures kept { F.account files.new ≡ F.account files.old }
{
    let description = read(alloc, files, description)?;
    let script = read_script(alloc, files, script)?;
    Ok(Taken {
        description,
        script,
    })
}
