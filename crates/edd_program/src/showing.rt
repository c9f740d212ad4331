//! What the program does to show a source or an image.

ghost use Rattle.std.specs.Prelude.{◌≡◌, IfErr, OnOk, option_map};
ghost use Rattle.edd_program.specs.declared.request.Request.TheVariants.{Show, View};
ghost use Rattle.edd_program.specs.Reasons.{Blames, BlamesNoRun, BlamesUnder};
ghost use Rattle.edd_program.specs.Runs.{IsShown, OfImage, OfSource};
ghost use Rattle.edd_program.specs.Statuses.{Stops};

use crate::compiling::image_of_source;
use crate::hints::with_hint;
use crate::request::Showing;
use crate::stop::Stop;
use crate::taking::take;
use edd_display::show;
use edd_files::Files;
use edd_loader::{Image, load};
use edd_machine::Values;
use std::alloc::Global;
use std::io::Write;

// Shows an image under a script.
#[tactic(auto, using(crate::proofs::RunLaws::shown_under, crate::proofs::ReasonLaws::script_blamed, crate::proofs::ReasonLaws::values_blamed, crate::proofs::ReasonLaws::lines_blamed))]
fn show_under<'a, W: Write>(
    alloc: Global,
    image: &Image<'_>,
    script: &[u8],
    language: &str,
    out: &mut W,
) -> Result<(), Stop<'a>>
    ensures shown { OnOk result (IsShown image.now script.now language.now (W.contents out.old)
        (W.contents out.new)) }
    ensures stopped { IfErr result (BlamesUnder image.now script.now BlamesNoRun) }
{
    let said = edd_script::parse(alloc, image, script)?;
    let values = Values::new(alloc, image, &said.values)?;
    show(alloc, image, &values, language, out)?;
    Ok(())
}

// Shows what may be an image, under a script.
#[tactic(auto, using(crate::proofs::ReasonLaws::bytes_blamed, crate::proofs::ReasonLaws::image_blamed))]
fn show_bytes<'a, W: Write>(
    alloc: Global,
    bytes: &[u8],
    script: &[u8],
    language: &str,
    out: &mut W,
) -> Result<(), Stop<'a>>
    ensures shown { OnOk result (IsShown bytes.now script.now language.now (W.contents out.old)
        (W.contents out.new)) }
    ensures stopped { IfErr result (Blames bytes.now script.now BlamesNoRun) }
{
    let image = load(alloc, bytes)?;
    show_under(alloc, &image, script, language, out)
}

/// Compiles a source, and shows its image.
#[tactic(auto, using(crate::proofs::StatusLaws::failed, crate::proofs::StatusLaws::of_text, crate::proofs::StatusLaws::told_of_file, crate::proofs::StatusLaws::views_behind))]
pub fn view_source<'a, F: Files, W: Write>(
    alloc: Global,
    showing: Showing<'a>,
    files: &mut F,
    out: &mut W,
) -> Result<(), Stop<'a>>
    ensures shown { OnOk result (OfSource (F.account files.old) showing.entry.file.now
        (option_map (λ name. name.now) showing.entry.script) (λ bytes script.
        IsShown bytes script showing.entry.language.now (W.contents out.old)
        (W.contents out.new))) }
    ensures stopped { IfErr result (Stops (View showing.entry) (F.account files.old)
        (W.contents out.old) (W.contents out.new)) }
    ensures kept { F.account files.new ≡ F.account files.old }
{
    let taken = take(alloc, showing.file, showing.script, files)?;
    let bytes = image_of_source(alloc, &taken.description)?;
    show_bytes(alloc, &bytes, &taken.script, showing.language, out)
}

/// Shows an image.
#[tactic(auto, using(crate::proofs::StatusLaws::failed, crate::proofs::StatusLaws::shows_behind))]
pub fn show_image<'a, F: Files, W: Write>(
    alloc: Global,
    showing: Showing<'a>,
    files: &mut F,
    out: &mut W,
) -> Result<(), Stop<'a>>
    ensures shown { OnOk result (OfImage (F.account files.old) showing.entry.file.now
        (option_map (λ name. name.now) showing.entry.script) (λ bytes script.
        IsShown bytes script showing.entry.language.now (W.contents out.old)
        (W.contents out.new))) }
    ensures stopped { IfErr result (Stops (Show showing.entry) (F.account files.old)
        (W.contents out.old) (W.contents out.new)) }
    ensures kept { F.account files.new ≡ F.account files.old }
{
    let taken = take(alloc, showing.file, showing.script, files)?;
    let bytes = taken.description.as_slice();
    match show_bytes(alloc, bytes, &taken.script, showing.language, out) {
        Ok(()) => Ok(()),
        Err(stop) => Err(with_hint(alloc, stop, showing.file, bytes)),
    }
}
