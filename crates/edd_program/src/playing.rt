//! What the program does to run a method of a source or an image.

ghost use Rattle.std.specs.Prelude.{◌≡◌, IfErr, IfOk, OnOk, Some};
ghost use Rattle.edd_program.specs.declared.request.Request.TheVariants.{Play, Try};
ghost use Rattle.edd_program.specs.declared.stop.Stop.TheVariants.{NoMethod};
ghost use Rattle.edd_program.specs.Reasons.{Blames, BlamesRun, BlamesUnder, IsNoMethod};
ghost use Rattle.edd_program.specs.Runs.{IsMethodNamed, IsPlayed, IsRun, OfImage, OfSource};
ghost use Rattle.edd_program.specs.Statuses.{Stops};

use crate::compiling::image_of_source;
use crate::request::Run;
use crate::stop::Stop;
use crate::taking::take;
use edd_display::show_play;
use edd_files::Files;
use edd_loader::{Image, load};
use edd_machine::Values;
use edd_port::{Transcript, play};
use edd_syntax::numbers::{ItemNo, MethNo};
use std::alloc::Global;
use std::io::Write;

// The method of this name.
fn method_named<'a>(image: &Image<'_>, name: &'a str) -> Result<MethNo, Stop<'a>>
    ensures sound { IfOk result (IsMethodNamed image.now name.now) }
    ensures refused { IfErr result (λ stop. (stop ≡ NoMethod name.entry) × IsNoMethod image.now name.now) }
{
    match image.find(name) {
        Some(ItemNo::Method(number)) => Ok(number),
        _ => Err(Stop::NoMethod(name)),
    }
}

// What the method does under the script.
#[tactic(auto, using(crate::proofs::RunLaws::run_under, crate::proofs::ReasonLaws::script_blamed, crate::proofs::ReasonLaws::values_blamed, crate::proofs::ReasonLaws::method_blamed, crate::proofs::ReasonLaws::play_blamed))]
fn played<'a>(
    alloc: Global,
    image: &Image<'_>,
    script: &[u8],
    method: &'a str,
    steps: u64,
) -> Result<Transcript, Stop<'a>>
    ensures sound { IfOk result (IsRun image.now script.now method.now steps) }
    ensures stopped { IfErr result (BlamesUnder image.now script.now
        (BlamesRun image.now script.now method.now steps)) }
{
    let said = edd_script::parse(alloc, image, script)?;
    let number = method_named(image, method)?;
    let values = Values::new(alloc, image, &said.values)?;
    Ok(play(alloc, image, number, values, &said.answers, steps)?)
}

// Runs a method of what may be an image under a script, and prints what it did.
#[tactic(auto, using(crate::proofs::RunLaws::played_under, crate::proofs::ReasonLaws::bytes_blamed, crate::proofs::ReasonLaws::image_blamed, crate::proofs::ReasonLaws::run_blamed))]
fn play_bytes<'a, W: Write>(
    alloc: Global,
    bytes: &[u8],
    script: &[u8],
    method: &'a str,
    language: &str,
    steps: u64,
    out: &mut W,
) -> Result<(), Stop<'a>>
    ensures played { OnOk result (IsPlayed bytes.now script.now method.now language.now steps
        (W.contents out.old) (W.contents out.new)) }
    ensures stopped { IfErr result (Blames bytes.now script.now
        (BlamesRun bytes.now script.now method.now steps)) }
{
    let image = load(alloc, bytes)?;
    let transcript = played(alloc, &image, script, method, steps)?;
    show_play(alloc, &image, &transcript, language, out)?;
    Ok(())
}

/// Runs a method of an image.
#[tactic(auto, using(crate::proofs::StatusLaws::failed, crate::proofs::StatusLaws::plays_behind))]
pub fn play_image<'a, F: Files, W: Write>(
    alloc: Global,
    image: &'a str,
    run: Run<'a>,
    files: &mut F,
    out: &mut W,
) -> Result<(), Stop<'a>>
    ensures played { OnOk result (OfImage (F.account files.old) image.now
        (Some run.entry.script.now) (λ bytes script.
        IsPlayed bytes script run.entry.method.now run.entry.language.now run.entry.steps
        (W.contents out.old) (W.contents out.new))) }
    ensures stopped { IfErr result (Stops (Play image.entry run.entry) (F.account files.old)
        (W.contents out.old) (W.contents out.new)) }
    ensures kept { F.account files.new ≡ F.account files.old }
{
    let Run {
        method,
        script,
        language,
        steps,
    } = run;
    let taken = take(alloc, image, Some(script), files)?;
    let bytes = taken.description.as_slice();
    play_bytes(alloc, bytes, &taken.script, method, language, steps, out)
}

/// Compiles a source, and runs a method of it.
#[tactic(auto, using(crate::proofs::StatusLaws::failed, crate::proofs::StatusLaws::of_text, crate::proofs::StatusLaws::told_of_file, crate::proofs::StatusLaws::tries_behind))]
pub fn try_source<'a, F: Files, W: Write>(
    alloc: Global,
    source: &'a str,
    run: Run<'a>,
    files: &mut F,
    out: &mut W,
) -> Result<(), Stop<'a>>
    ensures played { OnOk result (OfSource (F.account files.old) source.now
        (Some run.entry.script.now) (λ bytes script.
        IsPlayed bytes script run.entry.method.now run.entry.language.now run.entry.steps
        (W.contents out.old) (W.contents out.new))) }
    ensures stopped { IfErr result (Stops (Try source.entry run.entry) (F.account files.old)
        (W.contents out.old) (W.contents out.new)) }
    ensures kept { F.account files.new ≡ F.account files.old }
{
    let Run {
        method,
        script,
        language,
        steps,
    } = run;
    let taken = take(alloc, source, Some(script), files)?;
    let bytes = image_of_source(alloc, &taken.description)?;
    play_bytes(alloc, &bytes, &taken.script, method, language, steps, out)
}
