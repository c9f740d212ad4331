//! The line that helps where a source is shown as an image.

ghost use Rattle.std.specs.Prelude.{◌≡◌, ℕ, List};
ghost use Rattle.edd_program.specs.Reasons.{Blames, BlamesNoRun};

use crate::stop::Stop;
use edd_files::Files;
use edd_loader::LoadFault;
use std::alloc::Global;

// Whether the bytes are a text, as no image is.
fn is_text(bytes: &[u8]) -> bool {
    let is_sign = |sign: char| !sign.is_ascii_control() || sign.is_ascii_whitespace();
    str::from_utf8(bytes).is_ok_and(|text| text.chars().all(is_sign))
}

/// Why an image of this name is not shown. Where the image is a text, the refusal has the line for
/// `hint`.
#[tactic(auto, using(crate::proofs::ReasonLaws::magic_blamed))]
pub fn with_hint<'a>(alloc: Global, stop: Stop<'a>, name: &str, bytes: &[u8]) -> Stop<'a>
    ensures kept { (script : List ℕ) → Blames bytes.now script BlamesNoRun stop.entry
        → Blames bytes.now script BlamesNoRun result }
{
    if !matches!(stop, Stop::NotLoaded(LoadFault::Magic)) || !is_text(bytes) {
        return stop;
    }
    let line = format!(in alloc;
        "help: this is a text and no image: `edd view {name}` shows a source"
    );
    match line {
        Ok(line) => Stop::TextAsImage(line),
        Err(_) => Stop::Memory,
    }
}

/// Tells the user beside the output what helps, where the program stops with such a line.
pub fn hint<F: Files>(stop: &Stop<'_>, files: &mut F)
    ensures kept { F.account files.new ≡ F.account files.old }
{
    if let Stop::TextAsImage(line) = stop {
        files.hint(line);
    }
}
