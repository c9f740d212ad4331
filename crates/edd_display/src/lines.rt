//! Lines of the output. A line is printed whole, or not at all where there is no memory.

ghost use Rattle.std.specs.Prelude.{◌≡◌, ◌++◌, ◌∷◌, [], IfErr, IfSome, OnOk, false};
ghost use Rattle.std.specs.Io.KnownBytes.{Appends};
ghost use Rattle.edd_display.specs.Shown.{blames_values};

use crate::fault::ShowFault;
use std::alloc::Global;
use std::fmt::Display;
use std::io::Write;

/// Prints a line.
pub fn print<W: Write, D: Display + Drop>(
    alloc: Global,
    out: &mut W,
    text: D,
) -> Result<(), ShowFault>
    ensures sound { OnOk result (IfSome (D.output text)
        (λ bytes. Appends (W.contents out.old) (W.contents out.new) (bytes ++ 10 ∷ []))) }
    ensures refused { IfErr result (λ fault. blames_values fault ≡ false) }
{
    let Ok(mut line) = text.to_string(alloc) else {
        return Err(ShowFault::Memory);
    };
    if line.push('\n').is_err() {
        return Err(ShowFault::Memory);
    }
    print_text(out, &line)
}

/// Prints a text of whole lines.
pub fn print_text<W: Write>(out: &mut W, text: &str) -> Result<(), ShowFault>
    ensures sound { OnOk result (Appends (W.contents out.old) (W.contents out.new) text.now) }
    ensures refused { IfErr result (λ fault. blames_values fault ≡ false) }
{
    match out.write_all(text.as_bytes()) {
        Ok(()) => Ok(()),
        Err(_) => Err(ShowFault::Output),
    }
}
