//! What the program `edd` does on a request, over given files and a given output, and the files of the
//! system for it. Proved is what it has done and printed where its status is 0; that `compile` saves the
//! image of its source under the name of its image, or nothing; and that no other request saves
//! anything.
#![tactic(auto)]

ghost use Rattle.std.specs.Prelude.{◌≡◌, ◌≢◌, ◌≤◌, IfSome, false, true};
ghost use Rattle.std.specs.Io.KnownBytes.{Appends};
ghost use Rattle.edd_files.specs.Saves.{SavesOne};
ghost use Rattle.edd_program.specs.declared.stop.Stop.TheVariants.{Output};
ghost use Rattle.edd_program.specs.Done.{Does};
ghost use Rattle.edd_program.specs.Refusals.{file_in, is_failure, refusal_in};
ghost use Rattle.edd_program.specs.Saved.{MaySave};
ghost use Rattle.edd_program.specs.Statuses.{Fails, Refuses, file_line, is_refusal, refusal_line};

mod compiling;
mod hints;
mod playing;
mod reports;
mod request;
mod requests;
mod showing;
mod stop;
mod system;
mod taking;

pub use edd_compiler::{Fault, compile};
use edd_display::ShowFault;
pub use edd_files::{FileFault, Files};
use hints::hint;
pub use reports::{COMMAND_LINE, DONE, FILE, MEMORY};
use reports::{report, status};
pub use request::{Request, Run, Showing};
use std::alloc::Global;
use std::io::Write;
use stop::Stop;
pub use system::{ProgramFiles, program_files};

/// How a request ended.
#[derive(Clone, Copy, Debug, PartialEq, Eq)]
pub struct Ended {
    /// The exit status.
    pub status: u8,
    /// Whether the output took all lines. After one that it did not take none is tried.
    pub is_written: bool,
}

/// Does what a request asks for, and prints to `out`, in pieces: a line is one or more of them.
#[tactic(auto, using(crate::proofs::StatusLaws::refuses, crate::proofs::StatusLaws::fails))]
pub fn run<F: Files, W: Write>(
    alloc: Global,
    request: Request<'_>,
    files: &mut F,
    out: &mut W,
) -> Ended
    ensures status { result.status ≤ 4 }
    ensures words { result.status ≢ 2 }
    ensures saves { SavesOne (MaySave request.entry (F.account files.old)) (F.account files.old)
        (F.account files.new) }
    ensures done { result.status ≡ 0 → Does request.entry (F.account files.old)
        (F.account files.new) (W.contents out.old) (W.contents out.new) }
    ensures refused { result.status ≡ 1 → Refuses request.entry (F.account files.old)
        (W.contents out.old) (W.contents out.new) }
    ensures file { result.status ≡ 3 → result.is_written ≡ true → Fails request.entry
        (W.contents out.old) (W.contents out.new) }
{
    match requests::answer(alloc, request, files, out) {
        Ok(()) => Ended {
            status: DONE,
            is_written: true,
        },
        Err(stop) => stopped(alloc, &stop, files, out),
    }
}

// Says why the program stops, as far as that can be said.
fn stopped<F: Files, W: Write>(alloc: Global, stop: &Stop<'_>, files: &mut F, out: &mut W) -> Ended
    ensures stopped { 1 ≤ result.status }
    ensures status { result.status ≤ 4 }
    ensures words { result.status ≢ 2 }
    ensures refused { result.status ≡ 1 → is_refusal stop.now ≡ true }
    ensures told { result.status ≡ 1 → IfSome (refusal_in stop.now)
        (λ words. Appends (W.contents out.old) (W.contents out.new) (refusal_line words)) }
    ensures file { result.status ≡ 3 → result.is_written ≡ true
        → (is_failure stop.now ≡ true) × (stop.now ≢ Output)
        × IfSome (file_in stop.now) (λ name. Appends (W.contents out.old) (W.contents out.new)
        (file_line name)) }
    ensures kept { F.account files.new ≡ F.account files.old }
{
    match report(alloc, stop, out) {
        Ok(()) => {
            hint(stop, files);
            Ended {
                status: status(stop),
                is_written: true,
            }
        }
        Err(ShowFault::Memory) => no_memory(out),
        Err(_) => Ended {
            status: FILE,
            is_written: false,
        },
    }
}

// Takes no memory itself.
fn no_memory<W: Write>(out: &mut W) -> Ended
    ensures stopped { 3 ≤ result.status }
    ensures status { result.status ≤ 4 }
    ensures written { result.status ≡ 3 → result.is_written ≡ false }
{
    match out.write_all(b"no memory\n") {
        Ok(()) => Ended {
            status: MEMORY,
            is_written: true,
        },
        Err(_) => Ended {
            status: FILE,
            is_written: false,
        },
    }
}
