//! What is printed where the program stops, and the exit status.

ghost use Rattle.std.specs.Prelude.{◌≡◌, ◌≢◌, ◌≤◌, IfSome, OnOk, true};
ghost use Rattle.std.specs.Io.KnownBytes.{Appends};
ghost use Rattle.edd_program.specs.declared.stop.Stop.TheVariants.{Output};
ghost use Rattle.edd_program.specs.Refusals.{file_in, is_failure, refusal_in};
ghost use Rattle.edd_program.specs.Statuses.{file_line, is_refusal, refusal_line};

use crate::stop::Stop;
use edd_display::{ShowFault, print};
use edd_loader::LoadFault;
use std::alloc::Global;
use std::fmt::Display;
use std::io::Write;

/// The exit status where all was done.
pub const DONE: u8 = 0;

const REFUSED: u8 = 1;

/// The exit status where the words of the command line ask for nothing.
pub const COMMAND_LINE: u8 = 2;

/// The exit status where a file or the output could not be read or written.
pub const FILE: u8 = 3;

/// The exit status where there is no memory.
pub const MEMORY: u8 = 4;

// Prints that something is refused.
fn refused<W: Write, T: Display>(alloc: Global, fault: &T, out: &mut W) -> Result<(), ShowFault> {
    print(alloc, out, format_args!("refused {fault}"))
}

/// Prints why the program stops.
pub fn report<W: Write>(alloc: Global, stop: &Stop<'_>, out: &mut W) -> Result<(), ShowFault>
    ensures told { OnOk result (IfSome (refusal_in stop.now)
        (λ words. Appends (W.contents out.old) (W.contents out.new) (refusal_line words))) }
    ensures file { OnOk result (IfSome (file_in stop.now)
        (λ name. Appends (W.contents out.old) (W.contents out.new) (file_line name))) }
    ensures output { OnOk result (stop.now ≢ Output) }
{
    match stop {
        Stop::File(name) => print(alloc, out, format_args!("file {name}")),
        Stop::NotCompiled(words) => print(alloc, out, format_args!("refused {words}")),
        Stop::NotLoaded(fault) => refused(alloc, fault, out),
        Stop::TextAsImage(_) => refused(alloc, &LoadFault::Magic, out),
        Stop::Script(fault) => refused(alloc, fault, out),
        Stop::Values(fault) => refused(alloc, fault, out),
        Stop::Play(fault) => refused(alloc, fault, out),
        Stop::NoMethod(name) => { print(alloc, out, format_args!("refused 301 NO_METHOD {name}")) }
        Stop::Output => Err(ShowFault::Output),
        Stop::Memory => Err(ShowFault::Memory),
    }
}

/// The exit status of the program that stops so, where that could be printed.
pub fn status(stop: &Stop<'_>) -> u8
    ensures stopped { 1 ≤ result }
    ensures status { result ≤ 4 }
    ensures words { result ≢ 2 }
    ensures refused { result ≡ 1 → is_refusal stop.now ≡ true }
    ensures file { result ≡ 3 → is_failure stop.now ≡ true }
{
    match stop {
        Stop::NotCompiled(_)
        | Stop::NotLoaded(_)
        | Stop::TextAsImage(_)
        | Stop::Script(_)
        | Stop::Values(_)
        | Stop::NoMethod(_)
        | Stop::Play(_) => REFUSED,
        Stop::File(_) | Stop::Output => FILE,
        Stop::Memory => MEMORY,
    }
}
