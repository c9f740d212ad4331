//! A method that is aborted, from its text to the last of its abort methods.

use crate::stop::Stop;
use edd_compiler::compile;
use edd_loader::load;
use edd_machine::Values;
use edd_port::{PlayFault, Transcript, play};
use edd_syntax::answer::Answer;
use edd_syntax::numbers::MethNo;
use std::alloc::{AllocError, Global};

/// A method that lists two others and asks, as they do.
const ABORTED: &str = "MANUFACTURER 1, DEVICE_TYPE 2, DEVICE_REVISION 3, DD_REVISION 4
    METHOD m { DEFINITION { add_abort_method(u); add_abort_method(v); send_command(1); } }
    METHOD u { DEFINITION { send_command(2); } }
    METHOD v { DEFINITION { send_command(3); } }";

const M: MethNo = MethNo(0);

const STEPS: u64 = 1000;

/// The image of the text, and the run of its first method, whose first request is aborted.
pub fn print_aborted(rt: HostRuntime) -> Result<(), Stop> {
    let bytes = compile(rt.alloc(), ABORTED.as_bytes())?;
    println!(rt; "compile: {} bytes", bytes.len())?;
    let image = load(rt.alloc(), &bytes)?;
    println!(rt; "load: {} methods", image.counts().methods)?;
    let values = Values::new(rt.alloc(), &image, &[])?;
    let answers = answers_of(rt.alloc())?;
    match play(rt.alloc(), &image, M, values, &answers, STEPS) {
        Ok(run) => print_run(rt, &run),
        Err(PlayFault::Memory) => Err(Stop::Memory),
        Err(_) => Err(Stop::Refused),
    }
}

fn zero(alloc: Global) -> Answer {
    Answer::Go {
        code: 0,
        sets: Vec::new(alloc),
    }
}

// An abort, and an answer to each abort method.
fn answers_of(alloc: Global) -> Result<Vec<Answer>, AllocError> {
    let answers = vec![in alloc; Answer::Abort, zero(alloc), zero(alloc)]?;
    Ok(answers)
}

fn print_run(rt: HostRuntime, run: &Transcript) -> Result<(), Stop> {
    for request in &run.requests {
        println!(rt; "play: {request:?}")?;
    }
    println!(rt; "play: {:?}", run.ending)?;
    Ok(())
}
