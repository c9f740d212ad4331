//! Makes the calls that take memory, from a text to a run with a host, and prints what each
//! answers. For runs in which a request for memory is refused: the call that it was for is then the
//! last one, and the program prints `no memory` and ends with status 4.
#![tactic(auto)]

mod aborting;
mod host;
mod runs;
mod stop;
mod texts;

use std::io;
use std::process::ExitCode;
use stop::Stop;

const REFUSED: u8 = 1;

const NO_MEMORY: u8 = 4;

fn main(rt: HostRuntime) -> io::Result<ExitCode> {
    match calls(rt) {
        Ok(()) => Ok(ExitCode::SUCCESS),
        Err(Stop::Memory) => {
            println!(rt; "no memory")?;
            Ok(ExitCode::from(NO_MEMORY))
        }
        Err(Stop::Refused) => {
            println!(rt; "refused")?;
            Ok(ExitCode::from(REFUSED))
        }
        Err(Stop::Output(error)) => Err(error),
    }
}

fn calls(rt: HostRuntime) -> Result<(), Stop> {
    texts::print_tokens(rt)?;
    texts::print_numbers(rt)?;
    texts::print_elements(rt)?;
    runs::print_values(rt)?;
    runs::print_plays(rt)?;
    runs::print_drives(rt)?;
    aborting::print_aborted(rt)
}
