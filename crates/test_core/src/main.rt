//! Runs the rows on its standard input, each as the program `edd` over files in memory, and prints
//! a line for each. They are a few of each of the five commands, and show that the proved program
//! runs as both compilers build it; `tests/` has all others.
//!
//! For runs in which a request for memory is refused: it ends with status 4 where a row answers
//! that as it should, and with status 5 where the table itself finds no memory.
#![tactic(auto)]

mod early;
mod memory;
mod rows;
mod trial;

use early::Early;
use rows::Row;
use std::io;
use std::io::Read;
use std::process::ExitCode;
use trial::Verdict;

const REFUSED: u8 = 4;

const NO_TABLE: u8 = 5;

fn main(rt: HostRuntime) -> io::Result<ExitCode> {
    let Ok(table) = input(rt) else {
        return Ok(ExitCode::from(NO_TABLE));
    };
    match run_rows(rt, &table) {
        Ok(()) => Ok(ExitCode::SUCCESS),
        Err(Early::Refused) => Ok(ExitCode::from(REFUSED)),
        Err(Early::NoTable) => Ok(ExitCode::from(NO_TABLE)),
        Err(Early::Output(error)) => Err(error),
    }
}

fn input(rt: HostRuntime) -> io::Result<String> {
    let mut text = String::new(rt.alloc());
    rt.stdin().read_to_string(&mut text)?;
    Ok(text)
}

// What stands before the first row is left out.
fn run_rows(rt: HostRuntime, table: &str) -> Result<(), Early> {
    for part in table.split("@run ").skip(1) {
        let row = Row::parse(rt.alloc(), part)?;
        run(rt, &row)?;
    }
    Ok(())
}

fn run(rt: HostRuntime, row: &Row<'_>) -> Result<(), Early> {
    match trial::run(rt.alloc(), row)? {
        Verdict::AsWritten => println!(rt; "ok {}: {}", row.words, row.name)?,
        Verdict::Refused => return Err(Early::Refused),
        Verdict::Other(printed) => println!(rt; "WRONG {}: {}\n{printed}", row.words, row.name)?,
    }
    Ok(())
}
