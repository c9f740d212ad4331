//! The calls on images: values of a device, plays, and a session that a host drives.

use crate::host::Crowded;
use crate::stop::Stop;
use edd_loader::{Image, load};
use edd_machine::{Values, ValuesFault};
use edd_port::{Drive, PlayFault, Session, drive, play};
use edd_syntax::answer::Answer;
use edd_syntax::numbers::{MethNo, VarNo};

/// An image of a variable x, which holds 0 to 255, and of a method m, which adds the code of an
/// answer to it: x += ACKNOWLEDGE("a")
const ADDING: [u8; 126] = [
    // the version, the length, the identification, how many of each there are
    0x45, 0x44, 0x49, 0x31, 0, 1, 0, 0, 0, 0, 0, 126, 0, 0, 0, 1, 0, 0, 0, 2, 0, 0, 0, 3, 0, 0, 0,
    4, 0, 1, 0, 0, 0, 0, 0, 0, 0, 1, 0, 1, 0, 0, 0, 1, 0, 0, 0, 2, 0, 0, 0, 15, 0, 0, 0, 9,
    // the type of x, and where both names are
    2, 1, 0, 0, 0, 0, 0, 0, 0, 1, 0, 0, 0, 0, 0, 1, 0, 1, 0, 0,
    // the body of m and its code: what x holds, the answer's code, their sum, kept in x
    5, 0x15, 0, 0, 0, 0, 0, 0, 0, 0, 0, 0, 0, 0, 0, 15, 0x02, 0, 0, 0x50, 2, 0, 0, 0, 0, 0x10,
    0x03, 0, 0, 0x06, 0x00,
    // where the string is, the names, and the string: its variant en
    0, 0, 0, 0, 0, 0, 0, 9, 0x78, 0x6d, 0, 2, 0x65, 0x6e, 0, 0, 0, 1, 0x61,
];

const STEPS: u64 = 1000;

const X: VarNo = VarNo(0);

const M: MethNo = MethNo(0);

/// Values of a device: none, one out of its range, and one in it.
pub fn print_values(rt: HostRuntime) -> Result<(), Stop> {
    let image = load(rt.alloc(), &ADDING)?;
    print_value(rt, &image, &[])?;
    print_value(rt, &image, &[256])?;
    print_value(rt, &image, &[255])
}

fn print_value(rt: HostRuntime, image: &Image<'_>, numbers: &[i64]) -> Result<(), Stop> {
    match Values::new(rt.alloc(), image, numbers) {
        Ok(values) => println!(rt; "values: x is {:?}", values.get(X))?,
        Err(ValuesFault::Memory) => return Err(Stop::Memory),
        Err(fault) => println!(rt; "values: {fault}")?,
    }
    Ok(())
}

/// Plays of a method: with an answer that is taken, and with one that sets too much.
pub fn print_plays(rt: HostRuntime) -> Result<(), Stop> {
    let image = load(rt.alloc(), &ADDING)?;
    print_play(rt, &image, 1)?;
    print_play(rt, &image, 256)
}

// An answer with the code 10, which sets the variable first.
fn answers_of(rt: HostRuntime, set: i64) -> Result<Vec<Answer>, Stop> {
    let sets = vec![in rt.alloc(); (X, set)]?;
    let answers = vec![in rt.alloc(); Answer::Go { code: 10, sets }]?;
    Ok(answers)
}

// The run under such an answer.
fn print_play(rt: HostRuntime, image: &Image<'_>, set: i64) -> Result<(), Stop> {
    let values = Values::new(rt.alloc(), image, &[250])?;
    let answers = answers_of(rt, set)?;
    match play(rt.alloc(), image, M, values, &answers, STEPS) {
        Ok(run) => println!(rt;
            "play: {} request, {:?}, x is {:?}",
            run.requests.len(),
            run.ending,
            run.values.get(X)
        )?,
        Err(PlayFault::Memory) => return Err(Stop::Memory),
        Err(fault) => println!(rt; "play: {fault}")?,
    }
    Ok(())
}

/// A session whose host has no memory at first: the request is still pending, and the next call
/// goes on from it.
pub fn print_drives(rt: HostRuntime) -> Result<(), Stop> {
    let image = load(rt.alloc(), &ADDING)?;
    let values = Values::new(rt.alloc(), &image, &[250])?;
    let Ok(mut session) = Session::start(&image, M, values) else {
        return Err(Stop::Refused);
    };
    print_advance(rt, &mut session)?;
    let mut host = Crowded::new(rt.alloc());
    print_failure(rt, &mut session, &mut host)?;
    print_rest(rt, &mut session, &mut host)
}

// A budget of nothing.
fn print_advance(rt: HostRuntime, session: &mut Session<'_, '_>) -> Result<(), Stop> {
    let turn = session.advance(0);
    println!(rt; "advance: {turn:?} after {}", session.taken())?;
    Ok(())
}

// The first call, in which the host fails.
fn print_failure(
    rt: HostRuntime,
    session: &mut Session<'_, '_>,
    host: &mut Crowded,
) -> Result<(), Stop> {
    let end = drive(session, host, STEPS);
    println!(rt; "drive: {end:?}, {:?}", session.turn())?;
    Ok(())
}

// The next call, for which the host has memory, unless a request for it is refused.
fn print_rest(
    rt: HostRuntime,
    session: &mut Session<'_, '_>,
    host: &mut Crowded,
) -> Result<(), Stop> {
    let end = drive(session, host, STEPS);
    if end == Drive::HostFailed {
        return Err(Stop::Memory);
    }
    println!(rt; "drive: {end:?}, x is {:?}", session.values().get(X))?;
    Ok(())
}
