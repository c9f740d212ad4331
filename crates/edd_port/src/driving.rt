//! A session that is driven by a host.

ghost use Rattle.std.specs.Prelude.{◌≡◌, [], ◌++◌, ◌+◌, ◌≤◌, IfErr, IfNone, IfOk, IfSome, OnErr, map};
ghost use Rattle.edd_instructions.specs.declared.records.Status.TheVariants.{Running, Asking};
ghost use Rattle.edd_machine.specs.Types.{types_in};
ghost use Rattle.edd_port.specs.Books.{Pair, with_pair};
ghost use Rattle.edd_port.specs.Drives.{AreMet, AreValid, EndsAs, Executes, GoesOn, RefusesLast, Shows, Stops, Takes, accepted, added, driven, failed_after, nothing_after};
ghost use Rattle.edd_port.specs.Runs.{counted};
ghost use Rattle.edd_port.specs.Turns.{turn_of};

use crate::host::{Host, Reply};
use crate::session::Session;
use crate::turn::{Drive, Turn};
use edd_instructions::Request;

// Puts the pending request to the host, and goes on if it gives a good answer.
fn put<H: Host>(session: &mut Session<'_, '_>, host: &mut H, request: Request) -> Option<Drive>
    requires { session.old.state.status ≡ Asking request }
    ensures taken { IfNone result ((pair : Pair) × Takes session.old pair session.new
        × (H.book host.new ≡ with_pair (H.book host.old) pair)) }
    ensures stops { IfSome result
        (λ end. Stops 0 session.old end (H.book host.old) (H.book host.new)) }
    ensures kept { IfSome result (λ end. session.new ≡ session.old) }
{
    match host.reply(&request) {
        Reply::Give => match session.answer(host.given()) {
            Ok(()) => None,
            Err(fault) => Some(Drive::Refused(fault)),
        },
        Reply::Nothing => Some(Drive::Waiting),
        Reply::Failed => Some(Drive::HostFailed),
    }
}

// How many of these instructions one call executes.
fn budget_of(left: u64) -> u32
    ensures within { result ≤ left }
    ensures some { 1 ≤ left → 1 ≤ result }
{
    if left < u64::from(u32::MAX) {
        left as u32
    } else {
        u32::MAX
    }
}

/// Executes some of the instructions that are left, and answers how many are left then.
pub fn execute_some(session: &mut Session<'_, '_>, left: u64) -> u64
    requires runs { session.old.state.status ≡ Running }
    requires some { 1 ≤ left }
    ensures { Executes left session.old result session.new }
{
    let count = session.execute(budget_of(left));
    left - u64::from(count)
}

// One turn: the pending request is put to the host, or instructions are executed, or the drive
// ends.
fn go_on<H: Host>(session: &mut Session<'_, '_>, host: &mut H, left: u64) -> Result<u64, Drive>
    ensures on { IfOk result (λ fewer. GoesOn left session.old (H.book host.old) fewer session.new
        (H.book host.new)) }
    ensures stops { IfErr result (λ end. Stops left session.old end (H.book host.old)
        (H.book host.new)) }
    ensures kept { OnErr result (session.new ≡ session.old) }
{
    match session.turn() {
        Turn::Asks(request) => match put(session, host, request) {
            Some(end) => Err(end),
            None => Ok(left),
        },
        Turn::Spent => {
            if left == 0 {
                Err(Drive::Done(Turn::Spent))
            } else {
                Ok(execute_some(session, left))
            }
        }
        over => Err(Drive::Done(over)),
    }
}

/// Runs the method for at most so many instructions, and puts each request to the host at once,
/// first the pending one.
///
/// `Done(Spent)` comes where they were executed and the method goes on. After `Refused` no set of
/// the host's last answer was made. It takes no memory.
pub fn drive<H: Host>(session: &mut Session<'_, '_>, host: &mut H, steps: u64) -> Drive
    ensures image { session.new.image ≡ session.old.image }
    ensures state { session.new.state
        ≡ (driven session.old steps
        (accepted result (added (H.book host.old) (H.book host.new)))).state }
    ensures taken { session.new.taken ≡ counted (session.old.taken
        + (driven session.old steps
        (accepted result (added (H.book host.old) (H.book host.new)))).steps) }
    ensures ends { EndsAs result
        (driven session.old steps
        (accepted result (added (H.book host.old) (H.book host.new)))).ending }
    ensures spent { result ≡ Drive.Done Turn.Spent
        → (driven session.old steps
        (accepted result (added (H.book host.old) (H.book host.new)))).steps ≡ steps }
    ensures shows { Shows result (turn_of session.new.state.status) }
    ensures used { (driven session.old steps
        (accepted result (added (H.book host.old) (H.book host.new)))).answers ≡ [] }
    ensures met { let pairs = accepted result (added (H.book host.old) (H.book host.new)) in
        AreMet session.old.state (driven session.old steps pairs) (map (λ p. p.request) pairs) }
    ensures pairs { (H.book host.new).pairs ≡ (H.book host.old).pairs
        ++ added (H.book host.old) (H.book host.new) }
    ensures valid { AreValid (types_in session.old.image)
        (accepted result (added (H.book host.old) (H.book host.new))) }
    ensures refused { RefusesLast (types_in session.old.image) result session.new.state
        (added (H.book host.old) (H.book host.new)) }
    ensures nothing { (H.book host.new).nothing ≡ nothing_after result (H.book host.old).nothing }
    ensures failed { (H.book host.new).failed ≡ failed_after result (H.book host.old).failed }
{
    // What was taken so far is a number of 64 bits.
    let _taken = session.taken();
    let mut left = steps;
    loop {
        match go_on(session, host, left) {
            Ok(fewer) => left = fewer,
            Err(end) => return end,
        }
    }
}
