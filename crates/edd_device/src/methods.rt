//! What the methods of a device make of its values.

ghost use Rattle.std.specs.Prelude.{◌≡◌, ◌≢◌, ℕ, ◌-◌, IfErr, IfOk, Ok, Err};
ghost use Rattle.edd_syntax.specs.DeviceValues.{AreDeviceValues};
ghost use Rattle.edd_instructions.specs.Execution.{Outcome};
ghost use Rattle.edd_machine.specs.Types.{types_in};
ghost use Rattle.edd_port.specs.Turns.{ending_of};
ghost use Rattle.edd_device.specs.Methods.{ended, ran, ran_if_any, ran_times, waited, whole_seconds};
ghost use Rattle.edd_device.specs.Taken.{now_of, unless};

use crate::fault::DeviceFault;
use crate::names::{SECOND, method_named};
use edd_loader::Image;
use edd_machine::Values;
use edd_port::{Session, StartFault, Turn};
use edd_syntax::numbers::MethNo;
use std::alloc::Global;

/// The values of a device, and how many instructions it may still execute for this request.
#[derive(Drop)]
pub struct Underway {
    pub numbers: Vec<i64>,
    pub left: u32,
}

// Why the device has no answer where its method stopped here; none where it came to its end.
fn fault_at(method: MethNo, turn: Turn) -> Option<DeviceFault>
    ensures { (left : ℕ) (o : Outcome) → ended method left (ending_of turn) o
        ≡ unless result (record { values = o.state.values; left = left - o.steps }) }
{
    match turn {
        Turn::Ended => None,
        Turn::Aborted => Some(DeviceFault::Aborts(method)),
        Turn::Trapped(why) => Some(DeviceFault::Traps(method, why)),
        Turn::Asks(_) => Some(DeviceFault::Asks(method)),
        Turn::Spent => Some(DeviceFault::RunsOn(method)),
    }
}

// Runs a method of the device.
fn run(
    alloc: Global,
    device: &Image<'_>,
    method: MethNo,
    now: Underway,
) -> Result<Underway, DeviceFault>
    requires { AreDeviceValues (types_in device.now) now.numbers.items }
    ensures sound { IfOk result (λ next. ran device.now method (now_of now) ≡ Ok (now_of next)) }
    ensures refused { IfErr result (λ fault. fault ≢ DeviceFault.Memory
        → ran device.now method (now_of now) ≡ Err fault) }
    ensures values { IfOk result (λ next. AreDeviceValues (types_in device.now)
        next.numbers.items) }
{
    let left = now.left;
    let values = Values {
        numbers: now.numbers,
    };
    let mut session = match Session::start(device, method, values) {
        Ok(session) => session,
        Err((StartFault::NoItem, values)) => {
            return Ok(Underway {
                numbers: values.numbers,
                left,
            });
        }
        Err((StartFault::WrongValues, _)) => unreachable!(),
    };
    session.advance(left);
    if let Some(fault) = fault_at(method, session.turn()) {
        return Err(fault);
    }
    let numbers = Vec::from_slice(alloc, session.values().numbers.as_slice())?;
    let left = u64::from(left).saturating_sub(session.taken());
    Ok(Underway {
        numbers,
        left: left as u32,
    })
}

/// Runs this method of the device, if it has one.
pub fn run_if_any(
    alloc: Global,
    device: &Image<'_>,
    method: Option<MethNo>,
    now: Underway,
) -> Result<Underway, DeviceFault>
    requires { AreDeviceValues (types_in device.now) now.numbers.items }
    ensures sound { IfOk result (λ next. ran_if_any device.now method (now_of now)
        ≡ Ok (now_of next)) }
    ensures refused { IfErr result (λ fault. fault ≢ DeviceFault.Memory
        → ran_if_any device.now method (now_of now) ≡ Err fault) }
    ensures values { IfOk result (λ next. AreDeviceValues (types_in device.now)
        next.numbers.items) }
{
    match method {
        Some(method) => run(alloc, device, method, now),
        None => Ok(now),
    }
}

// Runs a method one time after the other.
fn run_times(
    alloc: Global,
    device: &Image<'_>,
    method: MethNo,
    times: u32,
    first: Underway,
) -> Result<Underway, DeviceFault>
    requires { AreDeviceValues (types_in device.now) first.numbers.items }
    ensures sound { IfOk result (λ next. ran_times device.now method times (now_of first)
        ≡ Ok (now_of next)) }
    ensures refused { IfErr result (λ fault. fault ≢ DeviceFault.Memory
        → ran_times device.now method times (now_of first) ≡ Err fault) }
    ensures values { IfOk result (λ next. AreDeviceValues (types_in device.now)
        next.numbers.items) }
{
    let mut now = first;
    for _time in 0..times {
        now = run(alloc, device, method, now)?;
    }
    Ok(now)
}

// A delay of less than 0 seconds is none.
fn whole_seconds(seconds: i32) -> u32
    ensures { result ≡ whole_seconds seconds }
{
    if seconds < 0 { 0 } else { seconds as u32 }
}

/// Lets so many seconds pass.
pub fn wait(
    alloc: Global,
    device: &Image<'_>,
    seconds: i32,
    now: Underway,
) -> Result<Underway, DeviceFault>
    requires { AreDeviceValues (types_in device.now) now.numbers.items }
    ensures sound { IfOk result (λ next. waited device.now seconds (now_of now)
        ≡ Ok (now_of next)) }
    ensures refused { IfErr result (λ fault. fault ≢ DeviceFault.Memory
        → waited device.now seconds (now_of now) ≡ Err fault) }
    ensures values { IfOk result (λ next. AreDeviceValues (types_in device.now)
        next.numbers.items) }
{
    match method_named(device, SECOND) {
        Some(method) => run_times(alloc, device, method, whole_seconds(seconds), now),
        None => Ok(now),
    }
}
