//! What goes from the instrument to the device with a request, and back with a reply.

ghost use Rattle.std.specs.Prelude.{◌≡◌, ◌≢◌, List, ◌∷◌, IfErr, IfOk, OnOk, map, option_map};
ghost use Rattle.edd_instructions.specs.declared.records.Record.{Record};
ghost use Rattle.edd_syntax.specs.Answers.{sets_fault};
ghost use Rattle.edd_syntax.specs.DeviceValues.{AreDeviceValues};
ghost use Rattle.edd_machine.specs.Types.{types_in};
ghost use Rattle.edd_port.specs.Refusals.{change_of};
ghost use Rattle.edd_device.specs.Copies.{code_cleared, code_of, code_within, number_at, replied, requested, tied, with_sets};
ghost use Rattle.edd_device.specs.Taken.{pair_of};

use crate::fault::DeviceFault;
use crate::names::{RESPONSE_CODE, counterpart, variable_named};
use edd_instructions::Record;
use edd_loader::Image;
use edd_machine::{Values, set_fault};
use edd_syntax::numbers::VarNo;
use std::alloc::Global;

// A variable of the instrument and the device's of the same name.
#[derive(Clone, Copy)]
struct Tie {
    ours: VarNo,
    theirs: VarNo,
}

// The value of a variable, 0 where there is none.
fn number_at(numbers: &[i64], variable: VarNo) -> i64
    ensures { result ≡ number_at numbers.now variable }
{
    numbers.get(usize::from(variable.0)).copied().unwrap_or(0)
}

// The variables that an entry of a message ties. Names tie them and not the octets of a message, so
// the whole variable is moved, whatever its mask.
fn tied(instrument: &Image<'_>, device: &Image<'_>, entry: &Record) -> Option<Tie>
    ensures { option_map pair_of result ≡ tied instrument.now device.now entry.now }
{
    match entry {
        Record::DataVar { var, .. } => {
            let theirs = counterpart(instrument, device, *var)?;
            Some(Tie { ours: *var, theirs })
        }
        _ => None,
    }
}

// The device's variable takes the value of an entry of a request, if there is one of its name.
fn take_entry(
    instrument: &Image<'_>,
    device: &Image<'_>,
    values: &Values,
    entry: &Record,
    numbers: &mut [i64],
) -> Result<(), DeviceFault>
    requires { AreDeviceValues (types_in device.now) numbers.old }
    ensures sound { OnOk result ((rest : List Record) → requested instrument.now device.now
        values.now.numbers.items (entry.now ∷ rest) numbers.old
        ≡ requested instrument.now device.now values.now.numbers.items rest numbers.new) }
    ensures refused { IfErr result (λ fault. (rest : List Record) → requested instrument.now
        device.now values.now.numbers.items (entry.now ∷ rest) numbers.old
        ≡ Err fault) }
    ensures values { AreDeviceValues (types_in device.now) numbers.new }
{
    let Some(tie) = tied(instrument, device, entry) else {
        return Ok(());
    };
    let number = number_at(values.numbers.as_slice(), tie.ours);
    if set_fault(device, tie.theirs, number).is_some() {
        return Err(DeviceFault::OutOfRange(tie.ours));
    }
    numbers[usize::from(tie.theirs.0)] = number;
    Ok(())
}

/// The device's values take those of the entries of a request.
pub fn take_request(
    instrument: &Image<'_>,
    device: &Image<'_>,
    values: &Values,
    request: &[Record],
    numbers: &mut [i64],
) -> Result<(), DeviceFault>
    requires { AreDeviceValues (types_in device.now) numbers.old }
    ensures sound { OnOk result (requested instrument.now device.now values.now.numbers.items
        request.now numbers.old
        ≡ Ok numbers.new) }
    ensures refused { IfErr result (λ fault. requested instrument.now device.now
        values.now.numbers.items request.now numbers.old
        ≡ Err fault) }
    ensures values { AreDeviceValues (types_in device.now) numbers.new }
{
    for entry in request {
        take_entry(instrument, device, values, entry, numbers)?;
    }
    Ok(())
}

// The set of an entry of a reply, if the device has a variable of its name.
fn reply_entry(
    instrument: &Image<'_>,
    device: &Image<'_>,
    entry: &Record,
    numbers: &[i64],
    sets: &mut Vec<(VarNo, i64)>,
) -> Result<(), DeviceFault>
    ensures sound { OnOk result ((rest : List Record)
        → with_sets (map change_of sets.old.items) (replied instrument.now device.now
        (entry.now ∷ rest) numbers.now)
        ≡ with_sets (map change_of sets.new.items) (replied instrument.now device.now rest
        numbers.now)) }
    ensures refused { IfErr result (λ fault. fault ≢ DeviceFault.Memory → (rest : List Record)
        → replied instrument.now device.now (entry.now ∷ rest) numbers.now ≡ Err fault) }
{
    let Some(tie) = tied(instrument, device, entry) else {
        return Ok(());
    };
    let number = number_at(numbers, tie.theirs);
    if set_fault(instrument, tie.ours, number).is_some() {
        return Err(DeviceFault::OutOfRange(tie.ours));
    }
    sets.push((tie.ours, number))?;
    Ok(())
}

// The sets of the entries of a reply.
fn collect_sets(
    alloc: Global,
    instrument: &Image<'_>,
    device: &Image<'_>,
    reply: &[Record],
    numbers: &[i64],
) -> Result<Vec<(VarNo, i64)>, DeviceFault>
    ensures sound { IfOk result (λ sets. replied instrument.now device.now reply.now numbers.now
        ≡ Ok (map change_of sets.items)) }
    ensures refused { IfErr result (λ fault. fault ≢ DeviceFault.Memory
        → replied instrument.now device.now reply.now numbers.now ≡ Err fault) }
{
    let mut sets = Vec::new(alloc);
    for entry in reply {
        reply_entry(instrument, device, entry, numbers, &mut sets)?;
    }
    Ok(sets)
}

/// The sets of an answer: what the device has for the entries of a reply.
pub fn reply_sets(
    alloc: Global,
    instrument: &Image<'_>,
    device: &Image<'_>,
    reply: &[Record],
    numbers: &[i64],
) -> Result<Vec<(VarNo, i64)>, DeviceFault>
    ensures sound { IfOk result (λ sets. replied instrument.now device.now reply.now numbers.now
        ≡ Ok (map change_of sets.items)) }
    ensures refused { IfErr result (λ fault. fault ≢ DeviceFault.Memory
        → replied instrument.now device.now reply.now numbers.now ≡ Err fault) }
    ensures valid { IfOk result (λ sets. sets_fault (types_in instrument.now)
        (map change_of sets.items)
        ≡ None) }
{
    collect_sets(alloc, instrument, device, reply, numbers)
}

/// Sets the code of the device's answer to 0.
pub fn clear_code(device: &Image<'_>, numbers: &mut [i64])
    requires { AreDeviceValues (types_in device.now) numbers.old }
    ensures sound { numbers.new ≡ code_cleared device.now numbers.old }
    ensures values { AreDeviceValues (types_in device.now) numbers.new }
{
    // The bytes of an image are valid, so it has as many types as variables.
    let _bytes = device.bytes();
    if let Some(variable) = variable_named(device, RESPONSE_CODE) {
        numbers[usize::from(variable.0)] = 0;
    }
}

// A code has 32 bits.
fn code_within(number: i64) -> Result<i32, DeviceFault>
    ensures { result ≡ code_within number }
{
    if i64::from(i32::MIN) <= number && number <= i64::from(i32::MAX) {
        Ok(number as i32)
    } else {
        Err(DeviceFault::WrongCode)
    }
}

/// The code of the device's answer: 0 where it has no variable for it.
pub fn code_of(device: &Image<'_>, numbers: &[i64]) -> Result<i32, DeviceFault>
    ensures { result ≡ code_of device.now numbers.now }
{
    match variable_named(device, RESPONSE_CODE) {
        Some(variable) => code_within(number_at(numbers, variable)),
        None => Ok(0),
    }
}
