//! A machine that is written into a session.

ghost use Rattle.std.specs.Prelude.{◌≡◌, ◌≤◌, ℕ, ℤ, List, Some, length, take};
ghost use Rattle.std.specs.List.{AllByRecursion};
ghost use Rattle.edd_image.specs.Contents.{AttributeFields, contents_in};
ghost use Rattle.edd_instructions.specs.declared.unit.Sort.TheVariants.{Method};
ghost use Rattle.edd_instructions.specs.Reading.{body_of};
ghost use Rattle.edd_instructions.specs.Steps.{Fits};
ghost use Rattle.edd_machine.specs.Running.{state_of, unit_at};
ghost use Rattle.edd_port.specs.Turns.{turn_of};
ghost use Rattle.edd_embed.specs.Sessions.{IsPlain, flag_from, plain_turn, state_in};

use crate::sessions::PlainSession;
use crate::turns::plain_turn;
use edd_machine::Machine;
use edd_port::turn_of;

// Writes numbers of 32 bits at the front of the room.
fn write_numbers(numbers: &[i64], room: &mut [i32])
    requires fit { AllByRecursion (Fits Method) numbers.now }
    requires room { length numbers.now ≤ length room.old }
    ensures { take (length numbers.now) room.new ≡ numbers.now }
{
    for (index, number) in numbers.iter().enumerate() {
        room[index] = *number as i32;
    }
}

// Writes numbers of methods at the front of the room.
fn write_methods(numbers: &[u16], room: &mut [u16])
    requires { length numbers.now ≤ length room.old }
    ensures { take (length numbers.now) room.new ≡ numbers.now }
{
    for (index, number) in numbers.iter().enumerate() {
        room[index] = *number;
    }
}

fn flag_number(flag: bool) -> u16
    ensures { flag_from result ≡ Some flag }
{
    if flag { 1 } else { 0 }
}

/// Writes a machine into a session, but for the count of instructions.
pub(crate) fn keep(machine: &Machine, session: &mut PlainSession)
    requires { IsPlain machine.now }
    ensures stands { (b : List ℕ) (values : List ℤ) (row : AttributeFields)
        → body_of (contents_in b) (record { 0 = machine.now.unit.item }) ≡ Some row
        → machine.now.unit ≡ unit_at b row
        → state_in b session.new values ≡ Some (state_of b machine.now values) }
    ensures turn { session.new.turn ≡ plain_turn (turn_of machine.now.status) }
    ensures taken { session.new.taken ≡ session.old.taken }
{
    let operands = machine.operands.numbers();
    let methods = machine.abort_methods.numbers();
    write_numbers(operands, &mut session.operands);
    write_numbers(machine.slots.as_slice(), &mut session.slots);
    write_methods(methods, &mut session.abort_methods);
    session.operand_count = operands.len() as u16;
    session.abort_count = methods.len() as u16;
    session.place = machine.place as u64;
    session.method = machine.unit.item;
    session.is_aborting = flag_number(machine.is_aborting);
    session.turn = plain_turn(turn_of(machine.status));
}
