//! The steps of a machine over the values of its caller.

ghost use Rattle.std.specs.Prelude.{◌≡◌, ◌<◌, ◌≤◌, ℕ, ℤ, List, [], length};
ghost use Rattle.edd_instructions.specs.declared.requests.Request.{Request};
ghost use Rattle.edd_instructions.specs.declared.records.Status.TheVariants.{Asking, Running};
ghost use Rattle.edd_instructions.specs.declared.unit.Sort.TheVariants.{Method};
ghost use Rattle.edd_instructions.specs.AbortMethods.{answered_in, execute_in};
ghost use Rattle.edd_image.specs.Contents.{contents_in};
ghost use Rattle.edd_instructions.specs.Execution.{answered};
ghost use Rattle.edd_machine.specs.Running.{state_of, IsMachine};
ghost use Rattle.edd_port.specs.Refusals.{CodeFits, without_sets};
ghost use Rattle.edd_port.specs.Turns.{ending_of, turn_of};

use edd_instructions::Status;
use edd_loader::Image;
use edd_machine::Machine;

/// Executes instructions until the method asks, is over, or `budget` of them were executed, and
/// answers how many it were. A machine that asks or is over executes none. The values are those of
/// the device, one number for each variable. It takes no memory.
pub fn execute(image: &Image<'_>, machine: &mut Machine, values: &mut [i64], budget: u32) -> u32
    requires { IsMachine image.now machine.old values.old }
    ensures machine { IsMachine image.now machine.new values.new }
    ensures method { machine.old.unit.sort ≡ Method → machine.new.unit.sort ≡ Method }
    ensures state { state_of image.now machine.new values.new
        ≡ (execute_in (contents_in image.now) budget
        (state_of image.now machine.old values.old) []).state }
    ensures count { result ≡ (execute_in (contents_in image.now) budget
        (state_of image.now machine.old values.old) []).steps }
    ensures ending { (execute_in (contents_in image.now) budget
        (state_of image.now machine.old values.old) []).ending
        ≡ ending_of (turn_of machine.new.status) }
    ensures all { machine.new.status ≡ Running → result ≡ budget }
    ensures moves { machine.old.status ≡ Running → 1 ≤ budget → 1 ≤ result }
{
    let mut left = budget;
    while left > 0 && matches!(machine.status, Status::Running) {
        machine.step(image, values);
        left -= 1;
    }
    budget - left
}

// The event of an answer whose sets are made.
fn take_code(machine: &mut Machine, code: Option<i32>)
    requires { length machine.old.operands < 128 }
    ensures unit { machine.new.unit ≡ machine.old.unit }
    ensures fits { CodeFits (without_sets code) }
    ensures state { (b : List ℕ) (values : List ℤ) → state_of b machine.new values
        ≡ (answered (state_of b machine.old values) (without_sets code)).state }
{
    match code {
        Some(code) => {
            machine.operands.push(i64::from(code));
            machine.status = Status::Running;
        }
        None => machine.status = Status::Aborted,
    }
}

/// Goes on after the pending request of a machine that asks, once the sets of the answer were made
/// in its values: the code is the request's value. Without a code the run is aborted, which goes on
/// with the abort methods, or ends the method. It takes no memory.
pub fn go_on(image: &Image<'_>, machine: &mut Machine, code: Option<i32>)
    requires room { length machine.old.operands < 128 }
    ensures state { (values : List ℤ) → state_of image.now machine.new values
        ≡ (answered_in (contents_in image.now) (state_of image.now machine.old values)
        (without_sets code)).state }
    ensures machine { (values : List ℤ) (r : Request) → IsMachine image.now machine.old values
        → machine.old.status ≡ Asking r → IsMachine image.now machine.new values }
    ensures method { machine.old.unit.sort ≡ Method → machine.new.unit.sort ≡ Method }
{
    take_code(machine, code);
    machine.follow(image);
}
