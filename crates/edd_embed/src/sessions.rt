//! A session as plain numbers, and the machine that they stand for.

ghost use Rattle.std.specs.Prelude.{◌≡◌, ◌≤◌, ℕ, ℤ, IfNone, IfSome, IsTrue, List, [], None, Some, length, reverse};
ghost use Rattle.edd_instructions.specs.declared.unit.Sort.TheVariants.{Method};
ghost use Rattle.edd_machine.specs.AbortLists.{methods_of};
ghost use Rattle.edd_machine.specs.Running.{IsMachine, state_of};
ghost use Rattle.edd_embed.specs.Sessions.{IsOpened, IsRead, IsSession, flag_from, state_in, state_of_parts};

use crate::turns::{PlainTurn, status_from};
use arrayvec::ArrayVec;
use edd_instructions::Status;
use edd_loader::Image;
use edd_machine::{AbortMethods, CodeUnit, Machine, Operands, find_body};
use edd_port::is_run;
use edd_syntax::numbers::MethNo;

/// A method that was started: all that is kept of it, but the values of the device.
#[repr(C)]
#[derive(Drop)]
pub struct PlainSession {
    /// How many instructions were executed so far. The count stays at its greatest value.
    pub taken: u64,
    /// The place of the next instruction, in bytes from the start of the method's code.
    pub place: u64,
    /// The operands, the lowest first; those past their count mean nothing.
    pub operands: [i32; 128],
    /// The method's variables of its own; those past their number mean nothing.
    pub slots: [i32; 64],
    /// The numbers of the methods that are to run if the run is aborted, or that are left of them.
    pub abort_methods: [u16; 8],
    /// The number of the method whose body runs, which may be an abort method.
    pub method: u16,
    pub operand_count: u16,
    pub abort_count: u16,
    /// 1 where the run was aborted and its abort methods run, else 0.
    pub is_aborting: u16,
    pub turn: PlainTurn,
}

fn flag_from(number: u16) -> Option<bool>
    ensures { result ≡ flag_from number }
{
    match number {
        0 => Some(false),
        1 => Some(true),
        _ => None,
    }
}

/// What a session says beside its numbers: the unit of its method, the place and the tags.
#[derive(Clone, Copy)]
pub(crate) struct Parts {
    pub unit: CodeUnit,
    pub place: usize,
    pub status: Status,
    pub is_aborting: bool,
}

/// What a session says, if there is such a method, the tags are known and the counts have room.
pub(crate) fn parts_of(image: &Image<'_>, session: &PlainSession) -> Option<Parts>
    ensures sound { IfSome result (IsRead image.now session.now) }
    ensures refused { IfNone result ((values : List ℤ)
        → state_in image.now session.now values ≡ None) }
{
    let unit = find_body(image, MethNo(session.method))?;
    let status = status_from(session.turn)?;
    let is_aborting = flag_from(session.is_aborting)?;
    if session.operand_count > 128 || session.abort_count > 8 {
        return None;
    }
    // Where a place has 32 bits, one that has more is none of a unit.
    match usize::try_from(session.place) {
        Ok(place) => Some(Parts {
            unit,
            place,
            status,
            is_aborting,
        }),
        Err(_) => None,
    }
}

// Puts the operands on the empty stack, given from the lowest.
fn push_operands(operands: &mut Operands, numbers: &[i32])
    requires empty { operands.old ≡ [] }
    requires room { length numbers.now ≤ 128 }
    ensures { operands.new ≡ reverse numbers.now }
{
    for number in numbers {
        operands.push(i64::from(*number));
    }
}

// Sets all slots.
fn copy_slots(slots: &mut ArrayVec<i64, 64>, numbers: &[i32])
    requires { length numbers.now ≡ length slots.old.items }
    ensures { slots.new.items ≡ numbers.now }
{
    for (index, number) in numbers.iter().enumerate() {
        slots[index] = i64::from(*number);
    }
}

// Lists the methods where none is listed.
fn push_methods(methods: &mut AbortMethods, numbers: &[u16])
    requires empty { methods.old ≡ [] }
    requires room { length numbers.now ≤ 8 }
    ensures { methods.new ≡ methods_of numbers.now }
{
    for number in numbers {
        methods.push(MethNo(*number));
    }
}

// Writes a session into a machine that was opened on its unit. A machine is large, so it is made
// once, where it stays.
fn fill(machine: &mut Machine, session: &PlainSession, parts: Parts)
    requires opened { IsOpened parts.unit machine.old }
    requires operands { session.now.operand_count ≤ 128 }
    requires methods { session.now.abort_count ≤ 8 }
    requires slots { parts.unit.slots ≤ 64 }
    ensures unit { machine.new.unit ≡ parts.unit }
    ensures slots { length machine.new.slots.items ≡ parts.unit.slots }
    ensures state { (b : List ℕ) (values : List ℤ)
        → state_of b machine.new values ≡ state_of_parts b session.now parts values }
{
    push_operands(
        &mut machine.operands,
        &session.operands[..session.operand_count as usize],
    );
    copy_slots(
        &mut machine.slots,
        &session.slots[..parts.unit.slots as usize],
    );
    push_methods(
        &mut machine.abort_methods,
        &session.abort_methods[..session.abort_count as usize],
    );
    machine.place = parts.place;
    machine.status = parts.status;
    machine.is_aborting = parts.is_aborting;
}

/// Makes the machine that goes on of one that was opened on the session's unit, and says whether
/// the numbers are a session of the image under these values.
pub(crate) fn resume(
    image: &Image<'_>,
    session: &PlainSession,
    values: &[i64],
    parts: Parts,
    machine: &mut Machine,
) -> bool
    requires read { IsRead image.now session.now parts }
    requires opened { IsOpened parts.unit machine.old }
    ensures machine { IsTrue result → IsMachine image.now machine.new values.now }
    ensures sort { machine.new.unit.sort ≡ Method }
    ensures stands { state_in image.now session.now values.now
        ≡ Some (state_of image.now machine.new values.now) }
    ensures refused { ¬ IsTrue result → ¬ IsSession image.now session.now values.now }
{
    fill(machine, session, parts);
    is_run(image, machine, values)
}
