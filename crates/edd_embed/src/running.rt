//! Sessions that a program in C starts, advances, answers and looks at.

ghost use Rattle.std.specs.Prelude.{◌≡◌, ◌+◌, ◌<◌, ◌≤◌, ℕ, ℤ, List, Some, IfErr, IfNone, IfSome, OnErr, OnOk, length, map, option_map};
ghost use Rattle.std.specs.List.{AllByRecursion};
ghost use Rattle.edd_syntax.specs.Answers.{sets_fault, values_set};
ghost use Rattle.edd_image.specs.Contents.{AttributeFields, contents_in};
ghost use Rattle.edd_instructions.specs.Reading.{body_of};
ghost use Rattle.edd_instructions.specs.Steps.{opening};
ghost use Rattle.edd_machine.specs.Faults.{set_fault_of};
ghost use Rattle.edd_machine.specs.Running.{running_unit, unit_at};
ghost use Rattle.edd_machine.specs.Types.{types_in};
ghost use Rattle.edd_port.specs.Faults.{IsStartFault, answer_fault_of};
ghost use Rattle.edd_port.specs.Refusals.{CodeFits, code_of, refusal, sets_of};
ghost use Rattle.edd_port.specs.Runs.{counted};
ghost use Rattle.edd_port.specs.Turns.{turn_of};
ghost use Rattle.edd_embed.specs.Playing.{answer_with, change_of};
ghost use Rattle.edd_embed.specs.Sessions.{Advances, Answers, IsSession, IsSessionRefusal, Starts, answer_given, plain_turn, state_in, status_from};

use crate::answers::{Given, Setting, cut};
use crate::keeping::keep;
use crate::sessions::{PlainSession, parts_of, resume};
use crate::turns::{PlainTurn, SessionRefusal, plain_turn, status_from};
use edd_instructions::Status;
use edd_loader::Image;
use edd_machine::{CodeUnit, Machine, SetFault, are_values, find_body, set_fault};
use edd_port::{AnswerFault, StartFault, Turn, execute, fault_of_set, go_on, turn_of};
use edd_syntax::numbers::{MethNo, VarNo};

// A session at the start of the body of a method.
fn at_start(unit: CodeUnit) -> PlainSession
    requires { unit.slots ≤ 64 }
    ensures stands { (b : List ℕ) (values : List ℤ) (row : AttributeFields)
        → body_of (contents_in b) (record { 0 = unit.item }) ≡ Some row → unit ≡ unit_at b row
        → state_in b result values
        ≡ Some (opening (running_unit b unit) unit.slots values) }
    ensures taken { result.taken ≡ 0 }
{
    PlainSession {
        taken: 0,
        place: 0,
        operands: [0; 128],
        slots: [0; 64],
        abort_methods: [0; 8],
        method: unit.item,
        operand_count: 0,
        abort_count: 0,
        is_aborting: 0,
        turn: plain_turn(Turn::Spent),
    }
}

/// Starts a method under these values: writes all of the session.
///
/// The fault is `NoItem` where there is no such method or it has no body, else `WrongValues` where
/// the values are not those of a device of this description; then nothing is written. It takes no
/// memory.
pub fn start_session(
    image: &Image<'_>,
    method: MethNo,
    values: &[i64],
    session: &mut PlainSession,
) -> Result<(), StartFault>
    ensures sound { OnOk result (Starts image.now method values.now session.new) }
    ensures refused { IfErr result (IsStartFault image.now method values.now) }
    ensures kept { OnErr result (session.new ≡ session.old) }
{
    let Some(unit) = find_body(image, method) else {
        return Err(StartFault::NoItem);
    };
    if !are_values(image, values) {
        return Err(StartFault::WrongValues);
    }
    *session = at_start(unit);
    Ok(())
}

// A count of instructions after some more, which stays at its greatest value.
fn counted(taken: u64, more: u32) -> u64
    ensures { result ≡ counted (taken + more) }
{
    taken.saturating_add(u64::from(more))
}

/// Executes instructions until the method asks, is over, or `budget` of them were executed, and
/// says where it is. A session that asks or is over executes none.
///
/// None where the numbers are no session of the image under these values; then nothing is written.
/// It takes no memory.
pub fn advance_session(
    image: &Image<'_>,
    session: &mut PlainSession,
    values: &mut [i64],
    budget: u32,
) -> Option<PlainTurn>
    ensures sound { IfSome result
        (Advances image.now session.old values.old budget session.new values.new) }
    ensures refused { IfNone result (¬ IsSession image.now session.old values.old) }
    ensures kept { IfNone result ((session.new ≡ session.old) × (values.new ≡ values.old)) }
{
    let parts = parts_of(image, session)?;
    let mut machine = Machine::open(parts.unit);
    if !resume(image, session, values, parts, &mut machine) {
        return None;
    }
    let count = execute(image, &mut machine, values, budget);
    session.taken = counted(session.taken, count);
    keep(&machine, session);
    Some(session.turn)
}

// The fault of the first setting that has one.
fn fault_of_settings(image: &Image<'_>, settings: &[Setting]) -> Option<SetFault>
    ensures { option_map set_fault_of result ≡ sets_fault (types_in image.now)
        (map change_of settings.now) }
{
    for setting in settings {
        if let Some(fault) = set_fault(image, VarNo(setting.variable), setting.value) {
            return Some(fault);
        }
    }
    None
}

// Why an answer with these settings is not taken in a state of this status, if it isn't.
fn fault_of_answer(
    image: &Image<'_>,
    status: Status,
    given: Given,
    settings: &[Setting],
) -> Option<AnswerFault>
    ensures { option_map answer_fault_of result ≡ refusal (types_in image.now) status
        (answer_with given settings.now) }
{
    if !matches!(status, Status::Asking(_)) {
        return Some(AnswerFault::NotAsking);
    }
    if given.aborts != 0 {
        return None;
    }
    match fault_of_settings(image, settings) {
        Some(fault) => Some(fault_of_set(fault)),
        None => None,
    }
}

// Makes the settings, in their order.
fn make_settings(values: &mut [i64], settings: &[Setting])
    requires { AllByRecursion (λ set. set.variable.0 < length values.old)
        (map change_of settings.now) }
    ensures { values.new ≡ values_set values.old (map change_of settings.now) }
{
    for setting in settings {
        values[setting.variable as usize] = setting.value;
    }
}

// Makes the settings of an answer, and gives its code, or none where it aborts.
fn take_settings(values: &mut [i64], given: Given, settings: &[Setting]) -> Option<i32>
    requires { AllByRecursion (λ set. set.variable.0 < length values.old)
        (sets_of (answer_with given settings.now)) }
    ensures values { values.new
        ≡ values_set values.old (sets_of (answer_with given settings.now)) }
    ensures code { result ≡ code_of (answer_with given settings.now) }
    ensures fits { CodeFits (answer_with given settings.now) }
{
    if given.aborts != 0 {
        return None;
    }
    make_settings(values, settings);
    Some(given.code)
}

// Answers the pending request by an answer that has its settings.
fn answer_fully(
    image: &Image<'_>,
    session: &mut PlainSession,
    values: &mut [i64],
    given: Given,
    settings: &[Setting],
) -> Result<(), SessionRefusal>
    requires { given.settings ≤ length settings.now }
    ensures sound { OnOk result (Answers image.now session.old values.old
        (answer_given given settings.now) session.new values.new) }
    ensures refused { IfErr result (IsSessionRefusal image.now session.old values.old given
        settings.now) }
    ensures kept { OnErr result ((session.new ≡ session.old) × (values.new ≡ values.old)) }
{
    let Some(parts) = parts_of(image, session) else {
        return Err(SessionRefusal::NoSession);
    };
    let mut machine = Machine::open(parts.unit);
    if !resume(image, session, values, parts, &mut machine) {
        return Err(SessionRefusal::NoSession);
    }
    let (own, _) = cut(settings, given.settings);
    if let Some(fault) = fault_of_answer(image, machine.status, given, own) {
        return Err(SessionRefusal::Refused(fault));
    }
    let code = take_settings(values, given, own);
    go_on(image, &mut machine, code);
    keep(&machine, session);
    Ok(())
}

/// Answers the pending request: the first settings, as many as the answer says, are made in their
/// order, and the code is the request's value. An abort goes on with the abort methods, or ends the
/// method. Nothing is executed.
///
/// The refusal says that there are fewer settings than the answer says, whatever else is wrong; else
/// that the numbers are no session of the image under these values, or why the answer is not taken.
/// Then nothing is written.
/// It takes no memory.
pub fn answer_session(
    image: &Image<'_>,
    session: &mut PlainSession,
    values: &mut [i64],
    given: Given,
    settings: &[Setting],
) -> Result<(), SessionRefusal>
    ensures sound { OnOk result (Answers image.now session.old values.old
        (answer_given given settings.now) session.new values.new) }
    ensures enough { OnOk result (given.settings ≤ length settings.now) }
    ensures refused { IfErr result (IsSessionRefusal image.now session.old values.old given
        settings.now) }
    ensures kept { OnErr result ((session.new ≡ session.old) × (values.new ≡ values.old)) }
{
    if settings.len() < given.settings as usize {
        return Err(SessionRefusal::Settings);
    }
    answer_fully(image, session, values, given, settings)
}

/// Where a session is, by its own numbers: none where they show no turn.
pub fn turn_session(session: &PlainSession) -> Option<PlainTurn>
    ensures { result ≡ option_map (λ st. plain_turn (turn_of st)) (status_from session.now.turn) }
{
    let status = status_from(session.turn)?;
    Some(plain_turn(turn_of(status)))
}
