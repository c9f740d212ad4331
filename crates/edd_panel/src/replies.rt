//! What a command says to the request of a method.

ghost use Rattle.std.specs.Prelude.{◌≡◌, ◌⊎◌, List, [], IfOk, OnErr, None};
ghost use Rattle.edd_syntax.specs.Answers.{Go, answer_of, answer_fault};
ghost use Rattle.edd_syntax.specs.DeviceValues.{AreDeviceValues, VariableType};
ghost use Rattle.edd_instructions.specs.declared.records.Status.TheVariants.{Asking};
ghost use Rattle.edd_machine.specs.Types.{types_in};
ghost use Rattle.edd_panel.specs.Replies.{Follows, IsTaken, Replies, Says, SaysChoice, SaysCode, SaysEnter, SaysNumber, SaysValue, after_answer};

use crate::choices::count_choices;
use crate::command::{Command, Happened, Said};
use crate::deciding::decide_value;
use crate::fault::EditFault;
use edd_instructions::{Request, Wanted};
use edd_loader::Image;
use edd_machine::Values;
use edd_port::{Session, Turn};
use edd_syntax::answer::Answer;
use edd_syntax::numbers::{StrNo, VarNo};
use std::alloc::{AllocError, Global};

/// An answer that sets no variable.
pub fn plain(alloc: Global, code: i32) -> Answer
    ensures { answer_of result ≡ Go code [] }
{
    Answer::Go {
        code,
        sets: Vec::new(alloc),
    }
}

// A value for a variable.
fn say_value(
    alloc: Global,
    image: &Image<'_>,
    values: &Values,
    variable: VarNo,
    number: i64,
) -> Result<Said, AllocError>
    requires { AreDeviceValues (types_in image.now) values.now.numbers.items }
    ensures says { IfOk result (SaysValue image.now values.now.numbers.items variable number) }
    ensures taken { IfOk result (IsTaken (types_in image.now)) }
{
    if let Some(fault) = decide_value(alloc, image, values, variable, number)? {
        return Ok(Said::Refused(fault));
    }
    let mut sets = Vec::new(alloc);
    sets.push((variable, number))?;
    Ok(Said::Answer(Answer::Go { code: 0, sets }))
}

// A code, as of a command that was sent.
fn say_code(alloc: Global, number: i64) -> Said
    ensures says { SaysCode number result }
    ensures taken { (types : List VariableType) → IsTaken types result }
{
    match i32::try_from(number) {
        Ok(code) => Said::Answer(plain(alloc, code)),
        Err(_) => Said::Refused(EditFault::BadCode),
    }
}

// A choice, counted from 1.
fn say_choice(alloc: Global, image: &Image<'_>, language: &str, choices: StrNo, number: i64) -> Said
    ensures says { SaysChoice number result }
    ensures taken { (types : List VariableType) → IsTaken types result }
{
    let count = i64::from(count_choices(image, choices, language));
    if number < 1 || number > count {
        return Said::Refused(EditFault::NoChoice);
    }
    Said::Answer(plain(alloc, (number - 1) as i32))
}

// What a number says.
fn say_number(
    alloc: Global,
    image: &Image<'_>,
    language: &str,
    values: &Values,
    request: Request,
    number: i64,
) -> Result<Said, AllocError>
    requires { AreDeviceValues (types_in image.now) values.now.numbers.items }
    ensures says { IfOk result (SaysNumber image.now values.now.numbers.items request number) }
    ensures taken { IfOk result (IsTaken (types_in image.now)) }
{
    match request.wanted() {
        Wanted::Nothing => Ok(Said::Nothing),
        Wanted::Value(variable) => say_value(alloc, image, values, variable, number),
        Wanted::Choice(choices) => Ok(say_choice(alloc, image, language, choices, number)),
        Wanted::Code => Ok(say_code(alloc, number)),
    }
}

// What Enter alone says.
fn say_enter(alloc: Global, request: Request) -> Said
    ensures says { SaysEnter request result }
    ensures taken { (types : List VariableType) → IsTaken types result }
{
    match request.wanted() {
        Wanted::Nothing => Said::Answer(plain(alloc, 0)),
        Wanted::Value(_) | Wanted::Choice(_) | Wanted::Code => Said::Nothing,
    }
}

/// What a command says to a request, under values of a device.
pub fn say(
    alloc: Global,
    image: &Image<'_>,
    language: &str,
    values: &Values,
    request: Request,
    command: Command,
) -> Result<Said, AllocError>
    requires { AreDeviceValues (types_in image.now) values.now.numbers.items }
    ensures says { IfOk result (Says image.now values.now.numbers.items request command) }
    ensures taken { IfOk result (IsTaken (types_in image.now)) }
{
    match command {
        Command::Enter => Ok(say_enter(alloc, request)),
        Command::Back => Ok(Said::Nothing),
        Command::Number(number) => say_number(alloc, image, language, values, request, number),
        Command::Abort => Ok(Said::Answer(Answer::Abort)),
    }
}

// Gives the pending request a valid answer.
fn give(session: &mut Session<'_, '_>, request: Request, answer: &Answer)
    requires asks { session.old.state.status ≡ Asking request }
    requires valid { answer_fault (types_in session.old.image) (answer_of answer.now) ≡ None }
    ensures { session.new ≡ after_answer session.old (answer_of answer.now) }
{
    match session.answer(answer) {
        Ok(()) => {}
        Err(_) => unreachable!(),
    }
}

// What was said becomes of the method.
fn follow(session: &mut Session<'_, '_>, request: Request, said: Said) -> Happened
    requires asks { session.old.state.status ≡ Asking request }
    requires taken { IsTaken (types_in session.old.image) said }
    ensures { Follows session.old said result session.new }
{
    match said {
        Said::Answer(answer) => {
            give(session, request, &answer);
            Happened::Answered(answer)
        }
        Said::Refused(fault) => Happened::Refused(fault),
        Said::Nothing => Happened::Unknown,
    }
}

/// Gives a command to a method that runs on this image.
pub fn reply(
    alloc: Global,
    image: &Image<'_>,
    language: &str,
    session: &mut Session<'_, '_>,
    command: Command,
) -> Result<Happened, AllocError>
    requires { session.old.image ≡ image.now }
    ensures replies { IfOk result (λ happened. Replies session.old command happened session.new) }
    ensures kept { OnErr result (session.new ≡ session.old) }
{
    let Turn::Asks(request) = session.turn() else {
        return Ok(idle(command));
    };
    let said = say(alloc, image, language, session.values(), request, command)?;
    Ok(follow(session, request, said))
}

// What a command is to a method that doesn't ask: Enter lets it go on.
fn idle(command: Command) -> Happened
    ensures { (result ≡ Happened.Shown) ⊎ (result ≡ Happened.Unknown) }
{
    match command {
        Command::Enter => Happened::Shown,
        Command::Back | Command::Number(_) | Command::Abort => Happened::Unknown,
    }
}
