//! The script of a run: the values of variables, and the answers to the requests of a method.

ghost use Rattle.std.specs.Prelude.{◌≡◌, ◌++◌, ◌∷◌, [], IfErr, IfOk, IfSome, None, Ok, Err, OnOk, map, pos, replicate, slice_get};
ghost use Rattle.edd_syntax.specs.Answers.{answer_of, values_set};
ghost use Rattle.edd_image.specs.Contents.{contents_in};
ghost use Rattle.edd_script.specs.Lines.{lines};
ghost use Rattle.edd_script.specs.Named.{variables_in};
ghost use Rattle.edd_script.specs.Said.{seen};
ghost use Rattle.edd_script.specs.Scripts.{answering, answers_in, given_by, given_set, line_in, said_in, script_of, sets_in};

use crate::lines::first_line;
use crate::said::{Line, parse_line};
use edd_loader::Image;
use edd_syntax::answer::Answer;
use std::alloc::{AllocError, AllocFailed, Global};
use thiserror::Error;

/// Why a script is not read. A line counts from 1.
#[derive(Clone, Copy, Debug, Drop, PartialEq, Eq, Error)]
pub enum ScriptFault {
    #[error("300 SCRIPT line {line}")]
    Line { line: usize },
    #[error("no memory")]
    Memory,
}

impl From<AllocError> for ScriptFault {
    ghost use Rattle.std.specs.Prelude.{◌≡◌};
    ghost use Rattle.edd_script.specs.declared.script.ScriptFault.TheVariants.{Memory};

    ghost from_gives = { λ _ fault. fault ≡ Memory };

    fn from(_error: AllocError) -> ScriptFault {
        ScriptFault::Memory
    }
}

impl<T: Drop> From<AllocFailed<T>> for ScriptFault {
    ghost use Rattle.std.specs.Prelude.{◌≡◌};
    ghost use Rattle.edd_script.specs.declared.script.ScriptFault.TheVariants.{Memory};

    ghost from_gives = { λ _ fault. fault ≡ Memory };

    fn from(_error: AllocFailed<T>) -> ScriptFault {
        ScriptFault::Memory
    }
}

/// What a script says: the values of all variables by their numbers, 0 where it sets none, and the
/// answers in their order.
#[derive(Drop)]
pub struct Script {
    pub values: Vec<i64>,
    pub answers: Vec<Answer>,
}

impl Script {
    #[tactic(auto, unfolding(edd_image::specs::Contents::contents_in))]
    fn new(alloc: Global, image: &Image<'_>) -> Result<Script, AllocError>
        ensures values { IfOk result (λ made. made.values.items
            ≡ replicate (contents_in image.now).counts.variables (pos 0)) }
        ensures answers { IfOk result (λ made. made.answers.items ≡ []) }
    {
        let count = usize::from(image.counts().variables);
        let mut values = Vec::with_capacity(alloc, count)?;
        values.resize(count, 0)?;
        Ok(Script {
            values,
            answers: Vec::new(alloc),
        })
    }

    // The last setting of a variable counts.
    fn add(&mut self, line: Line) -> Result<(), AllocError>
        ensures values { OnOk result (self.new.values.items
            ≡ values_set self.old.values.items (sets_in (seen line ∷ []))) }
        ensures answers { OnOk result (map answer_of self.new.answers.items
            ≡ map answer_of self.old.answers.items ++ answers_in (seen line ∷ [])) }
    {
        match line {
            Line::Set(variable, value) => {
                if let Some(place) = self.values.get_mut(usize::from(variable.0)) {
                    *place = value;
                }
            }
            Line::Answer(answer) => self.answers.push(answer)?,
            Line::Blank => {}
        }
        Ok(())
    }
}

/// Reads a script for an image, by whose names it sets variables.
pub fn parse(alloc: Global, image: &Image<'_>, script: &[u8]) -> Result<Script, ScriptFault>
    ensures sound { IfOk result (λ made. script_of (variables_in (contents_in image.now)) script.now
        ≡ Ok (said_in made)) }
    ensures refused { IfErr result (λ fault. IfSome (line_in fault) (λ line.
        script_of (variables_in (contents_in image.now)) script.now ≡ Err line)) }
{
    let mut made = Script::new(alloc, image)?;
    let mut before: usize = 0;
    let mut rest = script;
    while let Some((bytes, behind)) = first_line(rest) {
        match parse_line(alloc, image, bytes)? {
            None => return Err(ScriptFault::Line { line: before + 1 }),
            Some(read) => made.add(read)?,
        }
        before += 1;
        rest = behind;
    }
    Ok(made)
}

/// The line, counted from 1, of an answer of a script, by its number among them. Lines that can't be
/// read are passed over.
pub fn answer_line(
    alloc: Global,
    image: &Image<'_>,
    script: &[u8],
    number: usize,
) -> Result<Option<usize>, AllocError>
    ensures { IfOk result (λ line. line ≡ slice_get (answering (variables_in (contents_in image.now)) 1
        (lines script.now)) number) }
{
    let mut left = number;
    let mut before: usize = 0;
    let mut rest = script;
    while let Some((bytes, behind)) = first_line(rest) {
        if let Some(Line::Answer(_)) = parse_line(alloc, image, bytes)? {
            if left == 0 {
                return Ok(Some(before + 1));
            }
            left -= 1;
        }
        before += 1;
        rest = behind;
    }
    Ok(None)
}

// The last setting of a variable counts.
fn note_set(given: &mut Vec<Option<i64>>, line: &Line)
    ensures { given.new.items ≡ given_set given.old.items (sets_in (seen line.now ∷ [])) }
{
    if let Line::Set(variable, value) = line
        && let Some(place) = given.get_mut(usize::from(variable.0))
    {
        *place = Some(*value);
    }
}

#[tactic(auto, unfolding(edd_image::specs::Contents::contents_in))]
fn none_given(alloc: Global, image: &Image<'_>) -> Result<Vec<Option<i64>>, AllocError>
    ensures { IfOk result (λ given. given.items
        ≡ replicate (contents_in image.now).counts.variables None) }
{
    let count = usize::from(image.counts().variables);
    let mut given = Vec::with_capacity(alloc, count)?;
    given.resize(count, None)?;
    Ok(given)
}

/// Reads the values that a script sets, by the variables' numbers. Its answers are passed over.
pub fn parse_sets(
    alloc: Global,
    image: &Image<'_>,
    script: &[u8],
) -> Result<Vec<Option<i64>>, ScriptFault>
    ensures sound { IfOk result (λ given. given_by (variables_in (contents_in image.now)) script.now
        ≡ Ok given.items) }
    ensures refused { IfErr result (λ fault. IfSome (line_in fault) (λ line.
        given_by (variables_in (contents_in image.now)) script.now ≡ Err line)) }
{
    let mut given = none_given(alloc, image)?;
    let mut before: usize = 0;
    let mut rest = script;
    while let Some((bytes, behind)) = first_line(rest) {
        match parse_line(alloc, image, bytes)? {
            None => return Err(ScriptFault::Line { line: before + 1 }),
            Some(read) => note_set(&mut given, &read),
        }
        before += 1;
        rest = behind;
    }
    Ok(given)
}
