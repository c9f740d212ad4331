//! What a line of a script says.

ghost use Rattle.std.specs.Prelude.{◌≡◌, IfOk, map, option_map};
ghost use Rattle.edd_image.specs.Contents.{contents_in};
ghost use Rattle.edd_script.specs.Named.{variable_named, variables_in};
ghost use Rattle.edd_script.specs.Words.{words};
ghost use Rattle.edd_script.specs.Said as said;
ghost use Rattle.edd_script.specs.Said.{change_of, seen};

use crate::numbers::{code, number};
use crate::words::first_word;
use edd_cases::without_end;
use edd_loader::Image;
use edd_syntax::answer::Answer;
use edd_syntax::numbers::{ItemNo, VarNo};
use std::alloc::{AllocError, Global};

/// A line of a script.
#[derive(Drop)]
pub enum Line {
    Set(VarNo, i64),
    Answer(Answer),
    Blank,
}

/// The first variable of a name.
pub fn variable(image: &Image<'_>, name: &str) -> Option<VarNo>
    ensures { result ≡ variable_named (variables_in (contents_in image.now)) name.now }
{
    match image.find(name)? {
        ItemNo::Variable(number) => Some(number),
        _ => None,
    }
}

// The variable of a name and the number of a word.
fn setting(image: &Image<'_>, name: &str, value: &str) -> Option<(VarNo, i64)>
    ensures { option_map change_of result ≡ said.setting_of (variables_in (contents_in image.now)) name.now
        value.now }
{
    let variable = variable(image, name)?;
    let value = number(value)?;
    Some((variable, value))
}

// `NAME=N`
fn pair(image: &Image<'_>, word: &str) -> Option<(VarNo, i64)>
    ensures { option_map change_of result ≡ said.pair_of (variables_in (contents_in image.now)) word.now }
{
    let (name, value) = word.split_once('=')?;
    setting(image, name, value)
}

// The settings that the words of a text are, if each is one.
fn pairs(
    alloc: Global,
    image: &Image<'_>,
    text: &str,
) -> Result<Option<Vec<(VarNo, i64)>>, AllocError>
    ensures { IfOk result (λ sets. option_map (λ sets. map change_of sets.items) sets
        ≡ said.pairs_of (variables_in (contents_in image.now)) (words text.now)) }
{
    let mut sets = Vec::new(alloc);
    let mut rest = text;
    while let Some((word, behind)) = first_word(rest) {
        match pair(image, word) {
            None => return Ok(None),
            Some(set) => sets.push(set)?,
        }
        rest = behind;
    }
    Ok(Some(sets))
}

// Behind `set`: `NAME N`
fn set_of(image: &Image<'_>, text: &str) -> Option<Line>
    ensures { option_map seen result ≡ said.said_set (variables_in (contents_in image.now)) (words text.now) }
{
    let (name, behind) = first_word(text)?;
    let (value, rest) = first_word(behind)?;
    match first_word(rest) {
        None => {
            let (variable, value) = setting(image, name, value)?;
            Some(Line::Set(variable, value))
        }
        Some(_) => None,
    }
}

// Behind `answer`: `CODE NAME=N ..`
fn answer_of(alloc: Global, image: &Image<'_>, text: &str) -> Result<Option<Line>, AllocError>
    ensures { IfOk result (λ line. option_map seen line ≡ said.said_answer (variables_in (contents_in image.now))
        (words text.now)) }
{
    let Some((word, rest)) = first_word(text) else {
        return Ok(None);
    };
    let Some(code) = code(word) else {
        return Ok(None);
    };
    match pairs(alloc, image, rest)? {
        None => Ok(None),
        Some(sets) => Ok(Some(Line::Answer(Answer::Go { code, sets }))),
    }
}

// Behind `abort`: nothing
fn abort_of(text: &str) -> Option<Line>
    ensures { option_map seen result ≡ said.said_abort (words text.now) }
{
    match first_word(text) {
        None => Some(Line::Answer(Answer::Abort)),
        Some(_) => None,
    }
}

// What the words of a text say.
fn said_by(alloc: Global, image: &Image<'_>, text: &str) -> Result<Option<Line>, AllocError>
    ensures { IfOk result (λ line. option_map seen line ≡ said.said_by (variables_in (contents_in image.now))
        (words text.now)) }
{
    let Some((word, rest)) = first_word(text) else {
        return Ok(Some(Line::Blank));
    };
    if word == "set" {
        return Ok(set_of(image, rest));
    }
    if word == "answer" {
        return answer_of(alloc, image, rest);
    }
    if word == "abort" {
        return Ok(abort_of(rest));
    }
    Ok(None)
}

/// The text of a line, without its end, if it is text at all.
pub fn text_of(bytes: &[u8]) -> Option<&str>
    ensures { option_map (λ text. text.now) result ≡ said.text_in bytes.now }
{
    match str::from_utf8(bytes) {
        Ok(line) => Some(without_end(line)),
        Err(_) => None,
    }
}

/// What a line says, if it can be read.
pub fn parse_line(
    alloc: Global,
    image: &Image<'_>,
    bytes: &[u8],
) -> Result<Option<Line>, AllocError>
    ensures { IfOk result (λ line. option_map seen line ≡ said.line_of (variables_in (contents_in image.now))
        bytes.now) }
{
    match text_of(bytes) {
        Some(text) => said_by(alloc, image, text),
        None => Ok(None),
    }
}
