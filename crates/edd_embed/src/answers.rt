//! Answers to requests as a program in C has them.

ghost use Rattle.std.specs.Prelude.{◌≡◌, IfOk, drop, map, take};
ghost use Rattle.edd_syntax.specs.Answers.{answer_of};
ghost use Rattle.edd_embed.specs.Playing.{answer_with, answers_of, have_settings};

use edd_syntax::answer::Answer;
use edd_syntax::numbers::VarNo;
use std::alloc::{AllocError, Global};

/// A variable that an answer sets, by its number, and the value.
#[repr(C)]
#[derive(Clone, Copy, PartialEq, Eq, Debug)]
pub struct Setting {
    pub value: i64,
    pub variable: u16,
}

/// An answer: the code, and how many of the settings are its own, or an abort where `aborts` is not
/// 0. It takes its settings also where it aborts, and sets nothing then.
#[repr(C)]
#[derive(Clone, Copy, PartialEq, Eq, Debug)]
pub struct Given {
    pub code: i32,
    pub settings: u32,
    pub aborts: u8,
}

// The answer with these settings.
fn answer_with(alloc: Global, given: Given, settings: &[Setting]) -> Result<Answer, AllocError>
    ensures { IfOk result (λ answer. answer_of answer ≡ answer_with given settings.now) }
{
    if given.aborts != 0 {
        return Ok(Answer::Abort);
    }
    let mut sets = Vec::new(alloc);
    for setting in settings {
        sets.push((VarNo(setting.variable), setting.value))?;
    }
    Ok(Answer::Go {
        code: given.code,
        sets,
    })
}

// The first settings and those after them; where there are fewer, all of them and none.
pub(crate) fn cut(settings: &[Setting], count: u32) -> (&[Setting], &[Setting])
    ensures front { result.0.now ≡ take count settings.now }
    ensures behind { result.1.now ≡ drop count settings.now }
{
    if count as usize <= settings.len() {
        settings.split_at(count as usize)
    } else {
        (settings, &[])
    }
}

/// Whether each answer has as many settings as it says, one after the other.
pub(crate) fn have_settings(givens: &[Given], settings: &[Setting]) -> bool
    ensures { result ≡ have_settings givens.now settings.now }
{
    let mut rest = settings;
    for given in givens {
        if rest.len() < given.settings as usize {
            return false;
        }
        let (_, behind) = cut(rest, given.settings);
        rest = behind;
    }
    true
}

/// The answers, each with its settings, which are one after the other in the list of all.
pub fn answers_of(
    alloc: Global,
    givens: &[Given],
    settings: &[Setting],
) -> Result<Vec<Answer>, AllocError>
    ensures { IfOk result (λ answers. map answer_of answers.items
        ≡ answers_of givens.now settings.now) }
{
    let mut answers = Vec::new(alloc);
    let mut rest = settings;
    for given in givens {
        let (own, behind) = cut(rest, given.settings);
        answers.push(answer_with(alloc, *given, own)?)?;
        rest = behind;
    }
    Ok(answers)
}
