//! A method that is played under the answers of a program in C.

ghost use Rattle.std.specs.Prelude.{◌≡◌, IfErr, IfOk, IsTrue, OnErr, OnOk, length, true};
ghost use Rattle.edd_embed.specs.Playing.{IsPlayRefusal, Shows, answers_of, ending_number, have_settings, trap_number, trap_of};

use crate::answers::{Given, Setting, answers_of, have_settings};
use crate::requests::{PlainRequest, write_requests};
use edd_loader::Image;
use edd_machine::Values;
use edd_port::{Ending, PlayFault, play};
use edd_syntax::answer::Trap;
use edd_syntax::numbers::MethNo;
use std::alloc::Global;

/// How a play ended: 0 it came to its end, 1 it was aborted, 2 it trapped, 3 the last request has
/// no answer, 4 all steps were taken. `trap` is the number of the trap, or 0.
#[repr(C)]
#[derive(Clone, Copy, PartialEq, Eq, Debug)]
pub struct PlainEnding {
    /// How many requests were made.
    pub requests: u64,
    pub trap: u16,
    pub ending: u8,
}

/// Why a play is not shown.
#[derive(Clone, Copy, Debug, PartialEq, Eq)]
pub enum PlayRefusal {
    Play(PlayFault),
    /// There are fewer settings than the answers say.
    Settings,
    /// There is room for another number of values than there are variables.
    Room,
}

pub(crate) fn trap_number(trap: Trap) -> u16
    ensures { result ≡ trap_number trap }
{
    match trap {
        Trap::DivZero => 210,
        Trap::DivOverflow => 211,
        Trap::BadShift => 212,
        Trap::NoElement => 213,
    }
}

fn trap_of(ending: Ending) -> u16
    ensures { result ≡ trap_of ending }
{
    match ending {
        Ending::Trapped(why) => trap_number(why),
        _ => 0,
    }
}

fn ending_number(ending: Ending) -> u8
    ensures { result ≡ ending_number ending }
{
    match ending {
        Ending::Ended => 0,
        Ending::Aborted => 1,
        Ending::Trapped(_) => 2,
        Ending::Waiting => 3,
        Ending::Spent => 4,
    }
}

// Copies the numbers where there is room for just as many.
fn copy_values(numbers: &[i64], room: &mut [i64]) -> bool
    ensures fits { IsTrue result → room.new ≡ numbers.now }
    ensures refused { ¬ IsTrue result → length numbers.now ≡ length room.old → ⊥ }
    ensures kept { ¬ IsTrue result → room.new ≡ room.old }
{
    if numbers.len() != room.len() {
        return false;
    }
    room.copy_from_slice(numbers);
    true
}

// Plays a method under answers that have their settings.
fn play_answered(
    alloc: Global,
    image: &Image<'_>,
    method: MethNo,
    values: &[i64],
    givens: &[Given],
    settings: &[Setting],
    steps: u64,
    requests: &mut [PlainRequest],
    after: &mut [i64],
) -> Result<PlainEnding, PlayRefusal>
    requires { have_settings givens.now settings.now ≡ true }
    ensures sound { IfOk result (λ shown. Shows image.now method values.now steps
        (answers_of givens.now settings.now) shown requests.old requests.new after.new) }
    ensures refused { IfErr result (IsPlayRefusal image.now method values.now steps givens.now
        settings.now (length after.old)) }
    ensures requests_kept { OnErr result (requests.new ≡ requests.old) }
    ensures after_kept { OnErr result (after.new ≡ after.old) }
{
    let Ok(numbers) = Vec::from_slice(alloc, values) else {
        return Err(PlayRefusal::Play(PlayFault::Memory));
    };
    let Ok(answers) = answers_of(alloc, givens, settings) else {
        return Err(PlayRefusal::Play(PlayFault::Memory));
    };
    let values = Values { numbers };
    match play(alloc, image, method, values, answers.as_slice(), steps) {
        Ok(transcript) => {
            if !copy_values(transcript.values.numbers.as_slice(), after) {
                return Err(PlayRefusal::Room);
            }
            write_requests(transcript.requests.as_slice(), requests);
            Ok(PlainEnding {
                requests: transcript.requests.len() as u64,
                trap: trap_of(transcript.ending),
                ending: ending_number(transcript.ending),
            })
        }
        Err(fault) => Err(PlayRefusal::Play(fault)),
    }
}

/// Plays a method from its start under the answers, which have their settings one after the other,
/// for at most so many instructions. It writes the requests, as many as there is room for, and the
/// values as the method left them. It takes memory for the values, the answers and the requests,
/// and gives it back.
///
/// The refusal says that there are fewer settings than the answers say, whatever else is wrong; else it
/// is the fault of `play`, or says that there is room for another number of values. Then nothing is
/// written.
pub fn play_into(
    alloc: Global,
    image: &Image<'_>,
    method: MethNo,
    values: &[i64],
    givens: &[Given],
    settings: &[Setting],
    steps: u64,
    requests: &mut [PlainRequest],
    after: &mut [i64],
) -> Result<PlainEnding, PlayRefusal>
    ensures sound { IfOk result (λ shown. Shows image.now method values.now steps
        (answers_of givens.now settings.now) shown requests.old requests.new after.new) }
    ensures enough { OnOk result (have_settings givens.now settings.now ≡ true) }
    ensures refused { IfErr result (IsPlayRefusal image.now method values.now steps givens.now
        settings.now (length after.old)) }
    ensures requests_kept { OnErr result (requests.new ≡ requests.old) }
    ensures after_kept { OnErr result (after.new ≡ after.old) }
{
    if !have_settings(givens, settings) {
        return Err(PlayRefusal::Settings);
    }
    play_answered(
        alloc, image, method, values, givens, settings, steps, requests, after,
    )
}
