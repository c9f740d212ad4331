//! The test of an answer, and its sets.

ghost use Rattle.std.specs.Prelude.{◌≡◌, ◌<◌, length, map, option_map};
ghost use Rattle.std.specs.List.{AllByRecursion};
ghost use Rattle.edd_syntax.specs.Answers.{answer_of, sets_fault, values_set};
ghost use Rattle.edd_machine.specs.Faults.{set_fault_of};
ghost use Rattle.edd_machine.specs.Types.{types_in};
ghost use Rattle.edd_port.specs.Faults.{answer_fault_of};
ghost use Rattle.edd_port.specs.Refusals.{CodeFits, change_of, code_of, refusal, sets_of};

use crate::fault::{AnswerFault, fault_of_set};
use edd_instructions::Status;
use edd_loader::Image;
use edd_machine::{SetFault, set_fault};
use edd_syntax::answer::Answer;
use edd_syntax::numbers::VarNo;

// The fault of the first set that has one.
fn fault_of_sets(image: &Image<'_>, sets: &[(VarNo, i64)]) -> Option<SetFault>
    ensures { option_map set_fault_of result ≡ sets_fault (types_in image.now)
        (map change_of sets.now) }
{
    for set in sets {
        if let Some(fault) = set_fault(image, set.0, set.1) {
            return Some(fault);
        }
    }
    None
}

/// Why an answer is not taken in a state of this status, if it isn't.
pub fn fault_of_answer(image: &Image<'_>, status: Status, answer: &Answer) -> Option<AnswerFault>
    ensures { option_map answer_fault_of result ≡ refusal (types_in image.now) status
        (answer_of answer.now) }
{
    if !matches!(status, Status::Asking(_)) {
        return Some(AnswerFault::NotAsking);
    }
    match answer {
        Answer::Go { code: _, sets } => match fault_of_sets(image, sets.as_slice()) {
            Some(fault) => Some(fault_of_set(fault)),
            None => None,
        },
        Answer::Abort => None,
    }
}

// Makes the sets, in their order.
fn set_values(numbers: &mut [i64], sets: &[(VarNo, i64)])
    requires { AllByRecursion (λ set. set.variable.0 < length numbers.old)
        (map change_of sets.now) }
    ensures { numbers.new ≡ values_set numbers.old (map change_of sets.now) }
{
    for set in sets {
        numbers[set.0.0 as usize] = set.1;
    }
}

/// Makes the sets of an answer, in their order, and gives its code, or none where the method ends.
pub fn make_sets(values: &mut [i64], answer: &Answer) -> Option<i32>
    requires { AllByRecursion (λ set. set.variable.0 < length values.old)
        (sets_of (answer_of answer.now)) }
    ensures values { values.new ≡ values_set values.old (sets_of (answer_of answer.now)) }
    ensures code { result ≡ code_of (answer_of answer.now) }
    ensures fits { CodeFits (answer_of answer.now) }
{
    match answer {
        Answer::Go { code, sets } => {
            set_values(values, sets.as_slice());
            Some(*code)
        }
        Answer::Abort => None,
    }
}
