//! What came of the tests of a run, and how many of each outcome there are.

ghost use Rattle.std.specs.Prelude.{◌≡◌, ◌+◌, ◌++◌, ◌∷◌, [], IfOk, OnErr, OnOk, count_by, is_none, length};
ghost use Rattle.edd_outcomes.specs.Expected.{passes, texts};
ghost use Rattle.edd_outcomes.specs.declared.score.Outcome.TheVariants as outcome;
ghost use Rattle.edd_outcomes.specs.Outcomes.{is_failed, is_left_out, is_passed, is_refused, outcome_of};

use crate::comparing::{Difference, compare};
use edd_cases::{Case, Form, Seen};
use std::alloc::{AllocError, Global};
use std::marker::Model;

/// What came of a test, or of a file that is no file of tests.
#[derive(Clone, Copy, Debug, PartialEq, Eq)]
pub enum Outcome {
    /// The test printed what it expects.
    Passed,
    /// It printed something else, which takes the place of what it expects.
    Updated,
    /// It printed something else.
    Failed,
    /// A filter leaves it out: it isn't run.
    LeftOut,
    /// The file is refused, and none of its tests is run.
    Refused,
}

/// How many tests passed and failed, how many a filter leaves out, and how many files are refused.
#[derive(Clone, Copy, Debug, PartialEq, Eq)]
pub struct Counts {
    /// Tests that printed what they expect, or that were updated.
    pub passed: usize,
    pub failed: usize,
    pub left_out: usize,
    pub refused: usize,
}

/// A test that was compared: its outcome, and the first line that differs.
#[derive(Clone, Copy)]
pub struct Compared<'c, 'p> {
    pub outcome: Outcome,
    pub difference: Option<Difference<'c, 'p>>,
}

/// The outcomes of a run so far, in the order of the files and their tests. Contracts see it as their
/// list.
#[derive(Drop)]
pub struct Score {
    outcomes: Vec<Outcome>,
}

impl Model for Score {
    ghost use Rattle.std.specs.Prelude.{List};
    ghost use Rattle.edd_outcomes.specs.declared.score.Outcome.{Outcome};

    ghost Value = { List Outcome };

    ghost view = { λ s. s.outcomes.items };
}

// The outcome of a test of this form, which has met what it expects or not.
fn outcome_of(is_update: bool, form: Form, is_met: bool) -> Outcome
    ensures { result ≡ outcome_of is_update form is_met }
{
    if is_met {
        return Outcome::Passed;
    }
    match form {
        Form::Whole if is_update => Outcome::Updated,
        Form::Whole | Form::Parts => Outcome::Failed,
    }
}

fn is_passed(outcome: Outcome) -> bool
    ensures { result ≡ is_passed outcome }
{
    matches!(outcome, Outcome::Passed | Outcome::Updated)
}

fn is_failed(outcome: Outcome) -> bool
    ensures { result ≡ is_failed outcome }
{
    matches!(outcome, Outcome::Failed)
}

fn is_left_out(outcome: Outcome) -> bool
    ensures { result ≡ is_left_out outcome }
{
    matches!(outcome, Outcome::LeftOut)
}

fn is_refused(outcome: Outcome) -> bool
    ensures { result ≡ is_refused outcome }
{
    matches!(outcome, Outcome::Refused)
}

/// How many outcomes of each kind there are. Each is counted once.
pub fn count(outcomes: &[Outcome]) -> Counts
    ensures passed { result.passed ≡ count_by is_passed outcomes.now }
    ensures failed { result.failed ≡ count_by is_failed outcomes.now }
    ensures left_out { result.left_out ≡ count_by is_left_out outcomes.now }
    ensures refused { result.refused ≡ count_by is_refused outcomes.now }
    ensures all { result.passed + result.failed + result.left_out + result.refused
        ≡ length outcomes.now }
{
    Counts {
        passed: outcomes.iter().filter(|it| is_passed(**it)).count(),
        failed: outcomes.iter().filter(|it| is_failed(**it)).count(),
        left_out: outcomes.iter().filter(|it| is_left_out(**it)).count(),
        refused: outcomes.iter().filter(|it| is_refused(**it)).count(),
    }
}

impl Score {
    /// No outcome so far.
    pub fn nothing(alloc: Global) -> Score
        ensures { result ≡ [] }
    {
        Score {
            outcomes: Vec::new(alloc),
        }
    }

    /// Compares what a run of the test has printed with what it expects, and keeps its outcome. With
    /// `is_update` what was printed takes the place of what a test with `=` expects.
    pub fn compare<'c, 'p>(
        &mut self,
        alloc: Global,
        case: &Case<'c>,
        seen: &[Seen<'p>],
        is_update: bool,
    ) -> Result<Compared<'c, 'p>, AllocError>
        ensures sound { IfOk result (λ compared. is_none compared.difference
            ≡ passes case.now.form case.now.lines.items (texts seen.now)) }
        ensures outcome { IfOk result (λ compared. compared.outcome ≡ outcome_of is_update
            case.now.form (passes case.now.form case.now.lines.items (texts seen.now))) }
        ensures added { OnOk result (self.new ≡ self.old ++ outcome_of is_update case.now.form
            (passes case.now.form case.now.lines.items (texts seen.now)) ∷ []) }
        ensures kept { OnErr result (self.new ≡ self.old) }
    {
        let difference = compare(alloc, case, seen)?;
        let outcome = outcome_of(is_update, case.form, difference.is_none());
        self.outcomes.push(outcome)?;
        Ok(Compared {
            outcome,
            difference,
        })
    }

    /// Keeps that a test is left out.
    pub fn leave_out(&mut self) -> Result<(), AllocError>
        ensures added { OnOk result (self.new ≡ self.old ++ outcome.LeftOut ∷ []) }
        ensures kept { OnErr result (self.new ≡ self.old) }
    {
        self.outcomes.push(Outcome::LeftOut)?;
        Ok(())
    }

    /// Keeps that a file is refused.
    pub fn refuse(&mut self) -> Result<(), AllocError>
        ensures added { OnOk result (self.new ≡ self.old ++ outcome.Refused ∷ []) }
        ensures kept { OnErr result (self.new ≡ self.old) }
    {
        self.outcomes.push(Outcome::Refused)?;
        Ok(())
    }

    /// How many outcomes of each kind there are so far.
    pub fn counts(&self) -> Counts
        ensures passed { result.passed ≡ count_by is_passed self.now }
        ensures failed { result.failed ≡ count_by is_failed self.now }
        ensures left_out { result.left_out ≡ count_by is_left_out self.now }
        ensures refused { result.refused ≡ count_by is_refused self.now }
        ensures all { result.passed + result.failed + result.left_out + result.refused
            ≡ length self.now }
    {
        count(&self.outcomes)
    }
}
