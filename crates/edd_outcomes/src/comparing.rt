//! What was printed, beside what is expected.

ghost use Rattle.std.specs.Prelude.{◌≡◌, ◌&&◌, [], IfOk, drop, option_map, is_none};
ghost use Rattle.edd_outcomes.specs.Expected as expected;
ghost use Rattle.edd_outcomes.specs.Expected.{meets, passes, texts};

use crate::forbidden::find_forbidden;
use edd_cases::{Case, Form, Line, Says, Seen};
use std::alloc::{AllocError, Global};

/// The first line that differs, by the number of the line of the file that expects it.
#[derive(Clone, Copy)]
pub enum Difference<'c, 'p> {
    /// This is the next line, and another one was printed.
    Other {
        line: usize,
        expected: &'c str,
        seen: &'p str,
    },
    /// This is the next line, and no more lines were printed.
    End {
        line: usize,
        expected: &'c str,
    },
    /// This is none of the lines that are left.
    Nowhere {
        line: usize,
        expected: &'c str,
    },
    /// More was printed than the test expects, whose last line this is.
    More {
        line: usize,
        seen: &'p str,
    },
    /// This must not be printed, and was.
    Printed {
        line: usize,
        text: &'c str,
    },
}

// The place behind the next line, which is this text.
fn behind_next(text: &str, seen: &[Seen<'_>], at: usize) -> Option<usize>
    ensures { option_map (λ n. texts (drop n seen.now)) result
        ≡ expected.behind_next text.now (texts (drop at seen.now)) }
{
    if at < seen.len() && seen[at].text == text {
        Some(at + 1)
    } else {
        None
    }
}

// The place behind the first line from here on that is this text.
fn behind(text: &str, seen: &[Seen<'_>], at: usize) -> Option<usize>
    ensures { option_map (λ n. texts (drop n seen.now)) result
        ≡ expected.behind text.now (texts (drop at seen.now)) }
{
    for place in at..seen.len() {
        if seen[place].text == text {
            return Some(place + 1);
        }
    }
    None
}

// The place behind what a line of a test of this form expects from here on.
fn past(form: Form, says: Says<'_>, seen: &[Seen<'_>], at: usize) -> Option<usize>
    ensures { option_map (λ n. texts (drop n seen.now)) result
        ≡ expected.past form says.entry (texts (drop at seen.now)) }
{
    match form {
        Form::Whole => match says {
            Says::Whole(text) => behind_next(text, seen, at),
            _ => Some(at),
        },
        Form::Parts => match says {
            Says::Part(text) => behind(text, seen, at),
            _ => Some(at),
        },
    }
}

// Why a line of the test is not met by what is left.
fn unmet<'c, 'p>(line: usize, says: Says<'c>, next: Option<Seen<'p>>) -> Difference<'c, 'p> {
    match (says, next) {
        (Says::Whole(expected), Some(next)) => Difference::Other {
            line,
            expected,
            seen: next.text,
        },
        (Says::Whole(expected), None) => Difference::End { line, expected },
        (Says::Part(expected), _) => Difference::Nowhere { line, expected },
        _ => Difference::Nowhere { line, expected: "" },
    }
}

// The number of the last line of a test that says something.
fn last_of(case: &Case<'_>) -> usize {
    let says = |line: &Line<'_>| !matches!(line.says, Says::Nothing);
    let last = case.lines.iter().rposition(says).unwrap_or(0);
    case.number.saturating_add(last)
}

// What was printed behind all that a test expects.
fn more<'c, 'p>(case: &Case<'c>, seen: &[Seen<'p>], at: usize) -> Option<Difference<'c, 'p>>
    ensures { is_none result ≡ expected.same [] (texts (drop at seen.now)) }
{
    if at < seen.len() {
        Some(Difference::More {
            line: last_of(case),
            seen: seen[at].text,
        })
    } else {
        None
    }
}

// The first line of the test that was not printed where it should be, or what was printed behind all
// of them.
#[tactic(auto, using(crate::proofs::Meeting::first_line_met))]
fn find_unmet<'c, 'p>(case: &Case<'c>, seen: &[Seen<'p>]) -> Option<Difference<'c, 'p>>
    ensures { is_none result ≡ meets case.now.form case.now.lines.items (texts seen.now) }
{
    let mut at: usize = 0;
    let mut number = case.number;
    for line in &case.lines {
        match past(case.form, line.says, seen, at) {
            Some(next) => at = next,
            None => return Some(unmet(number, line.says, seen.get(at).copied())),
        }
        number = number.saturating_add(1);
    }
    match case.form {
        Form::Whole => more(case, seen, at),
        Form::Parts => None,
    }
}

// The line of the test that has the difference.
fn line_of(difference: Difference<'_, '_>) -> usize {
    match difference {
        Difference::Other { line, .. }
        | Difference::End { line, .. }
        | Difference::Nowhere { line, .. }
        | Difference::More { line, .. }
        | Difference::Printed { line, .. } => line,
    }
}

// The one of the upper line.
fn first_of<'c, 'p>(
    one: Option<Difference<'c, 'p>>,
    other: Option<Difference<'c, 'p>>,
) -> Option<Difference<'c, 'p>>
    ensures { is_none result ≡ (is_none one.entry && is_none other.entry) }
{
    match (one, other) {
        (Some(one), Some(other)) if line_of(other) < line_of(one) => Some(other),
        (None, other) => other,
        (one, _) => one,
    }
}

/// Whether a run of the test has printed what it expects, and no line that it must not print: nothing
/// where that is so, else the first line that differs. It takes memory for the lines, and gives it
/// back.
pub fn compare<'c, 'p>(
    alloc: Global,
    case: &Case<'c>,
    seen: &[Seen<'p>],
) -> Result<Option<Difference<'c, 'p>>, AllocError>
    ensures sound { IfOk result (λ found. is_none found
        ≡ passes case.now.form case.now.lines.items (texts seen.now)) }
{
    let unmet = find_unmet(case, seen);
    let forbidden = find_forbidden(alloc, case.number, &case.lines, seen)?;
    Ok(first_of(unmet, forbidden))
}
