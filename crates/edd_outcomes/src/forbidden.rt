//! Lines that a test must not print.

ghost use Rattle.std.specs.Prelude.{◌≡◌, ℕ, IfOk, List, is_none};
ghost use Rattle.edd_outcomes.specs.Expected.{HasTexts, absents, lacks, lacks_one, texts};

use crate::comparing::Difference;
use edd_cases::{Line, Says, Seen};
use indexmap::IndexMap;
use std::alloc::{AllocError, Global};

// The texts of the lines that were printed, each with its last turn.
fn texts_of<'p>(alloc: Global, seen: &[Seen<'p>]) -> Result<IndexMap<&'p str, usize>, AllocError>
    ensures { IfOk result (λ map. HasTexts map (texts seen.now)) }
{
    let mut printed = IndexMap::new(alloc);
    for line in seen {
        printed.insert(line.text, line.turn)?;
    }
    Ok(printed)
}

// The text of a line that must not be printed and was.
fn forbidden_in<'c>(says: Says<'c>, printed: &IndexMap<&str, usize>) -> Option<&'c str>
    ensures { (seen : List (List ℕ)) → HasTexts printed.now seen
        → is_none result ≡ lacks_one says.entry seen }
{
    match says {
        Says::Absent(text) if printed.contains_key(text) => Some(text),
        _ => None,
    }
}

/// The first of these lines of a test that must not be printed and was. They begin with the line of
/// the file that has this number.
pub(crate) fn find_forbidden<'c, 'p>(
    alloc: Global,
    number: usize,
    lines: &[Line<'c>],
    seen: &[Seen<'p>],
) -> Result<Option<Difference<'c, 'p>>, AllocError>
    ensures { IfOk result (λ found. is_none found ≡ lacks (absents lines.now) (texts seen.now)) }
{
    let printed = texts_of(alloc, seen)?;
    let mut number = number;
    for line in lines {
        match forbidden_in(line.says, &printed) {
            Some(text) => return Ok(Some(Difference::Printed { line: number, text })),
            None => number = number.saturating_add(1),
        }
    }
    Ok(None)
}
