//! A test with what was seen in place of what was expected.

ghost use Rattle.std.specs.Prelude.{◌≡◌, ◌++◌, ◌∷◌, [], IfOk, OnOk};
ghost use Rattle.edd_cases.specs.Renewed.{HaveSeen, kept_of, shown_of, staying_of, texts};

use crate::cases::Case;
use crate::lines::{Line, Says};
use crate::printed::Seen;
use std::alloc::{AllocError, Global};

/// A piece of a test that is written anew.
#[derive(Clone, Copy)]
pub enum Piece<'c, 'p> {
    /// A line that stays as it is, with its end.
    Kept(&'c str),
    /// A line that was seen, without its end.
    Seen(&'p str),
}

// How many lines of a test there are up to the last one that says something: blank lines and
// comments behind it belong to what follows.
fn count_said(lines: &[Line<'_>]) -> usize {
    let last = lines
        .iter()
        .rposition(|line| !matches!(line.says, Says::Nothing));
    last.map_or(0, |last| last.saturating_add(1))
}

// Adds the next lines that were seen up to this turn, at most so many, and gives the number of all
// that were added.
#[tactic(auto, using(crate::proofs::Pieces::seen_keeps, crate::proofs::Pieces::one_more_seen))]
fn add_turn<'c, 'p>(
    pieces: &mut Vec<Piece<'c, 'p>>,
    seen: &[Seen<'p>],
    added: usize,
    turn: usize,
    most: usize,
) -> Result<usize, AllocError>
    ensures kept { IfOk result (λ n. kept_of pieces.new.items ≡ kept_of pieces.old.items) }
    ensures shown { IfOk result (λ n. HaveSeen pieces.old.items seen.now added
        → HaveSeen pieces.new.items seen.now n) }
{
    let end = seen.len().min(added.saturating_add(most));
    for place in added..end {
        if turn < seen[place].turn {
            return Ok(place);
        }
        pieces.push(Piece::Seen(seen[place].text))?;
    }
    Ok(end.max(added))
}

// Adds all that is left of what was seen.
#[tactic(auto, using(crate::proofs::Pieces::seen_keeps, crate::proofs::Pieces::one_more_seen, crate::proofs::Pieces::all_seen))]
fn add_rest<'c, 'p>(
    pieces: &mut Vec<Piece<'c, 'p>>,
    seen: &[Seen<'p>],
    added: usize,
) -> Result<(), AllocError>
    ensures kept { OnOk result (kept_of pieces.new.items ≡ kept_of pieces.old.items) }
    ensures shown { OnOk result (HaveSeen pieces.old.items seen.now added
        → shown_of pieces.new.items ≡ texts seen.now) }
{
    for place in added..seen.len() {
        pieces.push(Piece::Seen(seen[place].text))?;
    }
    Ok(())
}

// Adds a line that stays, or nothing for one that was expected.
#[tactic(auto, using(crate::proofs::Pieces::kept_more, crate::proofs::Pieces::kept_shows_none))]
fn add_kept<'c, 'p>(pieces: &mut Vec<Piece<'c, 'p>>, line: Line<'c>) -> Result<(), AllocError>
    ensures kept { IfOk result (λ u. kept_of pieces.new.items
        ≡ kept_of pieces.old.items ++ staying_of (line.entry ∷ [])) }
    ensures shown { OnOk result (shown_of pieces.new.items ≡ shown_of pieces.old.items) }
{
    match line.says {
        Says::Whole(_) => Ok(()),
        _ => {
            pieces.push(Piece::Kept(line.raw))?;
            Ok(())
        }
    }
}

// Adds what is there in place of a line of the test, and gives the number of all lines that were seen
// and added.
fn add_line<'c, 'p>(
    pieces: &mut Vec<Piece<'c, 'p>>,
    line: Line<'c>,
    seen: &[Seen<'p>],
    added: usize,
    turn: usize,
) -> Result<usize, AllocError>
    ensures kept { IfOk result (λ n. kept_of pieces.new.items
        ≡ kept_of pieces.old.items ++ staying_of (line.entry ∷ [])) }
    ensures shown { IfOk result (λ n. HaveSeen pieces.old.items seen.now added
        → HaveSeen pieces.new.items seen.now n) }
{
    let count = match line.says {
        Says::Whole(_) => add_turn(pieces, seen, added, turn, 1)?,
        Says::Typed(_) => add_turn(pieces, seen, added, turn, usize::MAX)?,
        _ => added,
    };
    add_kept(pieces, line)?;
    Ok(count)
}

// Adds the lines up to the last one that says something, and then all that is left of what was seen.
#[tactic(auto, using(crate::proofs::Pieces::taken_first))]
fn add_said<'c, 'p>(
    pieces: &mut Vec<Piece<'c, 'p>>,
    lines: &[Line<'c>],
    seen: &[Seen<'p>],
) -> Result<(), AllocError>
    ensures kept { IfOk result (λ u. kept_of pieces.new.items
        ≡ kept_of pieces.old.items ++ staying_of lines.now) }
    ensures shown { OnOk result (shown_of pieces.old.items ≡ []
        → shown_of pieces.new.items ≡ texts seen.now) }
{
    let mut added: usize = 0;
    let mut turn: usize = 0;
    for line in lines {
        added = add_line(pieces, *line, seen, added, turn)?;
        if let Says::Typed(_) = line.says {
            turn = turn.saturating_add(1);
        }
    }
    add_rest(pieces, seen, added)?;
    Ok(())
}

// Adds the lines behind these.
#[tactic(auto, using(crate::proofs::Pieces::taken_first))]
fn add_behind<'c, 'p>(pieces: &mut Vec<Piece<'c, 'p>>, lines: &[Line<'c>]) -> Result<(), AllocError>
    ensures kept { IfOk result (λ u. kept_of pieces.new.items
        ≡ kept_of pieces.old.items ++ staying_of lines.now) }
    ensures shown { OnOk result (shown_of pieces.new.items ≡ shown_of pieces.old.items) }
{
    for line in lines {
        add_kept(pieces, *line)?;
    }
    Ok(())
}

/// The lines of a test in order, those that were seen in place of those that it expects. What was
/// printed before the user was asked for a line stands before that line, and all that is left
/// behind the last line that says something.
#[tactic(auto, using(crate::proofs::Pieces::taken_both))]
pub fn renewed<'c, 'p>(
    alloc: Global,
    case: &Case<'c>,
    seen: &[Seen<'p>],
) -> Result<Vec<Piece<'c, 'p>>, AllocError>
    ensures kept { IfOk result (λ pieces. kept_of pieces.items
        ≡ staying_of case.now.lines.items) }
    ensures shown { IfOk result (λ pieces. shown_of pieces.items ≡ texts seen.now) }
{
    let count = count_said(&case.lines).min(case.lines.len());
    let (said, behind) = case.lines.split_at(count);
    let mut pieces = Vec::new(alloc);
    add_said(&mut pieces, said, seen)?;
    add_behind(&mut pieces, behind)?;
    Ok(pieces)
}

// A line that was seen. Where it ends with a CR it needs another one, since that of the end of a
// line is dropped.
fn push_seen(file: &mut String, text: &str, end: &str) -> Result<(), AllocError> {
    if !file.is_empty() && !file.ends_with('\n') {
        file.push_str(end)?;
    }
    file.push('=')?;
    if !text.is_empty() {
        file.push(' ')?;
    }
    file.push_str(text)?;
    file.push_str(if text.ends_with('\r') { "\r\n" } else { end })
}

// How the first line of a test ends.
fn end_of(case: &Case<'_>) -> &'static str {
    match case.lines.first() {
        Some(line) if line.raw.ends_with("\r\n") => "\r\n",
        _ => "\n",
    }
}

// Appends the pieces to the file that is written anew. Lines that were seen end as the first line of
// the test does.
fn push_renewed(
    file: &mut String,
    case: &Case<'_>,
    pieces: &[Piece<'_, '_>],
) -> Result<(), AllocError> {
    let end = end_of(case);
    for piece in pieces {
        match piece {
            Piece::Kept(raw) => file.push_str(raw)?,
            Piece::Seen(text) => push_seen(file, text, end)?,
        }
    }
    Ok(())
}

/// Appends lines as they are to the file that is written anew.
pub fn push_as_it_is(file: &mut String, lines: &[Line<'_>]) -> Result<(), AllocError> {
    for line in lines {
        file.push_str(line.raw)?;
    }
    Ok(())
}

/// Appends a test to the file that is written anew: with what was seen, or as it is.
pub fn push_case(
    alloc: Global,
    file: &mut String,
    case: &Case<'_>,
    seen: &[Seen<'_>],
    is_renewed: bool,
) -> Result<(), AllocError> {
    if is_renewed {
        let pieces = renewed(alloc, case, seen)?;
        push_renewed(file, case, &pieces)
    } else {
        push_as_it_is(file, &case.lines)
    }
}
