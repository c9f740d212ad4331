//! The lines of a file of tests.

ghost use Rattle.std.specs.Prelude.{◌≡◌};
ghost use Rattle.edd_cases.specs.Ends.{without_end};

use crate::fault::{Misread, TestFault};
use std::alloc::Global;

/// The most instructions of a method, as the command line takes them.
const MOST_STEPS: u64 = 1_000_000_000;

/// What a line says.
#[derive(Clone, Copy)]
pub enum Says<'a> {
    /// A comment, or a line without a word.
    Nothing,
    /// `test NAME`
    Test(&'a str),
    /// `source FILE`
    Source(&'a str),
    /// `image FILE`
    Image(&'a str),
    /// `device FILE`, or `device` for none.
    Device(Option<&'a str>),
    /// `language CODE`
    Language(&'a str),
    /// `method NAME`
    Method(&'a str),
    /// `show`
    Show,
    /// `open`
    Open,
    /// `steps N`
    Steps(u64),
    /// A line of the script, whole.
    Script(&'a str),
    /// `> TEXT`, which the user types.
    Typed(&'a str),
    /// `= TEXT`, which is the next line that is printed.
    Whole(&'a str),
    /// `~ TEXT`, which is a later line that is printed.
    Part(&'a str),
    /// `! TEXT`, which is no line that is printed.
    Absent(&'a str),
}

/// A line with its end, and what it says.
#[derive(Clone, Copy)]
pub struct Line<'a> {
    pub raw: &'a str,
    pub says: Says<'a>,
}

/// The text of a line without its end. A CR belongs to the end only before an LF.
pub fn without_end(line: &str) -> &str
    ensures { result.now ≡ without_end line.now }
{
    match line.strip_suffix('\n') {
        None => line,
        Some(text) => text.strip_suffix('\r').unwrap_or(text),
    }
}

// What is there besides blanks, if that is anything.
fn optional(rest: &str) -> Option<&str> {
    let name = rest.trim_matches(' ');
    (!name.is_empty()).then_some(name)
}

// A name or a code, without the blanks around it.
fn named(rest: &str) -> Result<&str, TestFault> {
    optional(rest).ok_or(TestFault::BadWords)
}

// A word that takes nothing.
fn alone<'a>(rest: &str, says: Says<'a>) -> Result<Says<'a>, TestFault> {
    match optional(rest) {
        None => Ok(says),
        Some(_) => Err(TestFault::BadWords),
    }
}

// Digits alone.
fn steps(rest: &str) -> Result<u64, TestFault> {
    let digits = rest.trim_matches(' ');
    if digits.starts_with('+') {
        return Err(TestFault::BadWords);
    }
    match digits.parse::<u64>() {
        Ok(count) if count <= MOST_STEPS => Ok(count),
        _ => Err(TestFault::BadWords),
    }
}

// What a line is for by its first word, where that says how the test is run.
fn setting<'a>(word: &str, rest: &'a str) -> Result<Says<'a>, TestFault> {
    match word {
        "test" => Ok(Says::Test(named(rest)?)),
        "source" => Ok(Says::Source(named(rest)?)),
        "image" => Ok(Says::Image(named(rest)?)),
        "device" => Ok(Says::Device(optional(rest))),
        "language" => Ok(Says::Language(named(rest)?)),
        "method" => Ok(Says::Method(named(rest)?)),
        "show" => alone(rest, Says::Show),
        "open" => alone(rest, Says::Open),
        "steps" => Ok(Says::Steps(steps(rest)?)),
        _ => Err(TestFault::UnknownLine),
    }
}

// What the text of a line says. Blanks before its first word are passed over.
fn says_of(text: &str) -> Result<Says<'_>, TestFault> {
    let line = text.trim_start_matches(' ');
    if line.is_empty() || line.starts_with('#') {
        return Ok(Says::Nothing);
    }
    let (word, rest) = line.split_once(' ').unwrap_or((line, ""));
    match word {
        "=" => Ok(Says::Whole(rest)),
        "~" => Ok(Says::Part(rest)),
        "!" => Ok(Says::Absent(rest)),
        ">" => Ok(Says::Typed(rest)),
        "set" | "answer" | "abort" => Ok(Says::Script(line)),
        _ => setting(word, rest),
    }
}

fn line_of(bytes: &[u8]) -> Result<Line<'_>, TestFault> {
    let Ok(raw) = str::from_utf8(bytes) else {
        return Err(TestFault::NoText);
    };
    let says = says_of(without_end(raw))?;
    Ok(Line { raw, says })
}

/// Reads each line by itself. The first one that can't be read is the fault.
pub fn lines_of<'a>(alloc: Global, bytes: &'a [u8]) -> Result<Vec<Line<'a>>, Misread> {
    let mut lines = Vec::new(alloc);
    for (before, raw) in bytes.split_inclusive(|byte| *byte == b'\n').enumerate() {
        let line = before.saturating_add(1);
        let read = line_of(raw).map_err(|fault| Misread { line, fault })?;
        if lines.push(read).is_err() {
            return Err(Misread::memory());
        }
    }
    Ok(lines)
}
