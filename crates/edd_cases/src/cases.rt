//! The tests of a file.

use crate::fault::{Misread, TestFault};
use crate::lines::{Line, Says, lines_of};
use crate::settings::{Description, Form, Held, Kind, Settings, is_for, is_for_all};
use std::alloc::{AllocError, Global};
use std::fmt::Write;

/// The most instructions of a method where the test says nothing.
const STEPS: u64 = 1_000_000;

/// A test, with its lines from that of its name up to the next test.
#[derive(Drop)]
pub struct Case<'a> {
    pub name: &'a str,
    /// The number of its first line, counted from 1.
    pub number: usize,
    pub description: Description<'a>,
    pub device: Option<&'a str>,
    pub language: &'a str,
    pub kind: Kind<'a>,
    pub steps: u64,
    pub form: Form,
    pub lines: Vec<Line<'a>>,
}

/// The tests of a file, and its lines before the first of them.
#[derive(Drop)]
pub struct Tests<'a> {
    pub head: Vec<Line<'a>>,
    pub cases: Vec<Case<'a>>,
}

// The lines of a test.
#[derive(Drop)]
struct Block<'a> {
    name: &'a str,
    number: usize,
    lines: Vec<Line<'a>>,
}

#[derive(Drop)]
struct Parts<'a> {
    head: Vec<Line<'a>>,
    blocks: Vec<Block<'a>>,
}

impl<'a> Parts<'a> {
    fn add(&mut self, alloc: Global, number: usize, line: Line<'a>) -> Result<(), AllocError> {
        if let Says::Test(name) = line.says {
            self.blocks.push(Block {
                name,
                number,
                lines: Vec::new(alloc),
            })?;
        }
        match self.blocks.last_mut() {
            Some(block) => block.lines.push(line)?,
            None => self.head.push(line)?,
        }
        Ok(())
    }
}

fn parted<'a>(alloc: Global, lines: &[Line<'a>]) -> Result<Parts<'a>, AllocError> {
    let mut parts = Parts {
        head: Vec::new(alloc),
        blocks: Vec::new(alloc),
    };
    for (before, line) in lines.iter().enumerate() {
        parts.add(alloc, before.saturating_add(1), *line)?;
    }
    Ok(parts)
}

// What holds after the lines before the first test.
fn held_at_first<'a>(head: &[Line<'a>]) -> Result<Held<'a>, Misread> {
    if let Some(index) = head.iter().position(|line| !is_for_all(line.says)) {
        return Err(Misread::behind(1, index, TestFault::BeforeTest));
    }
    let settings = Settings::of(head, 1)?;
    Ok(Held::nothing().with(&settings))
}

// The first line that says nothing in a test of this kind.
fn find_misplaced(kind: Kind<'_>, lines: &[Line<'_>], number: usize) -> Result<(), Misread> {
    match lines.iter().position(|line| !is_for(kind, line.says)) {
        Some(index) => Err(Misread::behind(number, index, TestFault::Misplaced)),
        None => Ok(()),
    }
}

// The test that these lines are, and what holds for it.
fn case_of<'a>(block: Block<'a>, held: Held<'a>) -> Result<(Case<'a>, Held<'a>), Misread> {
    let Block {
        name,
        number,
        lines,
    } = block;
    let settings = Settings::of(&lines, number)?;
    let held = held.with(&settings);
    let Some(kind) = settings.kind else {
        return Err(Misread::behind(number, 0, TestFault::NothingToRun));
    };
    let Some(description) = held.description else {
        return Err(Misread::behind(number, 0, TestFault::NoSource));
    };
    find_misplaced(kind, &lines, number)?;
    let case = Case {
        name,
        number,
        description,
        device: held.device,
        language: held.language,
        kind,
        steps: settings.steps.unwrap_or(STEPS),
        form: settings.form.unwrap_or(Form::Whole),
        lines,
    };
    Ok((case, held))
}

// The tests, in the order of the file.
fn cases_of<'a>(alloc: Global, parts: Parts<'a>) -> Result<Tests<'a>, Misread> {
    let Parts { head, blocks } = parts;
    let mut held = held_at_first(&head)?;
    let mut cases = Vec::new(alloc);
    for block in blocks {
        let (case, next) = case_of(block, held)?;
        held = next;
        if cases.push(case).is_err() {
            return Err(Misread::memory());
        }
    }
    Ok(Tests { head, cases })
}

/// Reads a file of tests. Each line is read by itself first, and then the lines before the first
/// test and those of each test; the first fault that is found so is the answer.
pub fn read_tests<'a>(alloc: Global, bytes: &'a [u8]) -> Result<Tests<'a>, Misread> {
    let lines = lines_of(alloc, bytes)?;
    let Ok(parts) = parted(alloc, &lines) else {
        return Err(Misread::memory());
    };
    let tests = cases_of(alloc, parts)?;
    if tests.cases.is_empty() {
        return Err(Misread::behind(lines.len().max(1), 0, TestFault::NoTests));
    }
    Ok(tests)
}

impl Case<'_> {
    // The lines of the script, or else those that the user types, one after the other.
    fn given(&self, alloc: Global, is_typed: bool) -> Result<String, AllocError> {
        let mut given = String::new(alloc);
        for line in &self.lines {
            match line.says {
                Says::Script(text) if !is_typed => write!(given, "{text}\n")?,
                Says::Typed(text) if is_typed => write!(given, "{text}\n")?,
                _ => {}
            }
        }
        Ok(given)
    }

    /// The lines of the script, one after the other.
    pub fn script(&self, alloc: Global) -> Result<String, AllocError> {
        self.given(alloc, false)
    }

    /// The lines that the user types.
    pub fn typed(&self, alloc: Global) -> Result<String, AllocError> {
        self.given(alloc, true)
    }
}
