//! Why a file of tests is not read.

use thiserror::Error;

/// Why a file of tests is not read. Each fault prints its number and its name.
#[derive(Clone, Copy, Debug, Drop, PartialEq, Eq, Error)]
pub enum TestFault {
    /// The bytes of the line are no text.
    #[error("290 NO_TEXT")]
    NoText,
    /// The line begins with no word of a file of tests.
    #[error("291 UNKNOWN_LINE")]
    UnknownLine,
    /// What follows the first word is not what it takes.
    #[error("292 BAD_WORDS")]
    BadWords,
    /// A line of a test stands before the first test.
    #[error("293 BEFORE_TEST")]
    BeforeTest,
    /// A test says a second time what it says once.
    #[error("294 TWICE")]
    Twice,
    /// A test has lines that are all that is printed, and others that are among it.
    #[error("295 BOTH_FORMS")]
    BothForms,
    /// The line says nothing in a test of this kind.
    #[error("296 MISPLACED")]
    Misplaced,
    /// A test runs no method, and shows and opens nothing.
    #[error("297 NOTHING_TO_RUN")]
    NothingToRun,
    /// No source or image is named for a test.
    #[error("298 NO_SOURCE")]
    NoSource,
    /// The file has no test.
    #[error("299 NO_TESTS")]
    NoTests,
    #[error("no memory")]
    Memory,
}

/// A fault with the line that has it, counted from 1.
#[derive(Clone, Copy, Debug, Drop, PartialEq, Eq)]
pub struct Misread {
    pub line: usize,
    pub fault: TestFault,
}

impl Misread {
    /// The fault of a line, which comes so many behind another one.
    pub fn behind(line: usize, index: usize, fault: TestFault) -> Misread {
        Misread {
            line: line.saturating_add(index),
            fault,
        }
    }

    /// Out of memory, at whatever line.
    pub fn memory() -> Misread {
        Misread {
            line: 0,
            fault: TestFault::Memory,
        }
    }
}
