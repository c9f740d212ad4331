//! What the lines of a test say of how it is run.

use crate::fault::{Misread, TestFault};
use crate::lines::{Line, Says};

/// What is tested, by the name of its file.
#[derive(Clone, Copy)]
pub enum Description<'a> {
    Source(&'a str),
    Image(&'a str),
}

impl<'a> Description<'a> {
    /// The name of its file.
    pub fn name(self) -> &'a str {
        match self {
            Description::Source(name) => name,
            Description::Image(name) => name,
        }
    }
}

/// What a test runs.
#[derive(Clone, Copy)]
pub enum Kind<'a> {
    Method(&'a str),
    Show,
    Open,
}

/// What the expected lines are.
#[derive(Clone, Copy, PartialEq, Eq)]
pub enum Form {
    /// All lines that are printed.
    Whole,
    /// Some of them, in this order, and lines that are none of them.
    Parts,
}

/// What holds for a test and for those that follow it, until another one is named.
#[derive(Clone, Copy)]
pub struct Held<'a> {
    pub description: Option<Description<'a>>,
    pub device: Option<&'a str>,
    pub language: &'a str,
}

/// What some lines say, each thing at most once.
#[derive(Clone, Copy)]
pub struct Settings<'a> {
    description: Option<Description<'a>>,
    device: Option<Option<&'a str>>,
    language: Option<&'a str>,
    pub kind: Option<Kind<'a>>,
    pub steps: Option<u64>,
    pub form: Option<Form>,
}

// Keeps what is said the first time.
fn once<T: Copy>(place: &mut Option<T>, said: T) -> Result<(), TestFault> {
    if place.is_some() {
        return Err(TestFault::Twice);
    }
    *place = Some(said);
    Ok(())
}

impl<'a> Settings<'a> {
    fn nothing() -> Settings<'a> {
        Settings {
            description: None,
            device: None,
            language: None,
            kind: None,
            steps: None,
            form: None,
        }
    }

    // All expected lines of a test have one form.
    fn expect(&mut self, form: Form) -> Result<(), TestFault> {
        if self.form.unwrap_or(form) != form {
            return Err(TestFault::BothForms);
        }
        self.form = Some(form);
        Ok(())
    }

    fn take(&mut self, says: Says<'a>) -> Result<(), TestFault> {
        match says {
            Says::Source(name) => once(&mut self.description, Description::Source(name)),
            Says::Image(name) => once(&mut self.description, Description::Image(name)),
            Says::Device(name) => once(&mut self.device, name),
            Says::Language(code) => once(&mut self.language, code),
            Says::Method(name) => once(&mut self.kind, Kind::Method(name)),
            Says::Show => once(&mut self.kind, Kind::Show),
            Says::Open => once(&mut self.kind, Kind::Open),
            Says::Steps(count) => once(&mut self.steps, count),
            Says::Whole(_) => self.expect(Form::Whole),
            Says::Part(_) | Says::Absent(_) => self.expect(Form::Parts),
            Says::Nothing | Says::Test(_) | Says::Script(_) | Says::Typed(_) => Ok(()),
        }
    }

    /// What these lines say, of which the first has this number.
    pub fn of(lines: &[Line<'a>], number: usize) -> Result<Settings<'a>, Misread> {
        let mut settings = Settings::nothing();
        for (index, line) in lines.iter().enumerate() {
            let taken = settings.take(line.says);
            taken.map_err(|fault| Misread::behind(number, index, fault))?;
        }
        Ok(settings)
    }
}

impl<'a> Held<'a> {
    /// What holds before anything is named.
    pub fn nothing() -> Held<'a> {
        Held {
            description: None,
            device: None,
            language: "en",
        }
    }

    /// What holds once these were named.
    pub fn with(self, named: &Settings<'a>) -> Held<'a> {
        Held {
            description: named.description.or(self.description),
            device: named.device.unwrap_or(self.device),
            language: named.language.unwrap_or(self.language),
        }
    }
}

/// Whether a line may stand before the first test.
pub fn is_for_all(says: Says<'_>) -> bool {
    matches!(
        says,
        Says::Nothing | Says::Source(_) | Says::Image(_) | Says::Device(_) | Says::Language(_)
    )
}

/// Whether a line says something in a test of this kind.
pub fn is_for(kind: Kind<'_>, says: Says<'_>) -> bool {
    match (kind, says) {
        (Kind::Method(_) | Kind::Show, Says::Typed(_)) => false,
        (Kind::Show | Kind::Open, Says::Steps(_)) => false,
        _ => true,
    }
}
