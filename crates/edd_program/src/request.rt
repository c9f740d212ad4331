//! What a user asks of the program.

/// The run of a method that is asked for: at most `steps` instructions, 0 to 1,000,000,000.
#[derive(Clone, Copy)]
pub struct Run<'a> {
    pub method: &'a str,
    pub script: &'a str,
    pub language: &'a str,
    pub steps: u64,
}

/// A source or an image that is to be shown.
#[derive(Clone, Copy)]
pub struct Showing<'a> {
    pub file: &'a str,
    pub script: Option<&'a str>,
    pub language: &'a str,
}

/// What a user asks of the program, by one of its five commands.
#[derive(Clone, Copy)]
pub enum Request<'a> {
    /// `compile SOURCE IMAGE`
    Compile { source: &'a str, image: &'a str },
    /// `view SOURCE [SCRIPT]`
    View(Showing<'a>),
    /// `show IMAGE [SCRIPT]`
    Show(Showing<'a>),
    /// `play IMAGE METHOD SCRIPT`
    Play { image: &'a str, run: Run<'a> },
    /// `try SOURCE METHOD SCRIPT`
    Try { source: &'a str, run: Run<'a> },
}
