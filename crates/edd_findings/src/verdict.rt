//! The verdict on a text.

ghost use Rattle.std.specs.Prelude.{◌≡◌, string_bytes};

use crate::found::Found;
use edd_compiler::Fault;
use edd_lexer::token::Token;
use edd_syntax::checked::Checked;

/// The verdict on a text. What is in it comes from `judge` alone.
#[derive(Drop)]
pub enum Verdict {
    Accepted(Accepted),
    Refused(Refused),
}

/// A text that is accepted: its image, its tokens, and the description that it stands for.
#[derive(Drop)]
pub struct Accepted {
    pub(crate) image: Vec<u8>,
    pub(crate) tokens: Vec<Token>,
    pub(crate) checked: Checked,
}

/// A text that is refused: its fault, its refusal, and the rules that it breaks.
#[derive(Drop)]
pub struct Refused {
    pub(crate) fault: Fault,
    pub(crate) refusal: String,
    pub(crate) breaches: Vec<Found>,
}

impl Accepted {
    /// The bytes of its image.
    pub fn image(&self) -> &[u8]
        ensures { result.now ≡ self.now.image.items }
    {
        &self.image
    }

    /// The bytes of its image, handed over.
    pub fn into_image(self) -> Vec<u8>
        ensures { result ≡ self.image }
    {
        let Accepted { image, .. } = self;
        image
    }

    /// The tokens of the text.
    pub fn tokens(&self) -> &[Token]
        ensures { result.now ≡ self.now.tokens.items }
    {
        &self.tokens
    }

    /// The description that the text stands for.
    pub fn description(&self) -> &Checked
        ensures { result.now ≡ self.now.checked }
    {
        &self.checked
    }
}

impl Refused {
    /// The fault, which is never that memory was refused.
    pub fn fault(&self) -> &Fault
        ensures { result.now ≡ self.now.fault }
    {
        &self.fault
    }

    /// The refusal as the compiler prints it: its number, its kind, and the names or the line at fault,
    /// which counts from 1.
    pub fn refusal(&self) -> &str
        ensures { result.now ≡ string_bytes self.now.refusal }
    {
        self.refusal.as_str()
    }

    /// The rules that the text breaks, those on names first, without what only follows from another
    /// one; none where it spells no description.
    pub fn breaches(&self) -> &[Found]
        ensures { result.now ≡ self.now.breaches.items }
    {
        &self.breaches
    }

    /// The fault, the refusal and the rules that the text breaks, handed over.
    pub fn into_parts(self) -> (Fault, String, Vec<Found>)
        ensures fault { result.0 ≡ self.fault }
        ensures refusal { result.1 ≡ self.refusal }
        ensures breaches { result.2 ≡ self.breaches }
    {
        let Refused {
            fault,
            refusal,
            breaches,
        } = self;
        (fault, refusal, breaches)
    }
}
