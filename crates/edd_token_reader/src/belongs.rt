//! Which kinds of items may have which attributes.

ghost use Rattle.std.specs.Prelude.{◌≡◌};
ghost use Rattle.edd_grammar.specs.AttributeReading as reading;

use edd_syntax::numbers::{Attr, Kind, TextAttribute};
use edd_syntax::symbols::Keyword;

/// Whether an item of this kind may have the attribute with this word.
pub fn word_belongs(kind: Kind, word: Keyword) -> bool
    ensures { result ≡ reading.word_belongs kind word }
{
    if let Some(which) = TextAttribute::from_word(word) {
        return which.attr().may_belong_to(kind);
    }
    match word {
        Keyword::Class => Attr::Class.may_belong_to(kind),
        Keyword::Handling => Attr::Handling.may_belong_to(kind),
        Keyword::Validity => Attr::Validity.may_belong_to(kind),
        Keyword::Type => kind == Kind::Variable,
        Keyword::Number => Attr::Number.may_belong_to(kind),
        Keyword::Operation => Attr::Operation.may_belong_to(kind),
        Keyword::Transaction => Attr::Transaction.may_belong_to(kind),
        Keyword::ResponseCodes => Attr::ResponseCodes.may_belong_to(kind),
        Keyword::Items => Attr::Items.may_belong_to(kind),
        Keyword::Members => Attr::Members.may_belong_to(kind),
        Keyword::Definition => Attr::Definition.may_belong_to(kind),
        Keyword::Elements => Attr::Elements.may_belong_to(kind),
        _ => false,
    }
}
