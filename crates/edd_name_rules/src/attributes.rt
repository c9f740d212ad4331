//! Missing attributes.

ghost use Rattle.std.specs.Prelude.{◌≡◌, [], ◌∷◌, OnOk, map};
ghost use Rattle.edd_breaches.specs.Told.{Tells};
ghost use Rattle.edd_syntax.specs.declared.numbers.Kind.TheVariants.{Command};
ghost use Rattle.edd_syntax.specs.ItemView.{attribute_of};
ghost use Rattle.edd_syntax.specs.NameRules.{attribute_word, required_words};
ghost use Rattle.edd_syntax.specs.Refusal.{is_name_in};
ghost use Rattle.edd_syntax.specs.TreeView.{path_of};
ghost use Rattle.edd_name_rules.specs.RulesTold.{missing_among, missing_in, missing_told};

use edd_breaches::{Breach, Rule, tell};
use edd_syntax::item::{Attribute, Item};
use edd_syntax::numbers::{Attr, Kind};
use edd_syntax::reference::Path;
use edd_syntax::symbols::Keyword;
use std::alloc::AllocError;

/// The word of an attribute.
pub fn word_of(attribute: &Attribute<Path>) -> &'static str
    ensures { result.now ≡ attribute_word (attribute_of path_of attribute.now) }
{
    match attribute {
        Attribute::OneText(_, which, _) => which.attr().word(),
        Attribute::Class(_, _) => Attr::Class.word(),
        Attribute::Handling(_, _) => Attr::Handling.word(),
        Attribute::Validity(_, _) => Attr::Validity.word(),
        Attribute::TypeOf { .. } => Keyword::Type.spelling(),
        Attribute::Number(_, _) => Attr::Number.word(),
        Attribute::Operation(_, _) => Attr::Operation.word(),
        Attribute::Transaction { .. } => Attr::Transaction.word(),
        Attribute::ResponseCodes(_, _) => Attr::ResponseCodes.word(),
        Attribute::Items(_, _) => Attr::Items.word(),
        Attribute::Members(_, _) => Attr::Members.word(),
        Attribute::Definition(_, _) => Attr::Definition.word(),
        Attribute::Elements(_, _) => Attr::Elements.word(),
    }
}

/// Whether an attribute of this word is there.
pub fn has_word(attributes: &[Attribute<Path>], word: &str) -> bool
    ensures { result ≡ is_name_in (map attribute_word (map (attribute_of path_of) attributes.now))
        word.now }
{
    for attribute in attributes {
        if word_of(attribute) == word {
            return true;
        }
    }
    false
}

// The word is told unless an attribute of it is there.
#[tactic(auto, using(crate::proofs::Telling::one_word))]
fn tell_word<'a>(
    item: &'a Item<Path>,
    word: &'static str,
    told: &mut Vec<Breach<'a>>,
) -> Result<(), AllocError>
    ensures told { OnOk result
        (Tells (missing_among item.now (word.now ∷ [])) told.old.items told.new.items) }
{
    if has_word(item.attributes(), word) {
        return Ok(());
    }
    let rule = Rule::MissingAttribute {
        item: item.name(),
        word,
    };
    tell(rule, item.at(), told)
}

#[tactic(auto, using(crate::proofs::Telling::more_words))]
fn tell_of_command<'a>(item: &'a Item<Path>, told: &mut Vec<Breach<'a>>) -> Result<(), AllocError>
    ensures told { OnOk result
        (Tells (missing_among item.now (required_words Command)) told.old.items told.new.items) }
{
    tell_word(item, Attr::Number.word(), told)?;
    tell_word(item, Attr::Operation.word(), told)?;
    tell_word(item, Attr::Transaction.word(), told)?;
    Ok(())
}

fn tell_of_item<'a>(item: &'a Item<Path>, told: &mut Vec<Breach<'a>>) -> Result<(), AllocError>
    ensures told { OnOk result (Tells (missing_in item.now) told.old.items told.new.items) }
{
    match item.kind() {
        Kind::Variable => tell_word(item, Keyword::Type.spelling(), told),
        Kind::Command => tell_of_command(item, told),
        Kind::Menu => tell_word(item, Attr::Items.word(), told),
        Kind::Collection => tell_word(item, Attr::Members.word(), told),
        Kind::Method => tell_word(item, Attr::Definition.word(), told),
        Kind::Array => tell_word(item, Attr::Elements.word(), told),
    }
}

/// The attributes that items lack.
#[tactic(auto, using(edd_breaches::proofs::TellLaws::tells))]
pub fn tell_missing<'a>(
    items: &'a [Item<Path>],
    told: &mut Vec<Breach<'a>>,
) -> Result<(), AllocError>
    ensures told { OnOk result (Tells (missing_told items.now) told.old.items told.new.items) }
{
    for item in items {
        tell_of_item(item, told)?;
    }
    Ok(())
}
