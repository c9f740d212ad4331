//! Qualifiers of data items and of entries of menus.

ghost use Rattle.std.specs.Prelude.{◌≡◌, ◌∷◌, ◌++◌, ◌+◌, [], List, length};
ghost use Rattle.edd_syntax.specs.Refusal.{is_name_in};
ghost use Rattle.edd_syntax.specs.ItemGrammar as grammar;
ghost use Rattle.edd_syntax.specs.Text.{Name};
ghost use Rattle.edd_grammar.specs.ValueReading as reading;
ghost use Rattle.edd_token_reader.specs.Views.{Gives};
ghost use Rattle.edd_token_reader.specs.Qualifiers.{menu_at, data_at, read_as};

use crate::cursor::Cursor;
use crate::fault::ParseFault;
use crate::left_out::{misfit, misfit_name};
use crate::words::skip_comma;
use edd_syntax::item::{DataQualifiers, MenuQualifiers};
use edd_syntax::symbols::Symbol;

// Qualifiers of one sort of thing, of which one name after the other is read.
trait QualifierSet {
    ghost allowed: { List Name };

    // Which of them are among the names.
    ghost among: { List Name → Self };

    fn is_allowed(name: &str) -> bool
        ensures { result ≡ is_name_in allowed name.now };

    fn none() -> Self
        ensures { result ≡ among [] };

    // These, and the one of this name.
    fn with(self, name: &str) -> Self
        ensures { (names : List Name) → self ≡ among names
            → result ≡ among (names ++ name.now ∷ []) };
}

impl QualifierSet for MenuQualifiers {
    ghost allowed = { grammar.menu_qualifier_names };

    ghost among = { grammar.menu_qualifiers };

    fn is_allowed(name: &str) -> bool {
        "DISPLAY_VALUE" == name || "READ_ONLY" == name || "HIDDEN" == name || "REVIEW" == name
    }

    fn none() -> MenuQualifiers {
        MenuQualifiers {
            display_value: false,
            read_only: false,
            hidden: false,
            review: false,
        }
    }

    #[tactic(auto, using(crate::proofs::QualifierLoops::one_more_name))]
    fn with(self, name: &str) -> MenuQualifiers {
        MenuQualifiers {
            display_value: self.display_value || name == "DISPLAY_VALUE",
            read_only: self.read_only || name == "READ_ONLY",
            hidden: self.hidden || name == "HIDDEN",
            review: self.review || name == "REVIEW",
        }
    }
}

impl QualifierSet for DataQualifiers {
    ghost allowed = { grammar.data_qualifier_names };

    ghost among = { grammar.data_qualifiers };

    fn is_allowed(name: &str) -> bool {
        "INFO" == name || "INDEX" == name
    }

    fn none() -> DataQualifiers {
        DataQualifiers {
            info: false,
            index: false,
        }
    }

    #[tactic(auto, using(crate::proofs::QualifierLoops::one_more_name))]
    fn with(self, name: &str) -> DataQualifiers {
        DataQualifiers {
            info: self.info || name == "INFO",
            index: self.index || name == "INDEX",
        }
    }
}

// A name that is allowed.
#[tactic(auto, unfolding(edd_grammar::specs::ValueReading::allowed_at))]
fn allowed<'a, Q: QualifierSet>(cursor: &mut Cursor<'a>) -> Result<&'a str, ParseFault>
    ensures { Gives (λ n. n.now) result cursor.new (reading.allowed_at Q.allowed cursor.old) }
{
    let Some(name) = cursor.name() else {
        return Err(misfit(cursor));
    };
    if !Q::is_allowed(name) {
        return Err(misfit_name(cursor, name));
    }
    Ok(name)
}

// One or more names, and the parenthesis after them.
#[tactic(auto, using(crate::proofs::QualifierLoops::names_read))]
fn some_qualifiers<Q: QualifierSet + Copy>(cursor: &mut Cursor) -> Result<Q, ParseFault>
    ensures { Gives (λ q. q) result cursor.new
        (read_as Q.among
        (reading.some_qualifiers Q.allowed (length cursor.old + 1) cursor.old)) }
{
    let mut all = Q::none();
    loop {
        let name = allowed::<Q>(cursor)?;
        all = all.with(name);
        if cursor.eat(Symbol::CloseParenthesis) {
            return Ok(all);
        }
        skip_comma(cursor);
    }
}

// Qualifiers in parentheses, or none.
#[tactic(auto, unfolding(edd_grammar::specs::ValueReading::qualifiers_at), using(crate::proofs::QualifierLoops::names_opened))]
fn qualifiers<Q: QualifierSet + Copy>(cursor: &mut Cursor) -> Result<Q, ParseFault>
    ensures { Gives (λ q. q) result cursor.new
        (read_as Q.among (reading.qualifiers_at Q.allowed cursor.old)) }
{
    if !cursor.eat(Symbol::OpenParenthesis) {
        return Ok(Q::none());
    }
    some_qualifiers(cursor)
}

/// The qualifiers of an entry of a menu.
#[tactic(auto, unfolding(crate::specs::Qualifiers::menu_at))]
pub fn menu_qualifiers(cursor: &mut Cursor) -> Result<MenuQualifiers, ParseFault>
    ensures { Gives (λ q. q) result cursor.new (menu_at cursor.old) }
{
    qualifiers(cursor)
}

/// The qualifiers of a data item.
#[tactic(auto, unfolding(crate::specs::Qualifiers::data_at))]
pub fn data_qualifiers(cursor: &mut Cursor) -> Result<DataQualifiers, ParseFault>
    ensures { Gives (λ q. q) result cursor.new (data_at cursor.old) }
{
    qualifiers(cursor)
}
