//! References and texts.

ghost use Rattle.std.specs.Prelude.{◌≡◌, ◌++◌, Some, map};
ghost use Rattle.edd_syntax.specs.TreeView.{path_of};
ghost use Rattle.edd_syntax.specs.WordsView.{text_of, text_bytes};
ghost use Rattle.edd_grammar.specs.Reading.{members_at, path_behind, path_at, strings_at, key_at, is_text, text_at};
ghost use Rattle.edd_token_reader.specs.Views.{Gives};

use crate::cursor::Cursor;
use crate::fault::ParseFault;
use edd_syntax::numbers::TokenNo;
use edd_syntax::reference::Path;
use edd_syntax::symbols::Symbol;
use edd_syntax::text::{CompactString, Text};

// The members after a path's first name.
fn members(cursor: &mut Cursor) -> Result<Vec<CompactString>, ParseFault>
    ensures { Gives (λ v. map text_bytes v.items) result cursor.new
        (Some (members_at cursor.old)) }
{
    let mut members = Vec::new(cursor.alloc());
    while let Some(name) = cursor.member() {
        members.push(CompactString::new(cursor.alloc(), name)?)?;
    }
    Ok(members)
}

/// The path whose first name was read there.
#[tactic(auto, unfolding(edd_grammar::specs::Reading::path_behind))]
pub fn path_from(cursor: &mut Cursor, at: TokenNo, base: &str) -> Result<Path, ParseFault>
    ensures { Gives path_of result cursor.new (Some (path_behind base.now cursor.old)) }
{
    let members = members(cursor)?;
    let base = CompactString::new(cursor.alloc(), base)?;
    Ok(Path { at, base, members })
}

/// A reference.
#[tactic(auto, unfolding(edd_grammar::specs::Reading::path_at))]
pub fn path(cursor: &mut Cursor) -> Result<Path, ParseFault>
    ensures { Gives path_of result cursor.new (path_at cursor.old) }
{
    let at = cursor.place();
    let Some(base) = cursor.name() else {
        return Err(cursor.syntax());
    };
    path_from(cursor, at, base)
}

// A string that was read, joined with those that follow it.
fn strings(cursor: &mut Cursor, first: &str) -> Result<CompactString, ParseFault>
    ensures { Gives text_bytes result cursor.new
        (Some (first.now ++ (strings_at cursor.old).0, (strings_at cursor.old).1)) }
{
    let Some(second) = cursor.string() else {
        return Ok(CompactString::new(cursor.alloc(), first)?);
    };
    let mut raw = String::from_str(cursor.alloc(), first)?;
    raw.push_str(second)?;
    while let Some(text) = cursor.string() {
        raw.push_str(text)?;
    }
    Ok(CompactString::Long(raw))
}

#[tactic(auto, unfolding(edd_grammar::specs::Reading::key_at))]
fn key(cursor: &mut Cursor) -> Result<Text, ParseFault>
    ensures { Gives text_of result cursor.new (key_at cursor.old) }
{
    let Some(name) = cursor.name() else {
        return Err(cursor.syntax());
    };
    cursor.expect(Symbol::CloseBracket)?;
    Ok(Text::Key(CompactString::new(cursor.alloc(), name)?))
}

/// Whether a text is next.
pub fn at_text(cursor: &Cursor) -> bool
    ensures { result ≡ is_text cursor.now }
{
    cursor.at_string() || cursor.at(Symbol::OpenBracket)
}

/// A text, where one is next.
#[tactic(auto, unfolding(edd_grammar::specs::Reading::text_at))]
pub fn text(cursor: &mut Cursor) -> Result<Text, ParseFault>
    ensures { Gives text_of result cursor.new (text_at cursor.old) }
{
    if let Some(first) = cursor.string() {
        return Ok(Text::Quoted(strings(cursor, first)?));
    }
    cursor.bump();
    key(cursor)
}
