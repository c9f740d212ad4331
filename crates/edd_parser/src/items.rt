//! Items, and the numbers at the beginning.

ghost use Rattle.std.specs.Prelude.{◌≤◌, map};
ghost use Rattle.edd_syntax.specs.ItemView.{identification_of, item_kind_of};
ghost use Rattle.edd_grammar.specs.WordReading.{closed, row_inside};
ghost use Rattle.edd_grammar.specs.AttributeReading.{own_attribute_at};
ghost use Rattle.edd_syntax.specs.declared.symbols.Keyword.TheVariants as word;
ghost use Rattle.edd_grammar.specs.Reading.{expect_word};
ghost use Rattle.edd_grammar.specs.UnitReading as reading;
ghost use Rattle.edd_token_reader.specs.Views.{Gives, Leaves, Takes};
ghost use Rattle.edd_parser.specs.Items.{attribute_view};
ghost use Rattle.edd_parser.specs.Units.{sort_at, item_view};

use crate::attributes::own_attribute;
use edd_syntax::item::{Attribute, Identification, Item, ItemKind};
use edd_syntax::numbers::Kind;
use edd_syntax::reference::Path;
use edd_syntax::symbols::{Keyword, Symbol};
use edd_syntax::text::CompactString;
use edd_token_reader::cursor::Cursor;
use edd_token_reader::fault::ParseFault;
use edd_token_reader::left_out::{misfit_array, misfit_item};
use edd_token_reader::words::{integer, skip_comma, skip_semicolons};

// The kind whose word is next, of those that members may have.
#[tactic(auto, unfolding(edd_grammar::specs::UnitReading::kind_at))]
fn kind_word(cursor: &mut Cursor) -> Option<Kind>
    ensures { Takes (λ k. k) result cursor.old cursor.new (reading.kind_at cursor.old) }
{
    if cursor.eat_word(Keyword::Variable) {
        return Some(Kind::Variable);
    }
    if cursor.eat_word(Keyword::Command) {
        return Some(Kind::Command);
    }
    if cursor.eat_word(Keyword::Menu) {
        return Some(Kind::Menu);
    }
    if cursor.eat_word(Keyword::Collection) {
        return Some(Kind::Collection);
    }
    if cursor.eat_word(Keyword::Method) {
        return Some(Kind::Method);
    }
    None
}

// The kind of an item, at its beginning.
#[tactic(auto, unfolding(edd_grammar::specs::UnitReading::item_kind_at))]
fn item_kind(cursor: &mut Cursor) -> Result<Kind, ParseFault>
    ensures { Gives (λ k. k) result cursor.new (reading.item_kind_at cursor.old) }
{
    if cursor.eat_word(Keyword::Array) {
        return Ok(Kind::Array);
    }
    match kind_word(cursor) {
        Some(kind_read) => Ok(kind_read),
        None => Err(misfit_item(cursor)),
    }
}

// The kind of a collection's members, after OF.
fn member_kind(cursor: &mut Cursor) -> Result<Kind, ParseFault>
    ensures { Gives (λ k. k) result cursor.new (reading.kind_at cursor.old) }
{
    match kind_word(cursor) {
        Some(kind_read) => Ok(kind_read),
        None => Err(cursor.syntax()),
    }
}

// VARIABLE after ARRAY OF: there are arrays of no other kind.
#[tactic(auto, unfolding(edd_grammar::specs::Reading::expect_word))]
fn expect_variable(cursor: &mut Cursor) -> Result<(), ParseFault>
    ensures { Leaves result cursor.new (expect_word word.Variable cursor.old) }
{
    if !cursor.eat_word(Keyword::Variable) {
        return Err(misfit_array(cursor));
    }
    Ok(())
}

// After COLLECTION: OF and the kind of its members; after ARRAY: OF VARIABLE.
#[tactic(auto, unfolding(edd_grammar::specs::UnitReading::sort_behind))]
fn after_kind(cursor: &mut Cursor, kind_read: Kind) -> Result<ItemKind, ParseFault>
    ensures { Gives item_kind_of result cursor.new (reading.sort_behind kind_read cursor.old) }
{
    match kind_read {
        Kind::Variable => Ok(ItemKind::Variable),
        Kind::Command => Ok(ItemKind::Command),
        Kind::Menu => Ok(ItemKind::Menu),
        Kind::Collection => {
            cursor.expect_word(Keyword::Of)?;
            Ok(ItemKind::Collection(member_kind(cursor)?))
        }
        Kind::Method => Ok(ItemKind::Method),
        Kind::Array => {
            cursor.expect_word(Keyword::Of)?;
            expect_variable(cursor)?;
            Ok(ItemKind::Array)
        }
    }
}

// The word of an item.
#[tactic(auto, unfolding(crate::specs::Units::sort_at))]
fn item_sort(cursor: &mut Cursor) -> Result<ItemKind, ParseFault>
    ensures { Gives item_kind_of result cursor.new (sort_at cursor.old) }
{
    let kind_read = item_kind(cursor)?;
    after_kind(cursor, kind_read)
}

// The attributes up to the closing brace.
#[tactic(auto, unfolding(edd_grammar::specs::WordReading::row_inside), using(crate::proofs::RowLoops::attributes_read))]
fn attribute_row(
    cursor: &mut Cursor,
    kind: Kind,
    height_left: u32,
) -> Result<Vec<Attribute<Path>>, ParseFault>
    requires { height_left ≤ 100 }
    ensures { Gives (λ v. map attribute_view v.items) result cursor.new
        (row_inside (closed (own_attribute_at kind height_left)) cursor.old) }
{
    let mut all = Vec::new(cursor.alloc());
    while !cursor.at(Symbol::CloseBrace) {
        all.push(own_attribute(cursor, kind, height_left)?)?;
    }
    all.shrink_to_fit();
    Ok(all)
}

// The attributes in braces.
#[tactic(auto, unfolding(edd_grammar::specs::UnitReading::attributes_at, edd_grammar::specs::WordReading::braced))]
fn attributes(
    cursor: &mut Cursor,
    kind: Kind,
    height_left: u32,
) -> Result<Vec<Attribute<Path>>, ParseFault>
    requires { height_left ≤ 100 }
    ensures { Gives (λ v. map attribute_view v.items) result cursor.new
        (reading.attributes_at kind height_left cursor.old) }
{
    cursor.expect(Symbol::OpenBrace)?;
    let all = attribute_row(cursor, kind, height_left)?;
    cursor.expect(Symbol::CloseBrace)?;
    Ok(all)
}

// An item whose attributes have at most this height.
#[tactic(auto, unfolding(edd_grammar::specs::UnitReading::item_at, crate::specs::Units::sort_at))]
fn one_item(cursor: &mut Cursor, height_left: u32) -> Result<Item<Path>, ParseFault>
    requires { height_left ≤ 100 }
    ensures { Gives item_view result cursor.new (reading.item_at height_left cursor.old) }
{
    let sort = item_sort(cursor)?;
    let at = cursor.place();
    let Some(name) = cursor.name() else {
        return Err(cursor.syntax());
    };
    let attributes = attributes(cursor, sort.kind(), height_left)?;
    let name = CompactString::new(cursor.alloc(), name)?;
    Ok(Item {
        sort,
        at,
        name,
        attributes,
    })
}

// An item and any number of semicolons after it.
#[tactic(auto, unfolding(edd_grammar::specs::WordReading::closed))]
fn closed_item(cursor: &mut Cursor) -> Result<Item<Path>, ParseFault>
    ensures { Gives item_view result cursor.new (closed (reading.item_at 100) cursor.old) }
{
    let item = one_item(cursor, 100)?;
    skip_semicolons(cursor);
    Ok(item)
}

/// The items up to the end of the text.
#[tactic(auto, unfolding(edd_grammar::specs::UnitReading::items_at), using(crate::proofs::RowLoops::items_read))]
pub fn items(cursor: &mut Cursor) -> Result<Vec<Item<Path>>, ParseFault>
    ensures { Gives (λ v. map item_view v.items) result cursor.new (reading.items_at cursor.old) }
{
    let mut all = Vec::new(cursor.alloc());
    while !cursor.is_empty() {
        all.push(closed_item(cursor)?)?;
    }
    Ok(all)
}

// `WORD number`
#[tactic(auto, unfolding(edd_grammar::specs::UnitReading::numbered_at))]
fn numbered(cursor: &mut Cursor, word: Keyword) -> Result<u32, ParseFault>
    ensures { Gives (λ n. n) result cursor.new (reading.numbered_at word cursor.old) }
{
    cursor.expect_word(word)?;
    integer(cursor)
}

/// The four numbers, with a comma after each or none.
#[tactic(auto, unfolding(edd_grammar::specs::UnitReading::identification_at))]
pub fn identification(cursor: &mut Cursor) -> Result<Identification, ParseFault>
    ensures { Gives identification_of result cursor.new (reading.identification_at cursor.old) }
{
    let manufacturer = numbered(cursor, Keyword::Manufacturer)?;
    skip_comma(cursor);
    let device_type = numbered(cursor, Keyword::DeviceType)?;
    skip_comma(cursor);
    let device_revision = numbered(cursor, Keyword::DeviceRevision)?;
    skip_comma(cursor);
    let dd_revision = numbered(cursor, Keyword::DdRevision)?;
    skip_comma(cursor);
    Ok(Identification {
        manufacturer,
        device_type,
        device_revision,
        dd_revision,
    })
}
