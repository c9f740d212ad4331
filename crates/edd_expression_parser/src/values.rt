//! What may be a value of a conditional.

ghost use Rattle.std.specs.Prelude.{Bool, Some};
ghost use Rattle.edd_syntax.specs.declared.types.Handling as handling_words;
ghost use Rattle.edd_syntax.specs.Text as texts;
ghost use Rattle.edd_syntax.specs.Reference as references;
ghost use Rattle.edd_syntax.specs.Expression as pure;
ghost use Rattle.edd_syntax.specs.Item as item;
ghost use Rattle.edd_syntax.specs.TreeView.{path_of, expr_of};
ghost use Rattle.edd_syntax.specs.WordsView.{text_of};
ghost use Rattle.edd_syntax.specs.ItemView.{enumerator_of, data_item_of, entry_of};
ghost use Rattle.edd_grammar.specs.ConditionalReading.{text_value, expr_value};
ghost use Rattle.edd_grammar.specs.ValueReading as reading;
ghost use Rattle.edd_expression_parser.specs.ValuesShorten as lengths;
ghost use Rattle.edd_token_reader.specs.Views.{Gives};

use crate::cond::{ParseValue, label};
use crate::expr::expr;
use edd_syntax::expr::Expr;
use edd_syntax::item::{DataItem, Enumerator, MenuEntry};
use edd_syntax::operators::Comparison;
use edd_syntax::reference::Path;
use edd_syntax::symbols::Symbol;
use edd_syntax::text::Text;
use edd_syntax::types::Handling;
use edd_token_reader::cursor::Cursor;
use edd_token_reader::fault::ParseFault;
use edd_token_reader::left_out::expect_brace;
use edd_token_reader::operators::Site;
use edd_token_reader::qualifiers::{data_qualifiers, menu_qualifiers};
use edd_token_reader::texts::{at_text, path, text};
use edd_token_reader::words::{handling, integer, optional_text, some_text, truth};

impl ParseValue for Text {
    ghost Pure = { texts.Text };

    ghost view = { text_of };

    ghost read = { text_value };

    ghost shortens = { lengths.text_shortens };

    #[tactic(auto, unfolding(edd_grammar::specs::ConditionalReading::text_value))]
    fn read_value(cursor: &mut Cursor, _height_left: u32) -> Result<Text, ParseFault> {
        if !at_text(cursor) {
            return Err(cursor.syntax());
        }
        text(cursor)
    }
}

impl ParseValue for Expr<Path> {
    ghost Pure = { pure.Expr references.Path };

    ghost view = { λ e. expr_of path_of e };

    ghost read = { expr_value };

    ghost shortens = { lengths.expr_shortens };

    #[tactic(auto, unfolding(edd_grammar::specs::ConditionalReading::expr_value))]
    fn read_value(cursor: &mut Cursor, height_left: u32) -> Result<Expr<Path>, ParseFault> {
        let value = expr(cursor, Site::Attribute, height_left, 2)?;
        Ok(value.expr)
    }
}

impl ParseValue for Handling {
    ghost Pure = { handling_words.Handling };

    ghost view = { λ h. h };

    ghost read = { reading.handling_value };

    ghost shortens = { lengths.handling_shortens };

    #[tactic(auto, unfolding(edd_grammar::specs::ValueReading::handling_value))]
    fn read_value(cursor: &mut Cursor, _height_left: u32) -> Result<Handling, ParseFault> {
        handling(cursor)
    }
}

impl ParseValue for bool {
    ghost Pure = { Bool };

    ghost view = { λ b. b };

    ghost read = { reading.truth_value };

    ghost shortens = { lengths.truth_shortens };

    #[tactic(auto, unfolding(edd_grammar::specs::ValueReading::truth_value))]
    fn read_value(cursor: &mut Cursor, _height_left: u32) -> Result<bool, ParseFault> {
        truth(cursor)
    }
}

// `{ value, text, help }`
#[tactic(auto, unfolding(edd_grammar::specs::ValueReading::enumerator_at))]
fn enumerator(cursor: &mut Cursor) -> Result<Enumerator, ParseFault>
    ensures { Gives enumerator_of result cursor.new (reading.enumerator_at cursor.old) }
{
    let at = cursor.place();
    expect_brace(cursor)?;
    let value = label(cursor)?;
    cursor.expect(Symbol::Comma)?;
    let text = some_text(cursor)?;
    let help = optional_text(cursor)?;
    cursor.expect(Symbol::CloseBrace)?;
    Ok(Enumerator {
        at,
        value,
        text,
        help,
    })
}

impl ParseValue for Enumerator {
    ghost Pure = { item.Enumerator };

    ghost view = { enumerator_of };

    ghost read = { reading.enumerator_value };

    ghost shortens = { lengths.enumerator_shortens };

    #[tactic(auto, unfolding(edd_grammar::specs::ValueReading::enumerator_value))]
    fn read_value(cursor: &mut Cursor, _height_left: u32) -> Result<Enumerator, ParseFault> {
        enumerator(cursor)
    }
}

// `<mask>`, or none.
#[tactic(auto, unfolding(edd_grammar::specs::ValueReading::mask_at))]
fn mask(cursor: &mut Cursor) -> Result<Option<u32>, ParseFault>
    ensures { Gives (λ m. m) result cursor.new (reading.mask_at cursor.old) }
{
    if !cursor.eat(Symbol::Comparison(Comparison::Less)) {
        return Ok(None);
    }
    let mask = integer(cursor)?;
    cursor.expect(Symbol::Comparison(Comparison::Greater))?;
    Ok(Some(mask))
}

#[tactic(auto, unfolding(edd_grammar::specs::ValueReading::data_variable_at, edd_token_reader::specs::Qualifiers::data_at))]
fn data_variable(cursor: &mut Cursor) -> Result<DataItem<Path>, ParseFault>
    ensures { Gives (λ d. data_item_of path_of d) result cursor.new
        (reading.data_variable_at cursor.old) }
{
    let at = cursor.place();
    let variable = path(cursor)?;
    let mask = mask(cursor)?;
    let qualifiers = data_qualifiers(cursor)?;
    Ok(DataItem::Variable {
        at,
        variable,
        mask,
        qualifiers,
    })
}

// A number, or a reference with a mask and qualifiers that may be missing.
#[tactic(auto, unfolding(edd_grammar::specs::ValueReading::data_item_at))]
fn data_item(cursor: &mut Cursor) -> Result<DataItem<Path>, ParseFault>
    ensures { Gives (λ d. data_item_of path_of d) result cursor.new
        (reading.data_item_at cursor.old) }
{
    let at = cursor.place();
    if let Some(value) = cursor.integer() {
        return Ok(DataItem::Constant { at, value });
    }
    data_variable(cursor)
}

impl ParseValue for DataItem<Path> {
    ghost Pure = { item.DataItem references.Path };

    ghost view = { λ d. data_item_of path_of d };

    ghost read = { reading.data_item_value };

    ghost shortens = { lengths.data_item_shortens };

    #[tactic(auto, unfolding(edd_grammar::specs::ValueReading::data_item_value))]
    fn read_value(cursor: &mut Cursor, _height_left: u32) -> Result<DataItem<Path>, ParseFault> {
        data_item(cursor)
    }
}

#[tactic(auto, unfolding(edd_grammar::specs::ValueReading::menu_reference_at, edd_token_reader::specs::Qualifiers::menu_at))]
fn menu_reference(cursor: &mut Cursor) -> Result<MenuEntry<Path>, ParseFault>
    ensures { Gives (λ e. entry_of path_of e) result cursor.new
        (reading.menu_reference_at cursor.old) }
{
    let to = path(cursor)?;
    let qualifiers = menu_qualifiers(cursor)?;
    Ok(MenuEntry::Reference { to, qualifiers })
}

// A text, or a reference with qualifiers that may be missing.
#[tactic(auto, unfolding(edd_grammar::specs::ValueReading::menu_entry_at))]
fn menu_entry(cursor: &mut Cursor) -> Result<MenuEntry<Path>, ParseFault>
    ensures { Gives (λ e. entry_of path_of e) result cursor.new (reading.menu_entry_at cursor.old) }
{
    if at_text(cursor) {
        return Ok(MenuEntry::Text(text(cursor)?));
    }
    menu_reference(cursor)
}

impl ParseValue for MenuEntry<Path> {
    ghost Pure = { item.MenuEntry references.Path };

    ghost view = { λ e. entry_of path_of e };

    ghost read = { reading.menu_entry_value };

    ghost shortens = { lengths.menu_entry_shortens };

    #[tactic(auto, unfolding(edd_grammar::specs::ValueReading::menu_entry_value))]
    fn read_value(cursor: &mut Cursor, _height_left: u32) -> Result<MenuEntry<Path>, ParseFault> {
        menu_entry(cursor)
    }
}
