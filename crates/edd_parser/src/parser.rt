//! The unit that tokens spell.

ghost use Rattle.std.specs.Prelude.{◌≡◌, IfOk, IfErr, MatchResult, map};
ghost use Rattle.edd_syntax.specs.Reference.{Path};
ghost use Rattle.edd_syntax.specs.Item.{Description};
ghost use Rattle.edd_syntax.specs.ItemGrammar.{Spells};
ghost use Rattle.edd_lexer.specs.Tokens.{AreTokens};
ghost use Rattle.edd_lexer.specs.Views.{lexeme_of};
ghost use Rattle.edd_grammar.specs.KeptTokens.{Kept};
ghost use Rattle.edd_grammar.specs.UnitReading.{unit_at};
ghost use Rattle.edd_token_reader.specs.declared.fault.ParseFault.TheVariants.{Memory};
ghost use Rattle.edd_token_reader.specs.TokenTexts.{tokens_in};
ghost use Rattle.edd_parser.specs.Units.{unit_view, Answers};
ghost use Rattle.edd_token_reader.specs.Views.{Says};

use crate::items::{identification, items};
use edd_lexer::token::Token;
use edd_syntax::unit::Unit;
use edd_token_reader::cursor::Cursor;
use edd_token_reader::fault::ParseFault;
use std::alloc::Global;

// The unit that all the tokens spell.
#[tactic(auto, unfolding(edd_grammar::specs::UnitReading::unit_at))]
fn whole(cursor: &mut Cursor) -> Result<Unit, ParseFault>
    requires { Kept cursor.old }
    ensures { Answers result (unit_at cursor.old) }
{
    let identification = identification(cursor)?;
    let items = items(cursor)?;
    Ok(Unit {
        identification,
        items,
    })
}

fn read(alloc: Global, text: &[u8], tokens: &[Token]) -> Result<Unit, ParseFault>
    requires { AreTokens text.now (map (lexeme_of text.now) tokens.now) }
    ensures { Answers result (unit_at (tokens_in text.now tokens.now)) }
{
    let mut cursor = Cursor::new(alloc, text, tokens);
    whole(&mut cursor)
}

/// The unit that the tokens of a text spell.
///
/// A syntax fault is at the first token that fits nothing, or at the text's end. A tree that would
/// be too high is at the token that would be the 101st level. A word that the profile leaves out is
/// named where an item, an attribute, a qualifier or a statement may begin.
pub fn parse(alloc: Global, text: &[u8], tokens: &[Token]) -> Result<Unit, ParseFault>
    requires { AreTokens text.now (map (lexeme_of text.now) tokens.now) }
    ensures sound { IfOk result (λ u. Spells (tokens_in text.now tokens.now) (unit_view u)) }
    ensures refused { IfErr result
        (λ e. Says e ((unit : Description Path)
        → ¬ (Spells (tokens_in text.now tokens.now) unit))) }
    ensures complete { (unit : Description Path) → Spells (tokens_in text.now tokens.now) unit
        → MatchResult result (λ u. unit_view u ≡ unit) (λ e. e ≡ Memory) }
{
    read(alloc, text, tokens)
}
