//! The description of a text, step by step: its tokens, the unit they spell, what is checked.

ghost use Rattle.std.specs.Prelude.{◌≡◌, ℕ, List, IfOk, IfErr, MatchResult, map};
ghost use Rattle.edd_syntax.specs.ItemView.{identification_of, numbered_items};
ghost use Rattle.edd_syntax.specs.Reference.{Path};
ghost use Rattle.edd_syntax.specs.Resolved.{description};
ghost use Rattle.edd_syntax.specs.Item.{Description};
ghost use Rattle.edd_lexer.specs.Tokens.{AreTokens};
ghost use Rattle.edd_lexer.specs.Views.{lexeme_of};
ghost use Rattle.edd_parser.specs.Units.{unit_view};
ghost use Rattle.edd_compiler.specs.declared.fault.Fault.TheVariants.{Memory};
ghost use Rattle.edd_compiler.specs.Faults.{Explains};
ghost use Rattle.edd_compiler.specs.Sources.{IsUnitOf, IsDescriptionOf};

use crate::fault::Fault;
use edd_lexer::laws::one_reading;
use edd_lexer::lex;
use edd_lexer::token::Token;
use edd_names::resolve;
use edd_parser::parse;
use edd_syntax::checked::Checked;
use edd_syntax::unit::Unit;
use edd_types::check;
use std::alloc::Global;

/// The tokens of a text.
pub fn tokens_of(alloc: Global, text: &[u8]) -> Result<Vec<Token>, Fault>
    ensures sound { IfOk result (λ list. AreTokens text.now (map (lexeme_of text.now) list.items)) }
    ensures refused { IfErr result (Explains text.now) }
    ensures complete { (unit : Description Path) → IsUnitOf text.now unit
        → IfErr result (λ e. e ≡ Memory) }
{
    Ok(lex(alloc, text)?)
}

/// The unit that these tokens spell, which are those of the text.
pub fn unit_from(alloc: Global, text: &[u8], tokens: &[Token]) -> Result<Unit, Fault>
    requires { AreTokens text.now (map (lexeme_of text.now) tokens.now) }
    ensures sound { IfOk result (λ u. IsUnitOf text.now (unit_view u)) }
    ensures refused { IfErr result (Explains text.now) }
    ensures complete { (unit : Description Path) → IsUnitOf text.now unit
        → MatchResult result (λ u. unit_view u ≡ unit) (λ e. e ≡ Memory) }
{
    one_reading();
    Ok(parse(alloc, text, tokens)?)
}

/// The description of a unit, if no rule is broken: that of each text which spells the unit.
/// Strings are counted where they are written.
pub fn checked_from(alloc: Global, unit: &Unit) -> Result<Checked, Fault>
    ensures sound { (text : List ℕ) → IsUnitOf text (unit_view unit.now) → IfOk result
        (λ c. IsDescriptionOf text
        (description (identification_of c.identification) (numbered_items c.items.value.items))) }
    ensures refused { (text : List ℕ) → IsUnitOf text (unit_view unit.now)
        → IfErr result (Explains text) }
{
    let resolved = resolve(alloc, unit)?;
    Ok(check(alloc, &resolved)?)
}

/// The unit that the tokens of a text spell. There is at most one.
pub fn unit_of(alloc: Global, text: &[u8]) -> Result<Unit, Fault>
    ensures sound { IfOk result (λ u. IsUnitOf text.now (unit_view u)) }
    ensures refused { IfErr result (Explains text.now) }
    ensures complete { (unit : Description Path) → IsUnitOf text.now unit
        → MatchResult result (λ u. unit_view u ≡ unit) (λ e. e ≡ Memory) }
{
    let tokens = tokens_of(alloc, text)?;
    unit_from(alloc, text, &tokens)
}

/// The description that a text stands for, if no rule is broken. Strings are counted where they are
/// written.
pub fn checked_of(alloc: Global, text: &[u8]) -> Result<Checked, Fault>
    ensures sound { IfOk result
        (λ c. IsDescriptionOf text.now
        (description (identification_of c.identification) (numbered_items c.items.value.items))) }
    ensures refused { IfErr result (Explains text.now) }
{
    let unit = unit_of(alloc, text)?;
    checked_from(alloc, &unit)
}
