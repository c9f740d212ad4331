//! A text as the compiler takes it, step by step, and the verdict at the step that ends it.

ghost use Rattle.std.specs.Prelude.{◌≢◌, ℕ, IfOk, List, [], map, string_bytes};
ghost use Rattle.edd_code.specs.Units.{description_of};
ghost use Rattle.edd_compiler.specs.declared.fault.Fault.TheVariants.{Memory};
ghost use Rattle.edd_compiler.specs.Faults.{Explains};
ghost use Rattle.edd_compiler.specs.Sources.{IsDescriptionOf, IsUnitOf};
ghost use Rattle.edd_compiler.specs.Words.{IsRefusalOf};
ghost use Rattle.edd_findings.specs.Verdicts.{FindsRest, Judges};
ghost use Rattle.edd_lexer.specs.Tokens.{AreTokens};
ghost use Rattle.edd_lexer.specs.Views.{lexeme_of};
ghost use Rattle.edd_parser.specs.Units.{unit_view};

use crate::breaches::told_of;
use crate::found::{Found, all_found};
use crate::verdict::{Accepted, Refused, Verdict};
use edd_compiler::{Fault, checked_from, image_from, tokens_of, unit_from};
use edd_lexer::token::Token;
use edd_syntax::checked::Checked;
use edd_syntax::unit::Unit;
use std::alloc::{AllocError, Global};

// A text that spells no unit, or whose image can't be written.
fn refused_alone(alloc: Global, fault: Fault, refusal: String) -> Verdict
    ensures { (text : List ℕ) → Explains text fault → fault ≢ Memory
        → IsRefusalOf text fault (string_bytes refusal) → FindsRest text fault []
        → Judges text result }
{
    Verdict::Refused(Refused {
        fault,
        refusal,
        breaches: Vec::new(alloc),
    })
}

// All rules that a unit breaks whose tokens these are, where one of them is the fault.
fn breaches_of(
    alloc: Global,
    text: &[u8],
    tokens: &[Token],
    unit: &Unit,
    fault: &Fault,
) -> Result<Vec<Found>, AllocError>
    requires tokens { AreTokens text.now (map (lexeme_of text.now) tokens.now) }
    requires unit { IsUnitOf text.now (unit_view unit.now) }
    ensures sound { IfOk result (λ found. FindsRest text.now fault.now found.items) }
{
    let Fault::Rule(_) = fault else {
        return Ok(Vec::new(alloc));
    };
    let mut items = Vec::new(alloc);
    let told = told_of(alloc, unit, &mut items)?;
    all_found(alloc, text, tokens, &told)
}

// The verdict on the description that a text with these tokens stands for.
fn of_description(
    alloc: Global,
    text: &[u8],
    tokens: Vec<Token>,
    checked: Checked,
) -> Result<Verdict, AllocError>
    requires tokens { AreTokens text.now (map (lexeme_of text.now) tokens.items) }
    requires description { IsDescriptionOf text.now (description_of checked) }
    ensures sound { IfOk result (Judges text.now) }
{
    match image_from(alloc, &checked) {
        Ok(image) => Ok(Verdict::Accepted(Accepted {
            image,
            tokens,
            checked,
        })),
        Err(Fault::Memory) => Err(AllocError),
        Err(fault) => {
            let refusal = fault.refusal_among(alloc, text, &tokens)?;
            Ok(refused_alone(alloc, fault, refusal))
        }
    }
}

// The verdict on the unit that a text with these tokens spells.
fn of_unit(
    alloc: Global,
    text: &[u8],
    tokens: Vec<Token>,
    unit: &Unit,
) -> Result<Verdict, AllocError>
    requires tokens { AreTokens text.now (map (lexeme_of text.now) tokens.items) }
    requires unit { IsUnitOf text.now (unit_view unit.now) }
    ensures sound { IfOk result (Judges text.now) }
{
    match checked_from(alloc, unit) {
        Ok(checked) => of_description(alloc, text, tokens, checked),
        Err(Fault::Memory) => Err(AllocError),
        Err(fault) => {
            let refusal = fault.refusal_among(alloc, text, &tokens)?;
            let breaches = breaches_of(alloc, text, &tokens, unit, &fault)?;
            Ok(Verdict::Refused(Refused {
                fault,
                refusal,
                breaches,
            }))
        }
    }
}

// The verdict on a text with these tokens.
fn of_tokens(alloc: Global, text: &[u8], tokens: Vec<Token>) -> Result<Verdict, AllocError>
    requires { AreTokens text.now (map (lexeme_of text.now) tokens.items) }
    ensures sound { IfOk result (Judges text.now) }
{
    match unit_from(alloc, text, &tokens) {
        Ok(unit) => of_unit(alloc, text, tokens, &unit),
        Err(Fault::Memory) => Err(AllocError),
        Err(fault) => {
            let refusal = fault.refusal_among(alloc, text, &tokens)?;
            Ok(refused_alone(alloc, fault, refusal))
        }
    }
}

/// The verdict on a text: its image, or why it has none. It is refused exactly where `compile`
/// refuses it for a fault of its own.
pub fn judge(alloc: Global, text: &[u8]) -> Result<Verdict, AllocError>
    ensures sound { IfOk result (Judges text.now) }
{
    match tokens_of(alloc, text) {
        Ok(tokens) => of_tokens(alloc, text, tokens),
        Err(Fault::Memory) => Err(AllocError),
        Err(fault) => {
            let refusal = fault.refusal(alloc, text)?;
            Ok(refused_alone(alloc, fault, refusal))
        }
    }
}
