//! A text in the layout that a draft of it has.

ghost use Rattle.std.specs.Prelude.{◌≡◌, ◌⊎◌, List, map, IfOk, IfErr, IfSome, Some, MatchResult};
ghost use Rattle.edd_lexer.specs.Tokens.{Lexeme, AreTokens};
ghost use Rattle.edd_lexer.specs.Faults.{LexicalFault};
ghost use Rattle.edd_lexer.specs.declared.fault.Fault.{Fault};
ghost use Rattle.edd_lexer.specs.Views.{lexeme_of, fault_of};
ghost use Rattle.edd_lexer.specs.declared.fault.LexFault.TheVariants.{Memory};
ghost use Rattle.edd_layout.specs.Comments.{KeepsComments};
ghost use Rattle.edd_layout.specs.Same.{SameTokens, HaveSameBytes};

use crate::gaps::have_same_gaps;
use crate::kept::{behind_byte_order_mark, differ_in_blanks};
use crate::same::are_same;
use edd_lexer::fault::LexFault;
use edd_lexer::lex;
use edd_lexer::token::Token;
use std::alloc::Global;

// The draft, where a text with these tokens has the same; else the text.
fn checked(
    alloc: Global,
    text: &[u8],
    tokens: &[Token],
    draft: Vec<u8>,
) -> Result<Vec<u8>, LexFault>
    requires { AreTokens text.now (map (lexeme_of text.now) tokens.now) }
    ensures sound { IfOk result (λ laid. SameTokens text.now laid.items) }
    ensures kept { IfOk result (λ laid. HaveSameBytes text.now laid.items) }
    ensures comments { IfOk result (λ laid. KeepsComments text.now laid.items) }
    ensures chosen { IfOk result (λ laid. (laid.items ≡ text.now) ⊎ (laid.items ≡ draft.items)) }
    ensures only_memory { IfErr result (λ e. e ≡ Memory) }
{
    match lex(alloc, &draft) {
        Ok(others) => {
            let front = behind_byte_order_mark(text);
            let other_front = behind_byte_order_mark(&draft);
            if differ_in_blanks(front, other_front)
                && are_same(text, tokens, &draft, &others)
                && have_same_gaps(text, tokens, &draft, &others)
            {
                return Ok(draft);
            }
        }
        Err(LexFault::Memory) => return Err(LexFault::Memory),
        Err(_) => {}
    }
    Ok(Vec::from_slice(alloc, text)?)
}

/// The draft of a text, where it is a layout of this text: it has the same tokens, with other blanks
/// and line ends between them, and the same comments and marks between the same tokens. Else the text
/// as it is; so a layout that is laid out with itself as the draft stays as it is. The draft may be any
/// bytes.
///
/// Refused is what `lex` refuses of the text, with its fault.
pub fn laid_out(alloc: Global, text: &[u8], draft: Vec<u8>) -> Result<Vec<u8>, LexFault>
    ensures sound { IfOk result (λ laid. SameTokens text.now laid.items) }
    ensures kept { IfOk result (λ laid. HaveSameBytes text.now laid.items) }
    ensures comments { IfOk result (λ laid. KeepsComments text.now laid.items) }
    ensures chosen { IfOk result (λ laid. (laid.items ≡ text.now) ⊎ (laid.items ≡ draft.items)) }
    ensures refused { IfErr result
        (λ e. IfSome (fault_of e) (λ fault. LexicalFault text.now fault)) }
    ensures complete { (lexemes : List Lexeme) → AreTokens text.now lexemes
        → IfErr result (λ e. e ≡ Memory) }
    ensures only_fault { (fault : Fault) → LexicalFault text.now fault
        → MatchResult result (λ _. ⊥) (λ e. (e ≡ Memory) ⊎ (fault_of e ≡ Some fault)) }
{
    match lex(alloc, text) {
        Ok(tokens) => checked(alloc, text, &tokens, draft),
        Err(fault) => Err(fault),
    }
}
