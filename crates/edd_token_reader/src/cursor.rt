//! The tokens that are still to be read.

ghost use Rattle.std.specs.Prelude.{◌≡◌, ℕ, All, List, [], ◌∷◌, drop, length, MatchOption, option_map, None, Some, false, if◌then◌else◌};
ghost use Rattle.edd_grammar.specs.Reading as reading;
ghost use Rattle.edd_grammar.specs.Reading.{word_by};
ghost use Rattle.edd_grammar.specs.ExpressionReading.{operator_at, assignment_at, increment_at};
ghost use Rattle.edd_lexer.specs.Views.{token_of};
ghost use Rattle.edd_syntax.specs.Numbers.{format_of_word, number_of_word};
ghost use Rattle.edd_token_reader.specs.TokenTexts.{tokens_in, IsReadable};
ghost use Rattle.edd_token_reader.specs.Views.{infix_view, assignment_view, Leaves, Takes};
ghost use Rattle.edd_grammar.specs.WordReading.{integer_at, at_name, expect_name, at_end};
ghost use Rattle.edd_token_reader.specs.SingleTokens.{member_at, string_at, further_name_at};
ghost use Rattle.edd_grammar.specs.AttributeReading.{begins_own, text_here};

use crate::belongs::word_belongs;
use crate::fault::ParseFault;
use crate::operators::{Assignment, Infix, after_of, assignment_of, infix_of, precedence_of};
use crate::token_text::{name_in, string_in};
use edd_lexer::token::{Token, TokenKind};
use edd_syntax::numbers::{FormatOption, Kind, NumberOption, TextAttribute, TokenNo};
use edd_syntax::operators::{IncrementOperator, Operator};
use edd_syntax::symbols::{Keyword, Symbol};
use std::alloc::Global;
use std::marker::Model;

/// What is left of a text's tokens. A name or a string is cut out of the text when it is taken.
#[derive(Drop)]
pub struct Cursor<'a> {
    alloc: Global,
    text: &'a [u8],
    rest: &'a [Token],
    /// All tokens, for their numbers.
    tokens: &'a [Token],
}

impl<'a> Model for Cursor<'a> {
    ghost use Rattle.std.specs.Prelude.{All, List};
    ghost use Rattle.edd_syntax.specs.Token.{Token};
    ghost use Rattle.edd_token_reader.specs.TokenTexts.{tokens_in, IsReadable};

    ghost Value = { List Token };

    ghost view = { λ c. tokens_in c.text.now c.rest.now };

    ghost invariant = { λ c. All (IsReadable c.text.now) c.rest.now };
}

// The number of a token, of which a text has less than 2^32.
fn place_of(count: usize) -> TokenNo {
    TokenNo(u32::try_from(count).unwrap_or(u32::MAX))
}

impl<'a> Cursor<'a> {
    /// At the first token of a text.
    pub fn new(alloc: Global, text: &'a [u8], tokens: &'a [Token]) -> Self
        requires { All (IsReadable text.now) tokens.now }
        ensures { result ≡ tokens_in text.now tokens.now }
    {
        Cursor {
            alloc,
            text,
            rest: tokens,
            tokens,
        }
    }

    /// Where memory for what is read comes from.
    pub fn alloc(&self) -> Global {
        self.alloc
    }

    // How many tokens were taken.
    fn count_taken(&self) -> usize {
        self.tokens.len().saturating_sub(self.rest.len())
    }

    // Whether the token that was taken last is a name.
    fn has_taken_name(&self) -> bool {
        let Some(last) = self.count_taken().checked_sub(1) else {
            return false;
        };
        match self.tokens.get(last) {
            Some(token) => matches!(token.kind, TokenKind::Name),
            None => false,
        }
    }

    /// The number of the token that is next, at the text's end that of all tokens.
    pub fn place(&self) -> TokenNo {
        place_of(self.count_taken())
    }

    /// The number of the token that was taken last.
    pub fn taken_place(&self) -> TokenNo {
        place_of(self.count_taken().saturating_sub(1))
    }

    /// The number of the token after the next one.
    pub fn second_place(&self) -> TokenNo {
        place_of(self.count_taken().saturating_add(1))
    }

    /// The fault where the next token fits nothing. LIKE after a name would change another item,
    /// and is refused by its name.
    pub fn syntax(&self) -> ParseFault {
        if self.has_taken_name() && self.at_name("LIKE") {
            return ParseFault::unsupported(self.alloc, self.place(), "LIKE");
        }
        ParseFault::Syntax { at: self.place() }
    }

    /// The fault where the token that was taken last fits nothing.
    pub fn syntax_taken(&self) -> ParseFault {
        ParseFault::Syntax {
            at: self.taken_place(),
        }
    }

    /// The fault where the next token would be too deep.
    pub fn too_deep(&self) -> ParseFault {
        ParseFault::TooDeep { at: self.place() }
    }

    /// The fault where the token that was taken last would be too deep.
    pub fn too_deep_taken(&self) -> ParseFault {
        ParseFault::TooDeep {
            at: self.taken_place(),
        }
    }

    /// The number of tokens that are left.
    pub fn tokens_left(&self) -> usize
        ensures { result ≡ length self.now }
    {
        self.rest.len()
    }

    /// Whether no token is left.
    pub fn is_empty(&self) -> bool
        ensures { result ≡ at_end self.now }
    {
        self.rest.is_empty()
    }

    /// Whether this sign is next.
    pub fn at(&self, sign: Symbol) -> bool
        ensures { result ≡ reading.at sign self.now }
    {
        match self.peek() {
            Some(TokenKind::Symbol(next)) => sign == next,
            _ => false,
        }
    }

    /// Whether this word is next.
    pub fn at_word(&self, word: Keyword) -> bool
        ensures { result ≡ reading.at_word word self.now }
    {
        match self.peek() {
            Some(TokenKind::Keyword(next)) => word == next,
            _ => false,
        }
    }

    /// Whether a string is next.
    pub fn at_string(&self) -> bool
        ensures { result ≡ reading.is_string self.now }
    {
        matches!(self.peek(), Some(TokenKind::String))
    }

    /// Takes the next token, and gives its kind.
    pub fn next(&mut self) -> Option<TokenKind>
        ensures { MatchOption result (self.old ≡ [])
            (λ kind. (bytes : List ℕ) × (self.old ≡ token_of kind bytes ∷ self.new)) }
    {
        match self.rest {
            [] => None,
            [first, rest @ ..] => {
                self.rest = rest;
                Some(first.kind)
            }
        }
    }

    /// The kind of the token that is next.
    pub fn peek(&self) -> Option<TokenKind>
        ensures { MatchOption result (self.now ≡ [])
            (λ kind. (bytes : List ℕ) × (self.now ≡ token_of kind bytes ∷ drop 1 self.now)) }
    {
        match self.rest {
            [] => None,
            [first, ..] => Some(first.kind),
        }
    }

    /// The name that is next. It isn't taken.
    pub fn peek_name(&self) -> Option<&'a str>
        ensures { option_map (λ n. n.now) result
            ≡ option_map (λ r. r.0) (reading.name_at self.now) }
    {
        match self.rest {
            [
                first @ Token {
                    kind: TokenKind::Name,
                    ..
                },
                ..
            ] => Some(name_in(self.text, first)),
            _ => None,
        }
    }

    /// The name after the next token.
    pub fn peek_second_name(&self) -> Option<&'a str> {
        match self.rest {
            [
                _,
                second @ Token {
                    kind: TokenKind::Name,
                    ..
                },
                ..
            ] => Some(name_in(self.text, second)),
            _ => None,
        }
    }

    /// Whether this name is next.
    pub fn at_name(&self, name: &str) -> bool
        ensures { result ≡ at_name name.now self.now }
    {
        match self.peek_name() {
            Some(next) => next == name,
            None => false,
        }
    }

    /// After this name, which has to be next.
    #[tactic(auto, unfolding(edd_grammar::specs::WordReading::expect_name))]
    pub fn expect_name(&mut self, name: &str) -> Result<(), ParseFault>
        ensures { Leaves result self.new (expect_name name.now self.old) }
    {
        if !self.eat_name(name) {
            return Err(self.syntax());
        }
        Ok(())
    }

    /// After the next token, if there is one.
    pub fn bump(&mut self)
        ensures { self.new ≡ drop 1 self.old }
    {
        if let [_, rest @ ..] = self.rest {
            self.rest = rest;
        }
    }

    /// Takes this sign, if it is next.
    pub fn eat(&mut self, sign: Symbol) -> bool
        ensures at { result ≡ reading.at sign self.old }
        ensures left { self.new ≡ (if result then drop 1 self.old else self.old) }
    {
        let next = self.at(sign);
        if next {
            self.bump();
        }
        next
    }

    /// Takes this word, if it is next.
    pub fn eat_word(&mut self, word: Keyword) -> bool
        ensures at { result ≡ reading.at_word word self.old }
        ensures left { self.new ≡ (if result then drop 1 self.old else self.old) }
    {
        let next = self.at_word(word);
        if next {
            self.bump();
        }
        next
    }

    /// Takes this name, if it is next.
    pub fn eat_name(&mut self, name: &str) -> bool
        ensures at { result ≡ at_name name.now self.old }
        ensures left { self.new ≡ (if result then drop 1 self.old else self.old) }
    {
        let next = self.at_name(name);
        if next {
            self.bump();
        }
        next
    }

    /// After this sign, which has to be next.
    #[tactic(auto, unfolding(edd_grammar::specs::Reading::expect))]
    pub fn expect(&mut self, sign: Symbol) -> Result<(), ParseFault>
        ensures { Leaves result self.new (reading.expect sign self.old) }
    {
        if !self.eat(sign) {
            return Err(self.syntax());
        }
        Ok(())
    }

    /// After this word, which has to be next.
    #[tactic(auto, unfolding(edd_grammar::specs::Reading::expect_word))]
    pub fn expect_word(&mut self, word: Keyword) -> Result<(), ParseFault>
        ensures { Leaves result self.new (reading.expect_word word self.old) }
    {
        if !self.eat_word(word) {
            return Err(self.syntax());
        }
        Ok(())
    }

    /// The name that is next.
    pub fn name(&mut self) -> Option<&'a str>
        ensures { Takes (λ n. n.now) result self.old self.new (reading.name_at self.old) }
    {
        let name = self.peek_name()?;
        self.bump();
        Some(name)
    }

    /// The string that is next.
    pub fn string(&mut self) -> Option<&'a str>
        ensures { Takes (λ n. n.now) result self.old self.new (string_at self.old) }
    {
        match self.rest {
            [
                first @ Token {
                    kind: TokenKind::String,
                    ..
                },
                rest @ ..,
            ] => {
                self.rest = rest;
                Some(string_in(self.text, first))
            }
            _ => None,
        }
    }

    /// The integer that is next.
    pub fn integer(&mut self) -> Option<u32>
        ensures { Takes (λ n. n) result self.old self.new (integer_at self.old) }
    {
        let Some(TokenKind::Integer(n)) = self.peek() else {
            return None;
        };
        self.bump();
        Some(n)
    }

    /// The name of a member after a dot.
    pub fn member(&mut self) -> Option<&'a str>
        ensures { Takes (λ n. n.now) result self.old self.new (member_at self.old) }
    {
        match self.rest {
            [
                Token {
                    kind: TokenKind::Symbol(Symbol::Dot),
                    ..
                },
                second @ Token {
                    kind: TokenKind::Name,
                    ..
                },
                rest @ ..,
            ] => {
                self.rest = rest;
                Some(name_in(self.text, second))
            }
            _ => None,
        }
    }

    /// The name after `&`.
    pub fn further_name(&mut self) -> Option<&'a str>
        ensures { Takes (λ n. n.now) result self.old self.new (further_name_at self.old) }
    {
        match self.rest {
            [
                Token {
                    kind: TokenKind::Symbol(Symbol::Operator(Operator::And)),
                    ..
                },
                second @ Token {
                    kind: TokenKind::Name,
                    ..
                },
                rest @ ..,
            ] => {
                self.rest = rest;
                Some(name_in(self.text, second))
            }
            _ => None,
        }
    }

    /// Whether the word of an attribute is next that this kind of item may have.
    pub fn begins_own(&self, kind: Kind) -> bool
        ensures { result ≡ begins_own kind self.now }
    {
        match self.peek() {
            Some(TokenKind::Keyword(word)) => word_belongs(kind, word),
            _ => false,
        }
    }

    /// The attribute that is one text and of which the word is next.
    pub fn text_attribute(&self) -> Option<TextAttribute>
        ensures { result ≡ text_here self.now }
    {
        match self.peek() {
            Some(TokenKind::Keyword(word)) => TextAttribute::from_word(word),
            _ => None,
        }
    }

    /// The option of a type that is a number and of which the word is next.
    pub fn number_option(&self) -> Option<NumberOption>
        ensures { result ≡ word_by number_of_word self.now }
    {
        match self.peek() {
            Some(TokenKind::Keyword(word)) => NumberOption::from_word(word),
            _ => None,
        }
    }

    /// The option of a type that is a format and of which the word is next.
    pub fn format_option(&self) -> Option<FormatOption>
        ensures { result ≡ word_by format_of_word self.now }
    {
        match self.peek() {
            Some(TokenKind::Keyword(word)) => FormatOption::from_word(word),
            _ => None,
        }
    }

    // The sign that is next. It isn't taken.
    fn peek_sign(&self) -> Option<Symbol>
        ensures { result ≡ option_map (λ r. r.0) (reading.sign_at self.now) }
    {
        match self.peek() {
            Some(TokenKind::Symbol(sign)) => Some(sign),
            _ => None,
        }
    }

    /// The operator that is next, where it is of this precedence or a tighter one.
    pub fn operator(&mut self, precedence: u32) -> Option<Infix>
        ensures { Takes infix_view result self.old self.new (operator_at precedence self.old) }
    {
        let op = infix_of(self.peek_sign()?)?;
        if precedence_of(op) < precedence {
            return None;
        }
        self.bump();
        Some(op)
    }

    /// The assignment that is next.
    pub fn assignment(&mut self) -> Option<Assignment>
        ensures { Takes assignment_view result self.old self.new (assignment_at self.old) }
    {
        let op = assignment_of(self.peek_sign()?)?;
        self.bump();
        Some(op)
    }

    /// The step that is next.
    pub fn step(&mut self) -> Option<IncrementOperator>
        ensures { Takes (λ op. op) result self.old self.new (increment_at self.old) }
    {
        let op = after_of(self.peek_sign()?)?;
        self.bump();
        Some(op)
    }
}
