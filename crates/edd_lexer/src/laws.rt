//! Laws of the definitions, and worked texts.

ghost use Rattle.std.specs.Prelude.{◌≡◌, ℕ, List, All};
ghost use Rattle.edd_lexer.specs.Kept.{IsLexeme};
ghost use Rattle.edd_lexer.specs.Tokens.{Lexeme, AreTokens};
ghost use Rattle.edd_lexer.specs.Faults.{Fault, LexicalFault};
ghost use Rattle.edd_lexer.specs.Longest.{TokensStandAlone, TokensAreLongest};
ghost use Rattle.edd_lexer.specs.Worked.{HexExample, PressureExample, NumberExample, EscapeExample, DirectiveExample};

/// A text has one list of tokens at most, one fault at most, and not both.
pub fn one_reading()
    ensures one_list { (text : List ℕ) (tokens others : List Lexeme) → AreTokens text tokens
        → AreTokens text others → tokens ≡ others }
    ensures one_fault { (text : List ℕ) (fault other : Fault) → LexicalFault text fault
        → LexicalFault text other → fault ≡ other }
    ensures not_both { (text : List ℕ) (tokens : List Lexeme) (fault : Fault)
        → AreTokens text tokens → ¬ (LexicalFault text fault) }
{}

/// Each token of a text lies in it, and keeps what a token of its kind keeps.
pub fn kept_tokens()
    ensures { (text : List ℕ) (tokens : List Lexeme) → AreTokens text tokens
        → All (IsLexeme text) tokens }
{}

/// A token is the longest one where it begins: what it takes of the text is the token also by
/// itself, and no longer beginning of the text there is a token by itself.
pub fn longest_tokens()
    ensures alone { TokensStandAlone }
    ensures longest { TokensAreLongest }
{}

/// The tokens of two texts, and the faults of some.
pub fn worked_texts()
    ensures hex { HexExample }
    ensures pressure { PressureExample }
    ensures number { NumberExample }
    ensures escape { EscapeExample }
    ensures directive { DirectiveExample }
{}
