//! Texts that have the same images.

ghost use Rattle.std.specs.Prelude.{◌≡◌, ◌↔◌, ℕ, List, map};
ghost use Rattle.edd_syntax.specs.Refusal.{Refusal};
ghost use Rattle.edd_lexer.specs.Tokens.{AreTokens, Lexeme};
ghost use Rattle.edd_layout.specs.Same.{SameTokens};
ghost use Rattle.edd_compiler.specs.Images.{IsImageOf};
ghost use Rattle.edd_compiler.specs.Sources.{IsRefused};

/// What is an image of a text, and which rule it breaks first, is said by its tokens alone: texts that
/// differ in blanks, comments, marks and how a number is written have the same images and the same
/// refusal.
pub fn tokens_say_the_images()
    ensures images { (text other : List ℕ) (lexemes others : List Lexeme) → AreTokens text lexemes
        → AreTokens other others → map (λ l. l.token) lexemes ≡ map (λ l. l.token) others
        → (b : List ℕ) → IsImageOf text b ↔ IsImageOf other b }
    ensures refused { (text other : List ℕ) (lexemes others : List Lexeme) → AreTokens text lexemes
        → AreTokens other others → map (λ l. l.token) lexemes ≡ map (λ l. l.token) others
        → (why : Refusal) → IsRefused text why ↔ IsRefused other why }
{}

/// A text and its layout have the same images and the same refusal.
pub fn layouts_keep_the_images()
    ensures images { (text laid : List ℕ) → SameTokens text laid → (b : List ℕ)
        → IsImageOf text b ↔ IsImageOf laid b }
    ensures refused { (text laid : List ℕ) → SameTokens text laid → (why : Refusal)
        → IsRefused text why ↔ IsRefused laid why }
{}
