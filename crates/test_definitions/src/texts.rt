//! Texts: their languages and their escapes.

ghost use Rattle.std.specs.Prelude.{◌≡◌, [], ◌∷◌};
ghost use Rattle.edd_syntax.specs.Words.{text_for, words_of};
ghost use Rattle.test_definitions.specs.Texts.{a, b, before_a_code, english_second, french, german, key, name_of_key, no_english, quote_backslash_and_bar, says, tab_and_line_feed, twice_german};

/// The text for a language: its own, else the English one wherever it is, else the first.
pub fn texts_for_languages()
    ensures own { text_for (words_of english_second) german ≡ b }
    ensures english_behind { text_for (words_of english_second) french ≡ a }
    ensures first { text_for (words_of no_english) french ≡ b }
    ensures before_a_code { text_for (words_of before_a_code) french ≡ a }
    ensures first_of_two { text_for (words_of twice_german) german ≡ b }
    ensures key { text_for (words_of key) german ≡ name_of_key }
{}

/// The five escapes: a tab, a line feed, and three that stand for themselves.
pub fn escapes()
    ensures tab_and_line_feed { words_of tab_and_line_feed
        ≡ says (97 ∷ 9 ∷ 98 ∷ 10 ∷ 99 ∷ []) }
    ensures quote_backslash_and_bar { words_of quote_backslash_and_bar
        ≡ says (34 ∷ 92 ∷ 124 ∷ []) }
{}
