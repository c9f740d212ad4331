//! Answers: their sets, and the order of requests.

ghost use Rattle.std.specs.Prelude.{◌≡◌, pos, [], ◌∷◌};
ghost use Rattle.edd_syntax.specs.declared.operators.Operator.TheVariants.{Subtract};
ghost use Rattle.edd_syntax.specs.Expression.{Binary};
ghost use Rattle.edd_syntax.specs.Answers.{Go, values_set};
ghost use Rattle.edd_syntax.specs.Execution.{Ended};
ghost use Rattle.test_definitions.specs.Methods.{acknowledge, acknowledges, changed, did, evaluates, integer, ok, runs, send, sent};
ghost use Rattle.test_definitions.specs.Texts.{a, b};

/// The sets of an answer apply in their order: of two of one variable the second is left.
pub fn answers_set_in_order()
    ensures values { values_set (pos 0 ∷ pos 7 ∷ [])
        (changed 0 (pos 1) ∷ changed 1 (pos 5) ∷ changed 0 (pos 2) ∷ [])
        ≡ pos 2 ∷ pos 5 ∷ [] }
    ensures run { runs (integer 1 ∷ []) (evaluates (acknowledge a) ∷ []) (pos 0 ∷ [])
        (Go (pos 0) (changed 0 (pos 1) ∷ changed 0 (pos 2) ∷ []) ∷ [])
        ≡ did (acknowledges a ∷ []) (changed 0 (pos 1) ∷ changed 0 (pos 2) ∷ [])
        (pos 2 ∷ []) Ended }
{}

/// Of two requests in one expression the left one is made first, and gets the first answer.
pub fn answered_requests()
    ensures left_first { runs []
        (send (Binary Subtract (acknowledge a) (acknowledge b)) ∷ []) []
        (Go (pos 5) [] ∷ Go (pos 3) [] ∷ ok ∷ [])
        ≡ did (acknowledges a ∷ acknowledges b ∷ sent (pos 2) ∷ []) [] []
        Ended }
{}
