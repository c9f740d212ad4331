//! `switch` and locals.

ghost use Rattle.std.specs.Prelude.{◌≡◌, pos, [], ◌∷◌};
ghost use Rattle.edd_syntax.specs.declared.operators.Comparison.TheVariants.{Less};
ghost use Rattle.edd_syntax.specs.declared.operators.IncrementOperator.TheVariants.{PostIncrement};
ghost use Rattle.edd_syntax.specs.Expression.{Compare, Increment, Literal};
ghost use Rattle.edd_syntax.specs.Statement.{Break, CaseLabel, DefaultLabel, Switch, While, Block, body_from};
ghost use Rattle.edd_syntax.specs.Execution.{Ended};
ghost use Rattle.test_definitions.specs.Methods.{declares, declares_as, did, does, evaluates, i, k, minus, ok, runs, send, sent, value_of};

/// A label is compared in 32 bits; without an equal case or a default a `switch` does nothing; a
/// `break` leaves the inner one.
pub fn switches()
    ensures case_of_32_bits { runs [] (does (Switch (minus 1)
        (body_from (CaseLabel (pos 4294967295) ∷ send (Literal 1) ∷ []))) ∷ []) [] (ok ∷ [])
        ≡ did (sent (pos 1) ∷ []) [] [] Ended }
    ensures no_equal_case { runs [] (does (Switch (Literal 3)
        (body_from (CaseLabel (pos 1) ∷ send (Literal 1) ∷ []))) ∷ send (Literal 2) ∷ []) []
        (ok ∷ []) ≡ did (sent (pos 2) ∷ []) [] [] Ended }
    ensures neither_case_nor_default { runs [] (does (Switch (Literal 1)
        (body_from (send (Literal 1) ∷ []))) ∷ send (Literal 2) ∷ []) [] (ok ∷ [])
        ≡ did (sent (pos 2) ∷ []) [] [] Ended }
    ensures first_of_two_cases { runs [] (does (Switch (Literal 1) (body_from (CaseLabel (pos 1)
        ∷ send (Literal 5) ∷ does Break ∷ CaseLabel (pos 1) ∷ send (Literal 6) ∷ []))) ∷ []) []
        (ok ∷ []) ≡ did (sent (pos 5) ∷ []) [] [] Ended }
    ensures one_inside_another { runs [] (does (Switch (Literal 1) (body_from (CaseLabel (pos 1)
        ∷ does (Switch (Literal 2) (body_from (CaseLabel (pos 2) ∷ send (Literal 5) ∷ does Break
        ∷ DefaultLabel ∷ send (Literal 6) ∷ [])))
        ∷ send (Literal 7) ∷ does Break ∷ DefaultLabel ∷ send (Literal 8) ∷ []))) ∷ []) []
        (ok ∷ ok ∷ []) ≡ did (sent (pos 5) ∷ sent (pos 7) ∷ []) [] [] Ended }
    ensures inner_case_is_no_outer { runs [] (does (Switch (Literal 2) (body_from
        (CaseLabel (pos 1)
        ∷ does (Switch (Literal 2) (body_from (CaseLabel (pos 2) ∷ send (Literal 5) ∷ [])))
        ∷ DefaultLabel ∷ send (Literal 8) ∷ []))) ∷ []) [] (ok ∷ [])
        ≡ did (sent (pos 8) ∷ []) [] [] Ended }
{}

/// A local whose declaration is jumped over keeps its value: in the second turn of
/// `while (i < 2) { switch (i) { case 0: int k = 5; case 1: send_command(k); } i++; }` it is still
/// 5.
pub fn locals_jumped_over()
    ensures keeps_its_value { runs []
        (declares 0 ∷ does (While (Compare Less (value_of i) (Literal 2)) (Block (body_from
        (does (Switch (value_of i) (body_from (CaseLabel (pos 0) ∷ declares_as 1 (Literal 5)
        ∷ CaseLabel (pos 1) ∷ send (value_of k) ∷ [])))
        ∷ evaluates (Increment PostIncrement i) ∷ [])))) ∷ send (value_of i) ∷ []) []
        (ok ∷ ok ∷ ok ∷ [])
        ≡ did (sent (pos 5) ∷ sent (pos 5) ∷ sent (pos 2) ∷ []) [] [] Ended }
{}
