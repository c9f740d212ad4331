//! Abort methods.

ghost use Rattle.std.specs.Prelude.{◌≡◌, pos, true, false, [], ◌∷◌, Some, None};
ghost use Rattle.edd_syntax.specs.declared.answer.Trap.TheVariants.{DivZero};
ghost use Rattle.edd_syntax.specs.declared.operators.Operator.TheVariants.{Divide};
ghost use Rattle.edd_syntax.specs.AbortMethods.{listed};
ghost use Rattle.edd_syntax.specs.Answers.{Abort};
ghost use Rattle.edd_syntax.specs.Execution.{Aborted, Ended, OutOfTurns, Trapped};
ghost use Rattle.edd_syntax.specs.Expression.{Assign, Binary, Literal};
ghost use Rattle.edd_syntax.specs.Statement.{Block, Nil, Return, While};
ghost use Rattle.test_definitions.specs.Methods.{changed, declares, declares_as, did, does, evaluates, i, ok, send, sent, value_of, x};
ghost use Rattle.test_definitions.specs.Units.{aborts, adds, no, plays, with_methods};

/// A list holds eight methods, and one may be listed twice; while the run aborts, none is listed.
pub fn listed_methods()
    ensures eighth { listed false (no 0 ∷ no 0 ∷ no 0 ∷ no 0 ∷ no 0 ∷ no 0 ∷ no 0 ∷ []) (no 1)
        ≡ Some (no 0 ∷ no 0 ∷ no 0 ∷ no 0 ∷ no 0 ∷ no 0 ∷ no 0 ∷ no 1 ∷ []) }
    ensures ninth { listed false
        (no 0 ∷ no 0 ∷ no 0 ∷ no 0 ∷ no 0 ∷ no 0 ∷ no 0 ∷ no 0 ∷ []) (no 1) ≡ None }
    ensures while_aborting { listed true [] (no 1) ≡ None }
    ensures value { plays (with_methods [] [] (send (adds 0) ∷ [])) (ok ∷ [])
        ≡ record (did (sent (pos 0) ∷ []) [] (pos 0 ∷ []) Ended)
        { abort_methods = no 0 ∷ [] } }
    ensures twice { plays (with_methods (send (Literal 2) ∷ []) []
        (evaluates (adds 0) ∷ evaluates (adds 0) ∷ evaluates aborts ∷ [])) (ok ∷ ok ∷ [])
        ≡ did (sent (pos 2) ∷ sent (pos 2) ∷ []) [] (pos 0 ∷ []) Aborted }
{}

/// Where a method is aborted its list runs, with values that stay and locals of 0; a trap runs
/// none, and `return` goes on with the next, `abort()` ends.
pub fn aborted_methods()
    ensures trap_runs_none { plays (with_methods (send (Literal 2) ∷ []) []
        (evaluates (adds 0) ∷ send (Binary Divide (Literal 1) (Literal 0)) ∷ [])) (ok ∷ [])
        ≡ record (did [] [] (pos 0 ∷ []) (Trapped DivZero))
        { abort_methods = no 0 ∷ []; answers = ok ∷ [] } }
    ensures return_goes_on { plays (with_methods (does Return ∷ send (Literal 2) ∷ [])
        (send (Literal 3) ∷ []) (evaluates (adds 0) ∷ evaluates (adds 1) ∷ evaluates aborts ∷ []))
        (ok ∷ []) ≡ did (sent (pos 3) ∷ []) [] (pos 0 ∷ []) Aborted }
    ensures abort_ends { plays (with_methods (evaluates aborts ∷ send (Literal 2) ∷ [])
        (send (Literal 3) ∷ []) (evaluates (adds 0) ∷ evaluates (adds 1) ∷ evaluates aborts ∷ []))
        (ok ∷ [])
        ≡ record (did [] [] (pos 0 ∷ []) Aborted)
        { abort_methods = no 1 ∷ []; answers = ok ∷ [] } }
    ensures values_stay { plays (with_methods (send (value_of x) ∷ []) []
        (evaluates (adds 0) ∷ evaluates (Assign x (Literal 5)) ∷ evaluates aborts ∷ [])) (ok ∷ [])
        ≡ did (sent (pos 5) ∷ []) (changed 0 (pos 5) ∷ []) (pos 5 ∷ []) Aborted }
    ensures locals_are_0 { plays (with_methods (declares 0 ∷ send (value_of i) ∷ []) []
        (declares_as 0 (Literal 9) ∷ evaluates (adds 0) ∷ send (value_of i) ∷ []))
        (Abort ∷ ok ∷ [])
        ≡ did (sent (pos 9) ∷ sent (pos 0) ∷ []) [] (pos 0 ∷ []) Aborted }
    ensures out_of_turns_inside { plays (with_methods (does (While (Literal 1) (Block Nil)) ∷ [])
        [] (evaluates (adds 0) ∷ evaluates (adds 1) ∷ evaluates aborts ∷ [])) []
        ≡ record (did [] [] (pos 0 ∷ []) OutOfTurns) { abort_methods = no 1 ∷ [] } }
{}
