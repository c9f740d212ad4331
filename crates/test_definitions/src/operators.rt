//! Operators of methods, over an INTEGER of four octets or a variable of one.

ghost use Rattle.std.specs.Prelude.{◌≡◌, pos, negsuc, [], ◌∷◌};
ghost use Rattle.edd_syntax.specs.declared.answer.Trap.TheVariants.{DivOverflow};
ghost use Rattle.edd_syntax.specs.declared.operators.Builtin.TheVariants as builtin;
ghost use Rattle.edd_syntax.specs.declared.operators.IncrementOperator.TheVariants.{PreDecrement, PostDecrement};
ghost use Rattle.edd_syntax.specs.declared.operators.Operator.TheVariants.{Add, Subtract, Multiply, Divide, Remainder, ShiftLeft, ShiftRight, And, Or, Xor};
ghost use Rattle.edd_syntax.specs.Expression.{Assign, Binary, CompoundAssign, Increment, Literal, Value};
ghost use Rattle.edd_syntax.specs.Execution.{Ended, Trapped};
ghost use Rattle.test_definitions.specs.Methods.{calls, changed, did, evaluates, i, integer, k, minus, ok, declares, declares_as, runs, send, sent, unsigned, value_of, x};

/// `x op= 3` where x is 17: the variable is on the left.
pub fn assigned_values()
    ensures subtracted { runs (integer 4 ∷ []) (evaluates (CompoundAssign Subtract x (Literal 3))
        ∷ []) (pos 17 ∷ []) []
        ≡ did [] (changed 0 (pos 14) ∷ []) (pos 14 ∷ []) Ended }
    ensures divided { runs (integer 4 ∷ []) (evaluates (CompoundAssign Divide x (Literal 3))
        ∷ []) (pos 17 ∷ []) []
        ≡ did [] (changed 0 (pos 5) ∷ []) (pos 5 ∷ []) Ended }
    ensures remainder { runs (integer 4 ∷ []) (evaluates (CompoundAssign Remainder x (Literal 3))
        ∷ []) (pos 17 ∷ []) []
        ≡ did [] (changed 0 (pos 2) ∷ []) (pos 2 ∷ []) Ended }
    ensures shifted_left { runs (integer 4 ∷ []) (evaluates (CompoundAssign ShiftLeft x (Literal 3))
        ∷ []) (pos 17 ∷ []) []
        ≡ did [] (changed 0 (pos 136) ∷ []) (pos 136 ∷ []) Ended }
    ensures shifted_right { runs (integer 4 ∷ [])
        (evaluates (CompoundAssign ShiftRight x (Literal 3)) ∷ []) (pos 17 ∷ []) []
        ≡ did [] (changed 0 (pos 2) ∷ []) (pos 2 ∷ []) Ended }
    ensures bits_of_both { runs (integer 4 ∷ []) (evaluates (CompoundAssign And x (Literal 3))
        ∷ []) (pos 17 ∷ []) []
        ≡ did [] (changed 0 (pos 1) ∷ []) (pos 1 ∷ []) Ended }
    ensures bits_of_either { runs (integer 4 ∷ []) (evaluates (CompoundAssign Or x (Literal 3))
        ∷ []) (pos 17 ∷ []) []
        ≡ did [] (changed 0 (pos 19) ∷ []) (pos 19 ∷ []) Ended }
    ensures bits_of_one { runs (integer 4 ∷ []) (evaluates (CompoundAssign Xor x (Literal 3))
        ∷ []) (pos 17 ∷ []) []
        ≡ did [] (changed 0 (pos 18) ∷ []) (pos 18 ∷ []) Ended }
{}

/// `--` before a variable gives what is read back, behind it what was read before. x is 0, an
/// octet without a sign, so it becomes 255; a local has 32 bits and a sign.
pub fn increments()
    ensures before { runs (unsigned 1 ∷ []) (send (Increment PreDecrement x) ∷ []) (pos 0 ∷ [])
        (ok ∷ []) ≡ did (sent (pos 255) ∷ []) (changed 0 (pos 255) ∷ []) (pos 255 ∷ []) Ended }
    ensures behind { runs (unsigned 1 ∷ []) (send (Increment PostDecrement x) ∷ []) (pos 0 ∷ [])
        (ok ∷ []) ≡ did (sent (pos 0) ∷ []) (changed 0 (pos 255) ∷ []) (pos 255 ∷ []) Ended }
    ensures of_a_local { runs [] (declares 0 ∷ declares_as 1 (Increment PostDecrement i)
        ∷ send (value_of k) ∷ send (Increment PreDecrement i) ∷ []) [] (ok ∷ ok ∷ [])
        ≡ did (sent (pos 0) ∷ sent (negsuc 1) ∷ []) [] [] Ended }
{}

/// A store keeps what fits, and the value of `=` is what is read back.
pub fn stored_values()
    ensures negative_by_its_size { runs (integer 1 ∷ []) (evaluates (Assign x (Literal 200)) ∷ [])
        (pos 0 ∷ []) [] ≡ did [] (changed 0 (negsuc 55) ∷ []) (negsuc 55 ∷ []) Ended }
    ensures value_of_an_assignment { runs (integer 1 ∷ []) (send (Assign x (Literal 200)) ∷ [])
        (pos 0 ∷ []) (ok ∷ [])
        ≡ did (sent (negsuc 55) ∷ []) (changed 0 (negsuc 55) ∷ []) (negsuc 55 ∷ []) Ended }
    ensures value_of_a_compound { runs (unsigned 1 ∷ [])
        (send (CompoundAssign Add x (Literal 250)) ∷ []) (pos 10 ∷ []) (ok ∷ [])
        ≡ did (sent (pos 4) ∷ []) (changed 0 (pos 4) ∷ []) (pos 4 ∷ []) Ended }
    ensures lassign_and_lvar_value { runs (integer 4 ∷ [])
        (evaluates (calls builtin.Lassign (Value (value_of x) ∷ Value (minus 3) ∷ []))
        ∷ send (calls builtin.LvarValue (Value (value_of x) ∷ [])) ∷ []) (pos 7 ∷ []) (ok ∷ [])
        ≡ did (sent (negsuc 2) ∷ []) (changed 0 (negsuc 2) ∷ []) (negsuc 2 ∷ []) Ended }
{}

/// `+`, `-`, `*` and `<<` wrap at 32 bits, in two's complement; the least number has no remainder
/// by -1.
pub fn wrapped_values()
    ensures sum { runs [] (send (Binary Add (Literal 2147483647) (Literal 1)) ∷ []) [] (ok ∷ [])
        ≡ did (sent (negsuc 2147483647) ∷ []) [] [] Ended }
    ensures difference { runs [] (send (Binary Subtract (minus 2147483648) (Literal 1)) ∷ []) []
        (ok ∷ []) ≡ did (sent (pos 2147483647) ∷ []) [] [] Ended }
    ensures product { runs [] (send (Binary Multiply (Literal 65536) (Literal 98304)) ∷ []) []
        (ok ∷ []) ≡ did (sent (negsuc 2147483647) ∷ []) [] [] Ended }
    ensures shift { runs [] (send (Binary ShiftLeft (Literal 3) (Literal 31)) ∷ []) [] (ok ∷ [])
        ≡ did (sent (negsuc 2147483647) ∷ []) [] [] Ended }
    ensures remainder { runs [] (send (Binary Remainder (minus 2147483648) (minus 1)) ∷ []) [] []
        ≡ did [] [] [] (Trapped DivOverflow) }
{}
