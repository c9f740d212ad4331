//! The values of comparisons, of operators before their operand, and of operators at 64 bits.

ghost use Rattle.std.specs.Prelude.{◌≡◌, pos, negsuc, Ok, Err};
ghost use Rattle.edd_syntax.specs.declared.answer.Trap.TheVariants.{BadShift, DivOverflow};
ghost use Rattle.edd_syntax.specs.declared.operators.Comparison.TheVariants as comparison;
ghost use Rattle.edd_syntax.specs.declared.operators.Operator.TheVariants as operator;
ghost use Rattle.edd_syntax.specs.declared.operators.UnaryOperator.TheVariants as unary;
ghost use Rattle.edd_syntax.specs.TwosComplement.{apply, compare, operate};

/// Each comparison of 1 and 2, of 2 and 2, and of 2 and 1.
pub fn comparisons()
    ensures equal { (compare comparison.Equal (pos 1) (pos 2) ≡ pos 0)
        × (compare comparison.Equal (pos 2) (pos 2) ≡ pos 1)
        × (compare comparison.Equal (pos 2) (pos 1) ≡ pos 0) }
    ensures not_equal { (compare comparison.NotEqual (pos 1) (pos 2) ≡ pos 1)
        × (compare comparison.NotEqual (pos 2) (pos 2) ≡ pos 0)
        × (compare comparison.NotEqual (pos 2) (pos 1) ≡ pos 1) }
    ensures less { (compare comparison.Less (pos 1) (pos 2) ≡ pos 1)
        × (compare comparison.Less (pos 2) (pos 2) ≡ pos 0)
        × (compare comparison.Less (pos 2) (pos 1) ≡ pos 0) }
    ensures less_or_equal { (compare comparison.LessOrEqual (pos 1) (pos 2) ≡ pos 1)
        × (compare comparison.LessOrEqual (pos 2) (pos 2) ≡ pos 1)
        × (compare comparison.LessOrEqual (pos 2) (pos 1) ≡ pos 0) }
    ensures greater { (compare comparison.Greater (pos 1) (pos 2) ≡ pos 0)
        × (compare comparison.Greater (pos 2) (pos 2) ≡ pos 0)
        × (compare comparison.Greater (pos 2) (pos 1) ≡ pos 1) }
    ensures greater_or_equal { (compare comparison.GreaterOrEqual (pos 1) (pos 2) ≡ pos 0)
        × (compare comparison.GreaterOrEqual (pos 2) (pos 2) ≡ pos 1)
        × (compare comparison.GreaterOrEqual (pos 2) (pos 1) ≡ pos 1) }
    ensures of_a_negative { compare comparison.Less (negsuc 0) (pos 1) ≡ pos 1 }
{}

/// `-`, `!`, `~` and `+` before an operand; `-` of the least number is that number.
pub fn unary_values()
    ensures minus { apply 32 unary.Minus (pos 5) ≡ negsuc 4 }
    ensures minus_of_the_least { apply 32 unary.Minus (negsuc 2147483647) ≡ negsuc 2147483647 }
    ensures not_of_0 { apply 32 unary.Not (pos 0) ≡ pos 1 }
    ensures not_of_5 { apply 32 unary.Not (pos 5) ≡ pos 0 }
    ensures complement { apply 32 unary.Complement (pos 5) ≡ negsuc 5 }
    ensures plus { apply 32 unary.Plus (negsuc 4) ≡ negsuc 4 }
{}

/// In attributes operators have 64 bits, and `/` rounds toward 0.
pub fn values_of_64_bits()
    ensures rounds_toward_0 { operate 64 operator.Divide (negsuc 6) (pos 2) ≡ Ok (negsuc 2) }
    ensures sum { operate 64 operator.Add (pos 9223372036854775807) (pos 1)
        ≡ Ok (negsuc 9223372036854775807) }
    ensures sum_past_32_bits { operate 64 operator.Add (pos 2147483647) (pos 1)
        ≡ Ok (pos 2147483648) }
    ensures last_shift { operate 64 operator.ShiftLeft (pos 1) (pos 63)
        ≡ Ok (negsuc 9223372036854775807) }
    ensures shift_too_far { operate 64 operator.ShiftLeft (pos 1) (pos 64) ≡ Err BadShift }
    ensures negative_shift { operate 64 operator.ShiftRight (pos 1) (negsuc 0) ≡ Err BadShift }
    ensures least_by_minus_1 { operate 64 operator.Divide (negsuc 9223372036854775807) (negsuc 0)
        ≡ Err DivOverflow }
    ensures remainder_of_the_least { operate 64 operator.Remainder (negsuc 9223372036854775807)
        (negsuc 0) ≡ Err DivOverflow }
{}
