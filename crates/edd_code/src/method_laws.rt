//! Laws of the blocks of expressions of methods, for the crates above.

ghost use Rattle.std.specs.Prelude.{◌≡◌, ◌+◌, ◌*◌, ◌≤◌, nat_lt, Option, ℕ, suc, Bool, true, false, ℤ, List, []};
ghost use Rattle.edd_syntax.specs.declared.numbers.StrNo.{StrNo};
ghost use Rattle.edd_syntax.specs.declared.reference.Target.{Target};
ghost use Rattle.edd_syntax.specs.declared.reference.Target.TheVariants.{Function};
ghost use Rattle.edd_syntax.specs.declared.operators.Builtin.{Builtin};
ghost use Rattle.edd_syntax.specs.Item.{Description};
ghost use Rattle.std.specs.List.{AllByRecursion};
ghost use Rattle.edd_instructions.specs.declared.instruction.Instruction.TheVariants as instruction;
ghost use Rattle.edd_syntax.specs.Device as device;
ghost use Rattle.edd_syntax.specs.Evaluation.{evaluate};
ghost use Rattle.edd_syntax.specs.Expression.{Expr, Call, Nil};
ghost use Rattle.edd_syntax.specs.MethodState.{State};
ghost use Rattle.edd_syntax.specs.Size.{nodes, height};
ghost use Rattle.edd_syntax.specs.SubsetRules.{attributes_of, call_mismatches, is_abort, mismatches};
ghost use Rattle.edd_syntax.specs.WellFormed.{is_expr, is_pure_expr};
ghost use Rattle.edd_syntax.specs.Words.{Words};
ghost use Rattle.edd_instructions.specs.declared.unit.Context.{Context};
ghost use Rattle.edd_instructions.specs.declared.unit.Sort.TheVariants.{Method};
ghost use Rattle.edd_syntax.specs.LayoutVersion.{names_it};
ghost use Rattle.edd_image.specs.declared.versions.Version.{Version};
ghost use Rattle.edd_image.specs.declared.versions.Version.TheVariants.{Two};
ghost use Rattle.edd_image.specs.declared.parts.Counts.{Counts};
ghost use Rattle.edd_code.specs.Blocks.{Straight, size};
ghost use Rattle.edd_code.specs.Expressions.{expression_block};
ghost use Rattle.edd_code.specs.Flow.{AreSpelled, FlowsIn, all_straight, depth_after, may_stand};
ghost use Rattle.edd_code.specs.MethodEffects.{pushed, does};
ghost use Rattle.edd_code.specs.MethodExpressions.{method_block};
ghost use Rattle.edd_code.specs.MethodReads.{uses_existing, is_no_local, CallsFit, HasStrings};
ghost use Rattle.edd_instructions.specs.Agreement.{machine_of};
ghost use Rattle.edd_code.specs.Numbered.{HasNumbers};

/// The block of an expression of a method leaves the expression's value on top of the operands and
/// the state that the expression leaves, or reaches its stop.
pub fn method_expressions_mean_their_values()
    ensures { (text : StrNo → Option Words) (number : Words → StrNo) (env : device.Environment)
        (is_statement : Bool) (e : Expr Target)
        → call_mismatches is_statement e ≡ [] → HasNumbers text number e
        → (operands : List ℤ) (s : State)
        → does text (machine_of env) (method_block number e) operands s
        ≡ pushed operands (evaluate env e s) }
{}

/// The block of an expression that aborts nowhere needs at most two operands more at once than the
/// expression is high, and leaves one.
pub fn method_expressions_flow()
    ensures flows { (number : Words → StrNo) (e : Expr Target) → call_mismatches false e ≡ []
        → (d : ℕ) → d + height e + 2 ≤ 128
        → FlowsIn Two Method (method_block number e) d }
    ensures leaves { (number : Words → StrNo) (e : Expr Target) → call_mismatches false e ≡ []
        → (d : ℕ) → d + height e + 2 ≤ 128
        → depth_after (method_block number e) d ≡ suc d }
{}

/// The block of an expression of a method has at most 32 bytes for each of its nodes.
pub fn method_expressions_are_short()
    ensures { (number : Words → StrNo) (is_statement : Bool) (e : Expr Target)
        → call_mismatches is_statement e ≡ []
        → size (method_block number e) ≤ 32 * nodes e }
{}

/// The block of an expression of a method has its operands in their ranges, and its instructions
/// may be there: the variables, arrays, methods, slots and strings that they name exist, and the
/// version is the second where it must be.
pub fn method_expressions_are_spelled()
    ensures { (version : Version) (counts : Counts) (slots : ℕ) (number : Words → StrNo)
        (plain : Target → Bool) (is_statement : Bool) (e : Expr Target)
        → (nat_lt 0 counts.arrays ≡ true → version ≡ Two)
        → counts.variables ≤ 65536 → counts.arrays ≤ 65536 → counts.methods ≤ 65536
        → counts.strings ≤ 65536 → slots ≤ 65536
        → (let context : Context = record {
          version = version;
          counts = counts;
          sort = Method;
          slots = slots;
        } in
        call_mismatches is_statement e ≡ [] → is_expr (uses_existing context) plain e ≡ true
        → HasStrings context number e → (names_it e ≡ true → version ≡ Two)
        → AreSpelled (method_block number e)
        × (all_straight (may_stand context) (method_block number e) ≡ true)) }
{}

/// An expression that an attribute may have has the same block in attributes and in methods.
pub fn attributes_have_the_same_blocks()
    ensures { (number : Words → StrNo) (plain : Target → Bool) (e : Expr Target)
        → is_pure_expr is_no_local plain e ≡ true
        → method_block number e ≡ expression_block e }
{}

/// A call that aborts is one instruction, which leaves no operand to pop.
pub fn aborts_are_one_instruction()
    ensures { (number : Words → StrNo) (f : Builtin) → is_abort f ≡ true
        → method_block number (Call (Function f) Nil) ≡ Straight instruction.Abort }
{}

/// In a checked description the calls of each expression fit.
pub fn checked_calls_fit()
    ensures { (unit : Description Target) → mismatches unit ≡ []
        → AllByRecursion CallsFit (attributes_of unit) }
{}
