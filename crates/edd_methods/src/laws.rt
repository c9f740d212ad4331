//! Laws of the code of methods, for the crates above.

ghost use Rattle.std.specs.Prelude.{◌≡◌, ℕ, ◌+◌, ◌*◌, ◌<◌, ◌≤◌, ◌^◌, ℤ, pos, List, [], ◌++◌, length, true, Option, Some};
ghost use Rattle.std.specs.List.{AllByRecursion};
ghost use Rattle.edd_syntax.specs.declared.numbers.MethNo.{MethNo};
ghost use Rattle.edd_syntax.specs.declared.numbers.StrNo.{StrNo};
ghost use Rattle.edd_syntax.specs.declared.reference.Target.{Target};
ghost use Rattle.edd_syntax.specs.Answers.{Answer, IsValidAnswer};
ghost use Rattle.edd_syntax.specs.Device as device;
ghost use Rattle.edd_syntax.specs.Execution.{Completion, body_of, ended, execute, execute_all, run_body, turns, turns_of_do};
ghost use Rattle.edd_syntax.specs.Expression.{Expr};
ghost use Rattle.edd_syntax.specs.Item.{Description};
ghost use Rattle.edd_syntax.specs.MethodState as source;
ghost use Rattle.edd_syntax.specs.MethodState.{Action, pure};
ghost use Rattle.edd_syntax.specs.Reference.{Path};
ghost use Rattle.edd_syntax.specs.Resolved.{IsChecked, IsResolved};
ghost use Rattle.edd_syntax.specs.ResolvedTrees.{resolved_body, meant_in};
ghost use Rattle.edd_syntax.specs.Size.{body_nodes, height, height_limit};
ghost use Rattle.edd_syntax.specs.Statement.{Body, Stmt, slots_in};
ghost use Rattle.edd_syntax.specs.SubsetRules.{body_expressions, call_mismatches, mismatches};
ghost use Rattle.edd_syntax.specs.Words.{Words};
ghost use Rattle.edd_instructions.specs.declared.unit.Context.{Context};
ghost use Rattle.edd_instructions.specs.declared.unit.Sort.TheVariants.{Method};
ghost use Rattle.edd_instructions.specs.Agreement.{string_of_table, machine_of};
ghost use Rattle.edd_instructions.specs.Execution as image;
ghost use Rattle.edd_instructions.specs.MethodAgreement.{FollowsBody, IsMethodCode, method_context, started};
ghost use Rattle.edd_instructions.specs.Steps.{Environment};
ghost use Rattle.edd_instructions.specs.Units.{IsValidUnit};
ghost use Rattle.edd_code.specs.Blocks.{Block};
ghost use Rattle.edd_code.specs.MethodEffects.{CanBeTaken};
ghost use Rattle.edd_code.specs.Flow.{AreSpelled, all_straight, may_stand};
ghost use Rattle.edd_code.specs.MethodExpressions.{method_block};
ghost use Rattle.edd_code.specs.Numbered.{HasNumbers};
ghost use Rattle.edd_methods.specs.CodeFlow.{Fits, Gives, Rests};
ghost use Rattle.edd_methods.specs.Following.{Does, Follows};
ghost use Rattle.edd_methods.specs.MethodCode.{HasBlocks, method_code};
ghost use Rattle.edd_methods.specs.StatementCode.{IsShort, IsSpelled, Means, body_code, statement_code};
ghost use Rattle.edd_methods.specs.StatementEffects.{IsWhole, Same, always, loop_turns, performs};
ghost use Rattle.edd_methods.specs.Statements.{Code, IsSpelledCode, bytes_at, size, unit_code};
ghost use Rattle.edd_methods.specs.TreeExpressions.{Each, EachIn, EachSlot, UnlessAbort};

/// Valid answers can be taken.
pub fn valid_answers_can_be_taken()
    ensures { (env : Environment) (answers : List Answer)
        → AllByRecursion (IsValidAnswer env.types) answers → CanBeTaken env answers }
{}

/// Code has as many bytes as its size says, wherever it is.
pub fn code_sizes_are_lengths()
    ensures { (place out back : ℕ) (c : Code) → length (bytes_at place out back c) ≡ size c }
{}

/// The turns of the one layout of loops are those of the source, whether the test comes first or
/// last.
pub fn loops_are_turns()
    ensures first { (n : ℕ) (front test back last : Action ℤ) (body turn : Action Completion)
        → Same front test → Same body turn → Same back (always last)
        → Same (loop_turns n front body back) (turns n test turn last) }
    ensures last { (n : ℕ) (back test : Action ℤ) (body turn : Action Completion) → Same body turn
        → Same back test
        → Same (loop_turns n (pure (pos 1)) body back) (turns_of_do n turn test) }
{}

/// Wherever the bytes of whole code are in a method, the machine goes on from their first as the
/// code performs: to the place after them, to the end of the loop, to its next turn, or to the end
/// or the stop of the method.
pub fn code_does_what_it_performs()
    ensures { (text : StrNo → Option Words) (env : Environment) (before after : List ℕ) (c : Code)
        (out back n : ℕ) (s : source.State)
        → IsSpelledCode c → length before + size c < 2 ^ 32 → out < 2 ^ 32 → back < 2 ^ 32
        → IsWhole text env c → CanBeTaken env s.answers
        → Does text env (before ++ (bytes_at (length before) out back c ++ after)) n (length before)
        []
        (record { end = length before + size c; out = out; back = back }) s
        (performs text env c n s) }
{}

/// The unit of whole code follows what the code performs, from every state of the method.
pub fn units_follow_their_code()
    ensures { (text : StrNo → Option Words) (env : Environment) (c : Code) (f : ℕ
        → Action Completion)
        → IsSpelledCode c → size c < 2 ^ 31 → IsWhole text env c
        → ((n : ℕ) → Same (performs text env c n) (f n))
        → Follows text env (unit_code c) f }
{}

/// A unit that follows the source does what it does, with strings by their numbers, whatever was
/// asked and changed before.
pub fn followed_units_agree()
    ensures { (text : StrNo → Option Words) (env : Environment) (code : List ℕ) (f : ℕ
        → Action Completion)
        → Follows text env code f
        → FollowsBody text env.types (λ n s. ended (f n s))
        (λ k s. image.execute env k (started (record { sort = Method; code = code }) s) s.answers) }
{}

/// Where the blocks of its expressions mean them, the code of a statement is whole, and for any
/// number of turns it does in every state what the statement does: the same completion or stop, and
/// the same state.
pub fn statements_do_what_they_say()
    ensures whole { (text : StrNo → Option Words) (machine : Environment) (env : device.Environment)
        (block_of : Expr Target → Block) (x : Stmt Target)
        → Each (Means block_of text machine env) x
        → IsWhole text machine (statement_code block_of x) }
    ensures same { (text : StrNo → Option Words) (machine : Environment) (env : device.Environment)
        (block_of : Expr Target → Block) (x : Stmt Target)
        → Each (Means block_of text machine env) x → (n : ℕ)
        → Same (performs text machine (statement_code block_of x) n) (execute env x n) }
{}

/// The same of a body.
pub fn bodies_do_what_they_say()
    ensures whole { (text : StrNo → Option Words) (machine : Environment) (env : device.Environment)
        (block_of : Expr Target → Block) (body : Body Target)
        → EachIn (Means block_of text machine env) body
        → IsWhole text machine (body_code block_of body) }
    ensures same { (text : StrNo → Option Words) (machine : Environment) (env : device.Environment)
        (block_of : Expr Target → Block) (body : Body Target)
        → EachIn (Means block_of text machine env) body → (n : ℕ)
        → Same (performs text machine (body_code block_of body) n) (execute_all env body n) }
{}

/// Each operand in the code of a body is in its range, where those in the blocks of its expressions
/// are.
pub fn bodies_are_spelled()
    ensures { (block_of : Expr Target → Block) (body : Body Target)
        → EachIn (IsSpelled block_of) body → IsSpelledCode (body_code block_of body) }
{}

/// The code of a body has at most 32 bytes for each of its nodes, where the blocks of its
/// expressions do.
pub fn bodies_are_short()
    ensures { (block_of : Expr Target → Block) (body : Body Target) → EachIn (IsShort block_of) body
        → size (body_code block_of body) ≤ 32 * body_nodes body }
{}

/// In a checked description the calls in each method's body fit, and aborts are whole statements.
pub fn calls_of_methods_fit()
    ensures { (unit : Description Target) → mismatches unit ≡ [] → (m : MethNo)
        → AllByRecursion (λ p. call_mismatches p.is_statement p.expression ≡ [])
        (body_expressions (body_of unit m)) }
{}

/// The declarators of a resolved body have slots below the number of slots of the body.
pub fn declarators_have_slots()
    ensures { (unit : Description Path) (body : Body Path) (resolved : Body Target)
        → resolved_body (meant_in unit) body [] 0 ≡ Some resolved
        → EachSlot (slots_in resolved) resolved }
{}

/// In a resolved description each declarator of a method's body has a slot of the body, of which
/// there are at most 64.
pub fn methods_have_their_slots()
    ensures few { (d : Description Target) → IsResolved d → (m : MethNo) → slots_in (body_of d m)
        ≤ 64 }
    ensures each { (d : Description Target) → IsResolved d → (m : MethNo)
        → EachSlot (slots_in (body_of d m)) (body_of d m) }
{}

/// What is asked of the expressions of a body is so where its declarators have slots and it is so
/// of each in the list of its expressions, other than aborts that are whole statements.
pub fn expressions_are_listed()
    ensures means { (text : StrNo → Option Words) (machine : Environment) (env : device.Environment)
        (block_of : Expr Target → Block) (body : Body Target)
        → EachSlot (slots_in body) body → slots_in body ≤ 2 ^ 8
        → AllByRecursion (UnlessAbort (Means block_of text machine env)) (body_expressions body)
        → EachIn (Means block_of text machine env) body }
    ensures spelled { (block_of : Expr Target → Block) (body : Body Target)
        → EachSlot (slots_in body) body → slots_in body ≤ 2 ^ 8
        → AllByRecursion (UnlessAbort (IsSpelled block_of)) (body_expressions body)
        → EachIn (IsSpelled block_of) body }
{}

/// The unit of a body follows the body from every state: for each number of turns there is one of
/// steps, no lower, that reports the same.
pub fn bodies_are_followed()
    ensures { (text : StrNo → Option Words) (machine : Environment) (env : device.Environment)
        (block_of : Expr Target → Block) (body : Body Target)
        → EachIn (Means block_of text machine env) body → EachIn (IsSpelled block_of) body
        → size (body_code block_of body) < 2 ^ 31
        → Follows text machine (unit_code (body_code block_of body)) (execute_all env body) }
{}

/// The unit of the code of a method's body does from every state what the body does, with strings
/// by their numbers; where its declarators have slots, its calls fit, its texts have numbers, and
/// operands are in their ranges.
pub fn methods_agree()
    ensures { (unit : Description Target) (m : MethNo) (text : StrNo → Option Words) (number : Words
        → StrNo)
        → EachSlot (slots_in (body_of unit m)) (body_of unit m) → slots_in (body_of unit m) ≤ 2 ^ 8
        → HasBlocks number text (body_of unit m) → size (method_code number (body_of unit m))
        < 2 ^ 31
        → FollowsBody text (device.environment unit).variables
        (λ n s. run_body n (device.environment unit) (body_of unit m) s)
        (λ k s. image.execute (machine_of (device.environment unit)) k
        (started (record { sort = Method; code = unit_code (method_code number (body_of unit m)) })
        s) s.answers) }
{}

/// So it is the code of the method, where it is a valid unit and its strings are numbered in the
/// table.
pub fn valid_code_is_the_methods()
    ensures { (unit : Description Target) (strings : List Words) (m : MethNo) (number : Words
        → StrNo)
        → EachSlot (slots_in (body_of unit m)) (body_of unit m) → slots_in (body_of unit m) ≤ 2 ^ 8
        → HasBlocks number (string_of_table strings) (body_of unit m)
        → size (method_code number (body_of unit m)) < 2 ^ 31
        → IsValidUnit (method_context unit strings (slots_in (body_of unit m)))
        (unit_code (method_code number (body_of unit m)))
        → IsMethodCode unit strings m (slots_in (body_of unit m))
        (unit_code (method_code number (body_of unit m))) }
{}

/// In a checked description, in whose table of strings the texts of a method have their numbers,
/// the operands in the blocks of the method's expressions are in their ranges, and their
/// instructions may be there: the variables, arrays, methods, slots and strings that they name
/// exist.
pub fn checked_expressions_are_spelled()
    ensures { (d : Description Target) → ∥ IsChecked d ∥₁ → (m : MethNo) → (strings : List Words)
        → length strings ≤ 65536 → (number : Words → StrNo)
        → AllByRecursion (λ p. HasNumbers (string_of_table strings) number p.expression)
        (body_expressions (body_of d m))
        → AllByRecursion (λ p. AreSpelled (method_block number p.expression)
        × (all_straight (may_stand (method_context d strings (slots_in (body_of d m))))
        (method_block number p.expression) ≡ true))
        (body_expressions (body_of d m)) }
{}

/// So the unit of a method's code is the method's where it is valid, for each method of a checked
/// description.
pub fn checked_methods_have_their_code()
    ensures { (d : Description Target) → ∥ IsChecked d ∥₁ → (m : MethNo) → (strings : List Words)
        → length strings ≤ 65536 → (number : Words → StrNo)
        → AllByRecursion (λ p. HasNumbers (string_of_table strings) number p.expression)
        (body_expressions (body_of d m))
        → size (method_code number (body_of d m)) < 2 ^ 31
        → IsValidUnit (method_context d strings (slots_in (body_of d m)))
        (unit_code (method_code number (body_of d m)))
        → IsMethodCode d strings m (slots_in (body_of d m))
        (unit_code (method_code number (body_of d m))) }
{}

/// The unit of code is valid in a method where its blocks find their operands and leave none, or
/// one for a test, the operands of their instructions are in their ranges, and these may be
/// there: the variables, arrays, slots and strings that they name exist.
pub fn flowing_code_is_valid()
    ensures { (context : Context) (c : Code) → context.sort ≡ Method
        → IsSpelledCode c → size c < 2 ^ 31
        → Fits Rests Gives c → Fits (λ b. all_straight (may_stand context) b ≡ true)
        (λ b. all_straight (may_stand context) b ≡ true) c
        → IsValidUnit context (unit_code c) }
{}

/// No expression in a method of a resolved description is higher than the limit.
pub fn expressions_of_methods_are_low()
    ensures { (d : Description Target) → IsResolved d → (m : MethNo)
        → AllByRecursion (λ p. height p.expression ≤ height_limit)
        (body_expressions (body_of d m)) }
{}

/// The unit of the code of each method of a checked description is valid, where the texts of the
/// method have their numbers in the table of strings.
pub fn checked_code_is_valid()
    ensures { (d : Description Target) → ∥ IsChecked d ∥₁ → (m : MethNo) → (strings : List Words)
        → length strings ≤ 65536 → (number : Words → StrNo)
        → AllByRecursion (λ p. HasNumbers (string_of_table strings) number p.expression)
        (body_expressions (body_of d m))
        → size (method_code number (body_of d m)) < 2 ^ 31
        → IsValidUnit (method_context d strings (slots_in (body_of d m)))
        (unit_code (method_code number (body_of d m))) }
{}

/// So it is the method's.
pub fn checked_code_is_the_methods()
    ensures { (d : Description Target) → ∥ IsChecked d ∥₁ → (m : MethNo) → (strings : List Words)
        → length strings ≤ 65536 → (number : Words → StrNo)
        → AllByRecursion (λ p. HasNumbers (string_of_table strings) number p.expression)
        (body_expressions (body_of d m))
        → size (method_code number (body_of d m)) < 2 ^ 31
        → IsMethodCode d strings m (slots_in (body_of d m))
        (unit_code (method_code number (body_of d m))) }
{}

/// The code of each method of a checked description has at most 32 bytes for each node of its body.
pub fn checked_methods_are_short()
    ensures { (d : Description Target) → ∥ IsChecked d ∥₁ → (m : MethNo) → (number : Words → StrNo)
        → size (method_code number (body_of d m)) ≤ 32 * body_nodes (body_of d m) }
{}
