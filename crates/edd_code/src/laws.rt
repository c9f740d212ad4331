//! Laws of blocks and of the blocks of expressions, for the crates above.

ghost use Rattle.std.specs.Prelude.{◌≡◌, ℕ, ◌<◌, ◌+◌, ◌^◌, ℤ, true, List, [], ◌++◌, length, Option, Ok, Err, Some};
ghost use Rattle.edd_syntax.specs.declared.answer.Trap.{Trap};
ghost use Rattle.edd_syntax.specs.declared.numbers.StrNo.{StrNo};
ghost use Rattle.edd_syntax.specs.MethodState as source;
ghost use Rattle.edd_syntax.specs.Words.{Words};
ghost use Rattle.edd_instructions.specs.declared.records.Record.{Record};
ghost use Rattle.edd_instructions.specs.declared.unit.Sort.TheVariants.{Attribute};
ghost use Rattle.edd_instructions.specs.declared.unit.Context.{Context};
ghost use Rattle.edd_image.specs.declared.versions.Version.TheVariants.{Two};
ghost use Rattle.edd_instructions.specs.References.{names_exist};
ghost use Rattle.edd_instructions.specs.Reading.{given_within};
ghost use Rattle.edd_instructions.specs.Steps.{Environment, opening};
ghost use Rattle.edd_instructions.specs.Units.{IsValidUnit};
ghost use Rattle.edd_code.specs.Blocks.{Block, bytes_at, size, unit_code};
ghost use Rattle.edd_code.specs.Flow.{AreSpelled, Flows, FlowsIn, all_straight, depth_after, may_stand};
ghost use Rattle.edd_code.specs.Outcomes.{Goes, Traps, does};
ghost use Rattle.edd_code.specs.AttributeEffects as attributes;
ghost use Rattle.edd_code.specs.MethodEffects as methods;
ghost use Rattle.edd_code.specs.MethodEffects.{CanBeTaken, Comes};

/// A block has as many bytes as its size says, wherever it is.
pub fn sizes_are_lengths()
    ensures { (place : ℕ) (b : Block) → length (bytes_at place b) ≡ size b }
{}

/// The unit of a block that finds its operands and leaves none, and whose names exist, is a valid
/// unit of its version and sort.
pub fn blocks_are_valid()
    ensures { (context : Context) (b : Block)
        → AreSpelled b → FlowsIn context.version context.sort b 0 → depth_after b 0 ≡ 0
        → size b < 2 ^ 31 → all_straight (names_exist context) b ≡ true
        → IsValidUnit context (unit_code b) }
{}

/// A block that finds its operands in a unit of the newest version finds them in the version of the
/// context, where its instructions may be there, and then the names in them exist.
pub fn blocks_flow_in_their_version()
    ensures flows { (context : Context) (b : Block) (d : ℕ) → FlowsIn Two context.sort b d
        → all_straight (may_stand context) b ≡ true
        → FlowsIn context.version context.sort b d }
    ensures named { (context : Context) (b : Block)
        → all_straight (may_stand context) b ≡ true
        → all_straight (names_exist context) b ≡ true }
{}

/// The unit of a block, followed from its first byte, gives what the block results in.
pub fn blocks_are_followed()
    ensures goes { (env : Environment) (values : List ℤ) (b : Block) (records : List Record)
        → AreSpelled b → Flows b 0 → size b < 2 ^ 31 → does env values b [] ≡ Goes records []
        → (n : ℕ) × (given_within n env (opening (record { sort = Attribute; code = unit_code b }) 0
        values) ≡ Some (Ok records)) }
    ensures traps { (env : Environment) (values : List ℤ) (b : Block) (why : Trap)
        → AreSpelled b → Flows b 0 → size b < 2 ^ 31 → does env values b [] ≡ Traps why
        → (n : ℕ) × (given_within n env (opening (record { sort = Attribute; code = unit_code b }) 0
        values) ≡ Some (Err why)) }
{}

/// What a block results in, in an attribute is the general meaning of blocks, with the records so
/// far carried along.
pub fn attributes_are_a_case()
    ensures { (env : Environment) (values : List ℤ) (b : Block) (operands : List ℤ)
        (given : List Record)
        → attributes.does env values b operands given
        ≡ attributes.after_records given (does env values b operands) }
{}

/// Wherever the bytes of a block are in a method, the machine goes on from their first to the
/// place after them, or to the stop, as the block does; for any number of steps after it, from
/// its first byte in at least as many.
pub fn blocks_come_to_their_outcomes()
    ensures { (text : StrNo → Option Words) (env : Environment) (before after : List ℕ) (b : Block)
        (operands : List ℤ) (s : source.State)
        → AreSpelled b → length before + size b < 2 ^ 32 → CanBeTaken env s.answers
        → Comes text env (before ++ (bytes_at (length before) b ++ after)) (length before)
        (length before + size b)
        operands s (methods.does text env b operands s) }
{}
